// Words as sets of indices: index i is bit i % 64 of word i / 64.
//
// The leaf that the sets stand on. Lengths are bounded by `requires`: nothing here refuses, its callers have judged.
// What a call leaves is said by the definitions of specs/Words.antt; what that means for the members, by the laws of
// proofs/MemberLaws.antt.
#![tactic(auto)]

pub mod keys;
pub mod number;
pub mod row;
pub mod word;
pub mod write;
