// AdaptiveIndexSet, the port of adaptive_index_set.rs: a header over lent words, 32 to 8,192 of them, and keys, 0 to 16,384.
//
// The header goes in and comes back by value. Every call is total: what can't be served is refused under document 01's numbers
// and changes nothing, the header that went in included. A call checks its sets, which is linear in their words and keys, and
// then does the work; for sets that are known to be sound, module `checked` has the same calls without the check.
#![tactic(auto, unfolding(crate::specs::Contract::left, crate::specs::Contract::judged, crate::specs::Contract::bytes_of, adaptive_rules::specs::Calls::result_of, adaptive_rules::specs::Calls::judged, adaptive_rules::specs::Calls::operands, adaptive_rules::specs::Calls::first, adaptive_rules::specs::Calls::range, adaptive_rules::specs::Calls::verdict, adaptive_rules::specs::Calls::refusal, answers::specs::Judging::verdict, answers::specs::Answers::number_of, answers::specs::Answers::answer_of))]

ghost use Rattle.std.specs.Prelude.{◌≡◌};
ghost use Rattle.adaptive_rules.specs.Calls.{clearing, result_of, preparing};
ghost use Rattle.adaptive_index_set.specs.Contract.{bytes_of, left};

use answers::Refusal;
use answers::judge::{are_in_range, judge};

pub mod checked;
pub mod lent;
pub mod storage;

pub use crate::lent::Lent;

// Mode 0 is dense, 1 sparse. It stays a number: the calls take headers of every mode, and refuse the others as unsound.
#[derive(Clone, Copy, Debug, Default, PartialEq, Eq)]
pub struct Header {
    pub mode: u8,
    pub span: usize,
    pub count: usize,
}

impl Header {
    pub const DENSE: u8 = 0;

    pub const SPARSE: u8 = 1;

    // The widest span of a narrow set; a wide set that grows has at most two words to a member, one that stays at most four.
    pub const NARROW: usize = 32;

    pub const GROWS: usize = 2;

    pub const HOLDS: usize = 4;

    // An empty set over words and keys of any contents. The header is the default one either way: "mode 0, span 0, count 0".
    #[tactic(auto, unfolding(crate::specs::Contract::left, crate::specs::Contract::judged, crate::specs::Contract::bytes_of, adaptive_rules::specs::Calls::preparing, adaptive_rules::specs::Calls::range, adaptive_rules::specs::Calls::refusal, adaptive_rules::specs::Bytes::encode, adaptive_rules::specs::Bytes::stored, words::specs::Words::words_of, words::specs::Words::flips))]
    pub fn prepare(words: &mut [u64], keys: &mut [u32]) -> Result<Header, Refusal>
        ensures { left (record { mode = 0; span = 0; count = 0 }) result words.new keys.new ≡ preparing words.old keys.old }
    {
        let header = Header::default();
        if !are_in_range(&[header.over(words, keys)]) {
            return Err(Refusal::Length);
        }
        words.fill(0);
        keys.fill(0);
        Ok(header)
    }

    // The header of a narrow set.
    pub fn narrow(span: usize) -> Header
        ensures { result ≡ record { mode = 0; span = span; count = 0 } }
    {
        Header {
            mode: Header::DENSE,
            span,
            count: 0,
        }
    }

    // The set over its words and keys, to be read.
    pub fn over<'a>(self, words: &'a [u64], keys: &'a [u32]) -> Lent<'a>
        ensures header { result.header ≡ self }
        ensures words { result.words.now ≡ words.now }
        ensures keys { result.keys.now ≡ keys.now }
    {
        Lent {
            header: self,
            words,
            keys,
        }
    }

    // Takes every index out. A narrow span stays.
    pub fn clear(self, words: &mut [u64], keys: &mut [u32]) -> Result<Header, Refusal>
        ensures { left self result words.new keys.new ≡ result_of clearing (bytes_of self words.old keys.old) }
    {
        judge(&[self.over(words, keys)])?;
        Ok(checked::clear(self, words, keys))
    }
}
