// BitSet, the port of bitset.rs: a span over lent words, 0 to 8,192 of them.
//
// The header goes in and comes back by value. Every call is total: what can't be served is refused under document 01's numbers
// and changes nothing, the header that went in included. A call judges its sets, which is linear in their words, and then does
// the work; for sets that are known to be sound, module `checked` has the same calls without the judging.
#![tactic(auto)]

ghost use Rattle.std.specs.Prelude.{◌≡◌};
ghost use Rattle.bitset.specs.Calls.{bytes_of, lent_bytes, left, with_truth, alone, preparing, inserting, toggling, removing, clearing, xoring, xoring_shared, xoring_unshared, flipping, flipping_shared};

use answers::Refusal;
use answers::judge::judge;

pub mod checked;
pub mod indices;
pub mod lent;

use crate::checked::Checked;
use crate::indices::Indices;
pub use crate::lent::Lent;

// The most words a set has.
pub const WORDS: usize = 8192;

#[derive(Clone, Copy, Debug, Default, PartialEq, Eq)]
pub struct BitSet {
    pub span: usize,
}

#[tactic(auto, unfolding(crate::specs::Calls::preparing, crate::specs::Calls::inserting, crate::specs::Calls::toggling, crate::specs::Calls::removing, crate::specs::Calls::clearing, crate::specs::Calls::xoring, crate::specs::Calls::flipping, crate::specs::Calls::flipping_shared, crate::specs::Calls::left, crate::specs::Calls::judged, crate::specs::Calls::in_range, crate::specs::Calls::sound, answers::specs::Answers::number_of))]
impl BitSet {
    // An empty set over words of any contents. The header is the default one either way.
    pub fn new(words: &mut [u64]) -> Result<BitSet, Refusal>
        ensures { left alone (record { span = 0 }) result words.new ≡ preparing words.old }
    {
        if WORDS < words.len() {
            return Err(Refusal::Length);
        }
        words.fill(0);
        Ok(BitSet::default())
    }

    // The set over its words, to be read.
    pub fn over(self, words: &[u64]) -> Lent<'_>
        ensures set { result.set ≡ self }
        ensures words { result.words.now ≡ words.now }
    {
        Lent { set: self, words }
    }

    // Puts an index in, the span reaching it; answers whether it is new.
    pub fn insert(self, words: &mut [u64], index: usize) -> Result<(BitSet, bool), Refusal>
        ensures { left with_truth self result words.new ≡ inserting index (bytes_of self words.old) }
    {
        judge(&[self.over(words)])?;
        checked::insert(self, words, index)
    }

    // Puts an index in or takes it out, the span reaching it; answers whether it is now present.
    pub fn toggle(self, words: &mut [u64], index: usize) -> Result<(BitSet, bool), Refusal>
        ensures { left with_truth self result words.new ≡ toggling index (bytes_of self words.old) }
    {
        judge(&[self.over(words)])?;
        checked::toggle(self, words, index)
    }

    // Takes an index out; answers whether it was present. The span stays.
    pub fn remove(self, words: &mut [u64], index: usize) -> Result<(BitSet, bool), Refusal>
        ensures { left with_truth self result words.new ≡ removing index (bytes_of self words.old) }
    {
        judge(&[self.over(words)])?;
        Ok(checked::remove(self, words, index))
    }

    // Takes every index out. The span stays.
    pub fn clear(self, words: &mut [u64]) -> Result<BitSet, Refusal>
        ensures { left alone self result words.new ≡ clearing (bytes_of self words.old) }
    {
        judge(&[self.over(words)])?;
        Ok(checked::clear(self, words))
    }

    // XORs another set in, the span reaching the other's.
    pub fn symmetric_difference_update(
        self,
        words: &mut [u64],
        other: Lent<'_>,
    ) -> Result<BitSet, Refusal>
        ensures { left alone self result words.new ≡ xoring (bytes_of self words.old) (lent_bytes other.entry) }
    {
        judge(&[self.over(words), other])?;
        checked::symmetric_difference_update(self, words, other.known())
    }

    // Toggles each index of a list, one after another.
    pub fn xor_assign_slice(self, words: &mut [u64], indices: &[usize]) -> Result<BitSet, Refusal>
        ensures { left alone self result words.new ≡ flipping indices.now (bytes_of self words.old) }
    {
        let list = Indices::new(indices)?;
        judge(&[self.over(words)])?;
        checked::xor_assign_slice(self, words, list)
    }

    // Toggles each index of a list that another set has, one after another.
    pub fn xor_intersection_slice(
        self,
        words: &mut [u64],
        indices: &[usize],
        other: Lent<'_>,
    ) -> Result<BitSet, Refusal>
        ensures { left alone self result words.new ≡ flipping_shared indices.now (bytes_of self words.old) (lent_bytes other.entry) }
    {
        let list = Indices::new(indices)?;
        judge(&[self.over(words), other])?;
        checked::xor_intersection_slice(self, words, list, other.known())
    }
}
