// A set over its words, which are lent to be read: what a read is asked of, and what the operands of a call are.
ghost use Rattle.std.specs.Prelude.{◌≡◌, [], ◌∷◌, IfOk};
ghost use Rattle.answers.specs.Judging.{verdict};
ghost use Rattle.answers.specs.Answers.{truth, answer_of, number_of};
ghost use Rattle.bitset.specs.Calls.{Sound, bytes_of, lent_bytes, judged, left, alone, xoring_shared, xoring_unshared, containing, counting, emptiness, counting_shared, counting_entries, comparing};

use crate::checked::Checked;
use crate::indices::Indices;
use crate::{BitSet, WORDS};
use answers::Refusal;
use answers::judge::{Judgeable, judge};
use words::row::zero_from;

// SortedVecSet has the like of its own. A struct for both would lie in another crate and have no methods here, and a trait with these
// as its own would need a ghost member for what each comes to.
#[derive(Clone, Copy)]
pub struct Lent<'a> {
    pub set: BitSet,
    pub words: &'a [u64],
}

#[tactic(auto, unfolding(crate::specs::Calls::judged, crate::specs::Calls::in_range, crate::specs::Calls::sound, crate::specs::Calls::bytes_of))]
impl<'a> Judgeable for Lent<'a> {
    ghost judged = { λ s. judged (lent_bytes s) };

    fn is_in_range(&self) -> bool {
        self.words.len() <= WORDS
    }

    fn is_sound(&self) -> bool {
        let span = self.set.span;
        span <= self.words.len() && zero_from(self.words, span)
    }
}

#[tactic(auto, unfolding(crate::specs::Calls::containing, crate::specs::Calls::emptiness, crate::specs::Calls::counting, crate::specs::Calls::counting_shared, crate::specs::Calls::counting_entries, crate::specs::Calls::comparing, crate::specs::Calls::xoring_shared, crate::specs::Calls::xoring_unshared, crate::specs::Calls::left, crate::specs::Calls::judged, crate::specs::Calls::in_range, crate::specs::Calls::sound, crate::specs::Calls::bytes_of, answers::specs::Answers::number_of, answers::specs::Answers::answer_of))]
impl<'a> Lent<'a> {
    // The set as one that is known to be sound.
    pub fn known(self) -> Checked<'a>
        requires { Sound self.set self.words.now }
        ensures { result.lent ≡ self.entry }
    {
        Checked { lent: self }
    }

    // The set as one that is known to be sound, or why it isn't.
    fn check(self) -> Result<Checked<'a>, Refusal>
        ensures number { number_of result ≡ verdict (judged (lent_bytes self.entry) ∷ []) }
        ensures same { IfOk result (λ s. s.lent ≡ self.entry) }
    {
        judge(&[self])?;
        Ok(self.known())
    }

    pub fn contains(self, index: usize) -> Result<bool, Refusal>
        ensures { answer_of truth result ≡ containing index (lent_bytes self.entry) }
    {
        Ok(self.check()?.contains(index))
    }

    pub fn is_empty(self) -> Result<bool, Refusal>
        ensures { answer_of truth result ≡ emptiness (lent_bytes self.entry) }
    {
        Ok(self.check()?.is_empty())
    }

    pub fn len(self) -> Result<usize, Refusal>
        ensures { answer_of (λ n. n) result ≡ counting (lent_bytes self.entry) }
    {
        Ok(self.check()?.len())
    }

    // How many indices two sets have in common.
    pub fn intersection_count(self, other: Lent<'_>) -> Result<usize, Refusal>
        ensures { answer_of (λ n. n) result ≡ counting_shared (lent_bytes self.entry) (lent_bytes other.entry) }
    {
        judge(&[self, other])?;
        Ok(self.known().intersection_count(other.known()))
    }

    // How many entries of a list are in the set.
    pub fn intersection_count_slice(self, indices: &[usize]) -> Result<usize, Refusal>
        ensures { answer_of (λ n. n) result ≡ counting_entries indices.now (lent_bytes self.entry) }
    {
        let list = Indices::new(indices)?;
        Ok(self.check()?.intersection_count_slice(list))
    }

    // Whether two sets have the same span and the same indices.
    pub fn eq(self, other: Lent<'_>) -> Result<bool, Refusal>
        ensures { answer_of truth result ≡ comparing (lent_bytes self.entry) (lent_bytes other.entry) }
    {
        judge(&[self, other])?;
        Ok(self.known().eq(other.known()))
    }

    // XORs what this set and another have in common into a target, whose span reaches the smaller of the two.
    pub fn xor_intersection_into(
        self,
        other: Lent<'_>,
        target: BitSet,
        targets: &mut [u64],
    ) -> Result<BitSet, Refusal>
        ensures { left alone target result targets.new ≡ xoring_shared (bytes_of target targets.old) (lent_bytes self.entry) (lent_bytes other.entry) }
    {
        judge(&[target.over(targets), self, other])?;
        self.known()
            .xor_intersection_into(other.known(), target, targets)
    }

    // XORs this set and another into a target, whose span reaches the larger of the two.
    pub fn xor_symmetric_difference_into(
        self,
        other: Lent<'_>,
        target: BitSet,
        targets: &mut [u64],
    ) -> Result<BitSet, Refusal>
        ensures { left alone target result targets.new ≡ xoring_unshared (bytes_of target targets.old) (lent_bytes self.entry) (lent_bytes other.entry) }
    {
        judge(&[target.over(targets), self, other])?;
        self.known()
            .xor_symmetric_difference_into(other.known(), target, targets)
    }
}
