// A set over its elements, which are lent to be read: what a read is asked of, and what the operands of a call are.
ghost use Rattle.std.specs.Prelude.{◌≡◌, [], ◌∷◌, IfOk};
ghost use Rattle.answers.specs.Answers.{truth, answer_of, number_of};
ghost use Rattle.answers.specs.Judging.{verdict};
ghost use Rattle.sorted_vec_set.specs.Calls.{Sound, bytes_of, lent_bytes, judged, left, alone, xoring_shared, xoring_unshared, containing, counting, emptiness, counting_shared, comparing};

use crate::checked::Checked;
use crate::{ELEMENTS, SortedVecSet};
use answers::Refusal;
use answers::judge::{Judgeable, judge};
use ascending::scan::ascending;
use words::row::zero_from;

// BitSet has the like of its own. A struct for both would lie in another crate and have no methods here, and a trait with these
// as its own would need a ghost member for what each comes to.
#[derive(Clone, Copy)]
pub struct Lent<'a> {
    pub set: SortedVecSet,
    pub elements: &'a [u64],
}

#[tactic(auto, unfolding(crate::specs::Calls::judged, crate::specs::Calls::in_range, crate::specs::Calls::sound, crate::specs::Calls::bytes_of))]
impl<'a> Judgeable for Lent<'a> {
    ghost judged = { λ s. judged (lent_bytes s) };

    fn is_in_range(&self) -> bool {
        self.elements.len() <= ELEMENTS
    }

    fn is_sound(&self) -> bool {
        let count = self.set.count;
        count <= self.elements.len()
            && ascending(&self.elements[..count])
            && zero_from(self.elements, count)
    }
}

#[tactic(auto, using(crate::proofs::Outcomes::first_sound, crate::proofs::Outcomes::sound_none), unfolding(crate::specs::Calls::containing, crate::specs::Calls::counting, crate::specs::Calls::emptiness, crate::specs::Calls::counting_shared, crate::specs::Calls::comparing, crate::specs::Calls::xoring_shared, crate::specs::Calls::xoring_unshared, crate::specs::Calls::left, crate::specs::Calls::result, crate::specs::Calls::refused, answers::specs::Answers::answered, answers::specs::Answers::number_of, answers::specs::Answers::answer_of))]
impl<'a> Lent<'a> {
    // The set as one that is known to be sound.
    pub fn known(self) -> Checked<'a>
        requires { Sound self.set self.elements.now }
        ensures { result.lent ≡ self.entry }
    {
        Checked { lent: self }
    }

    // The set as one that is known to be sound, or why it isn't.
    fn check(self) -> Result<Checked<'a>, Refusal>
        ensures number { number_of result ≡ verdict (judged (lent_bytes self.entry) ∷ []) }
        ensures same { IfOk result (λ s. s.lent ≡ self.entry) }
    {
        judge(&[self])?;
        Ok(self.known())
    }

    pub fn len(self) -> Result<usize, Refusal>
        ensures { answer_of (λ n. n) result ≡ counting (lent_bytes self.entry) }
    {
        Ok(self.check()?.len())
    }

    pub fn is_empty(self) -> Result<bool, Refusal>
        ensures { answer_of truth result ≡ emptiness (lent_bytes self.entry) }
    {
        Ok(self.check()?.is_empty())
    }

    pub fn contains(self, element: u64) -> Result<bool, Refusal>
        ensures { answer_of truth result ≡ containing element (lent_bytes self.entry) }
    {
        Ok(self.check()?.contains(element))
    }

    // How many elements two sets have in common.
    pub fn intersection_count(self, other: Lent<'_>) -> Result<usize, Refusal>
        ensures { answer_of (λ n. n) result ≡ counting_shared (lent_bytes self.entry) (lent_bytes other.entry) }
    {
        judge(&[self, other])?;
        Ok(self.known().intersection_count(other.known()))
    }

    // Whether two sets have the same elements.
    pub fn eq(self, other: Lent<'_>) -> Result<bool, Refusal>
        ensures { answer_of truth result ≡ comparing (lent_bytes self.entry) (lent_bytes other.entry) }
    {
        judge(&[self, other])?;
        Ok(self.known().eq(other.known()))
    }

    // XORs what this set and another have in common into a target.
    pub fn xor_intersection_into(
        self,
        other: Lent<'_>,
        target: SortedVecSet,
        targets: &mut [u64],
    ) -> Result<SortedVecSet, Refusal>
        ensures { left alone target result targets.new ≡ xoring_shared (bytes_of target targets.old) (lent_bytes self.entry) (lent_bytes other.entry) }
    {
        judge(&[target.over(targets), self, other])?;
        self.known()
            .xor_intersection_into(other.known(), target, targets)
    }

    // XORs this set and another into a target.
    pub fn xor_symmetric_difference_into(
        self,
        other: Lent<'_>,
        target: SortedVecSet,
        targets: &mut [u64],
    ) -> Result<SortedVecSet, Refusal>
        ensures { left alone target result targets.new ≡ xoring_unshared (bytes_of target targets.old) (lent_bytes self.entry) (lent_bytes other.entry) }
    {
        judge(&[target.over(targets), self, other])?;
        self.known()
            .xor_symmetric_difference_into(other.known(), target, targets)
    }
}
