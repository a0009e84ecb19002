// SortedVecSet, the port of sorted_vec_set.rs: a count over lent elements, 0 to 8,192 of them, strictly ascending.
//
// The header goes in and comes back by value. Every call is total: what can't be served is refused under document 01's numbers
// and changes nothing, the header that went in included. A call judges its sets, which is linear in their elements, and then
// does the work; for sets that are known to be sound, module `checked` has the same calls without the judging.
#![tactic(auto)]

ghost use Rattle.std.specs.Prelude.{◌≡◌};
ghost use Rattle.sorted_vec_set.specs.Calls.{bytes_of, lent_bytes, left, handed, with_truth, alone, preparing, inserting, removing, toggling, clearing, singling, xoring, taking};

use answers::Refusal;
use answers::judge::judge;

pub mod checked;
pub mod lent;
pub mod xor;

pub use crate::lent::Lent;

// The most elements that a set is lent.
pub const ELEMENTS: usize = 8192;

#[derive(Clone, Copy, Debug, Default, PartialEq, Eq)]
pub struct SortedVecSet {
    pub count: usize,
}

#[tactic(auto, using(crate::proofs::Outcomes::first_sound, crate::proofs::Outcomes::sound_none), unfolding(crate::specs::Calls::preparing, crate::specs::Calls::inserting, crate::specs::Calls::removing, crate::specs::Calls::toggling, crate::specs::Calls::clearing, crate::specs::Calls::singling, crate::specs::Calls::xoring, crate::specs::Calls::taking, crate::specs::Calls::left, crate::specs::Calls::handed, crate::specs::Calls::result, crate::specs::Calls::refused, answers::specs::Answers::number_of))]
impl SortedVecSet {
    // An empty set over elements of any contents. The header is the default one either way.
    pub fn new(elements: &mut [u64]) -> Result<SortedVecSet, Refusal>
        ensures { left alone (record { count = 0 }) result elements.new ≡ preparing elements.old }
    {
        if ELEMENTS < elements.len() {
            return Err(Refusal::Length);
        }
        elements.fill(0);
        Ok(SortedVecSet::default())
    }

    // The set over its elements, to be read.
    pub fn over(self, elements: &[u64]) -> Lent<'_>
        ensures set { result.set ≡ self }
        ensures elements { result.elements.now ≡ elements.now }
    {
        Lent {
            set: self,
            elements,
        }
    }

    // Takes every element out.
    pub fn clear(self, elements: &mut [u64]) -> Result<SortedVecSet, Refusal>
        ensures { left alone self result elements.new ≡ clearing (bytes_of self elements.old) }
    {
        judge(&[self.over(elements)])?;
        Ok(checked::clear(self, elements))
    }

    // Puts an element in; answers whether it is new.
    pub fn insert(self, elements: &mut [u64], element: u64) -> Result<(SortedVecSet, bool), Refusal>
        ensures { left with_truth self result elements.new ≡ inserting element (bytes_of self elements.old) }
    {
        judge(&[self.over(elements)])?;
        checked::insert(self, elements, element)
    }

    // Takes an element out; answers whether it was present.
    pub fn remove(self, elements: &mut [u64], element: u64) -> Result<(SortedVecSet, bool), Refusal>
        ensures { left with_truth self result elements.new ≡ removing element (bytes_of self elements.old) }
    {
        judge(&[self.over(elements)])?;
        Ok(checked::remove(self, elements, element))
    }

    // Puts an element in or takes it out.
    pub fn toggle(self, elements: &mut [u64], element: u64) -> Result<SortedVecSet, Refusal>
        ensures { left alone self result elements.new ≡ toggling element (bytes_of self elements.old) }
    {
        judge(&[self.over(elements)])?;
        checked::toggle(self, elements, element)
    }

    // XORs another set in.
    pub fn xor_assign(self, elements: &mut [u64], other: Lent<'_>) -> Result<SortedVecSet, Refusal>
        ensures { left alone self result elements.new ≡ xoring (bytes_of self elements.old) (lent_bytes other.entry) }
    {
        judge(&[self.over(elements), other])?;
        checked::xor_assign(self, elements, other.known())
    }

    // Hands every element over to another set, whose own are lost; gives the headers of both.
    pub fn take_clearing(
        self,
        elements: &mut [u64],
        other: SortedVecSet,
        others: &mut [u64],
    ) -> Result<(SortedVecSet, SortedVecSet), Refusal>
        ensures { handed self other result elements.new others.new ≡ taking (bytes_of self elements.old) (bytes_of other others.old) }
    {
        judge(&[self.over(elements), other.over(others)])?;
        checked::take_clearing(self, elements, other, others)
    }

    // Leaves one element and no other.
    pub fn set_single(self, elements: &mut [u64], element: u64) -> Result<SortedVecSet, Refusal>
        ensures { left alone self result elements.new ≡ singling element (bytes_of self elements.old) }
    {
        judge(&[self.over(elements)])?;
        checked::set_single(self, elements, element)
    }
}
