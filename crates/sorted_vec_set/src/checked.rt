// The calls over sets that are known to be sound: no scan of whole buffers. Each meets the equation of the full call.
#![tactic(auto, using(crate::proofs::Outcomes::calls), unfolding(crate::specs::Calls::inserting, crate::specs::Calls::removing, crate::specs::Calls::toggling, crate::specs::Calls::clearing, crate::specs::Calls::singling, crate::specs::Calls::xoring, crate::specs::Calls::taking, crate::specs::Calls::left, crate::specs::Calls::handed, crate::specs::Calls::result, crate::specs::Calls::refused, crate::specs::Calls::encode, crate::specs::Calls::members, crate::specs::Steps::flipping, ascending::specs::Search::found))]

ghost use Rattle.std.specs.Prelude.{[], ◌∷◌, ◌≡◌, ◌≤◌, ◌<◌, take, Ok};
ghost use Rattle.answers.specs.Judging.{verdict};
ghost use Rattle.ascending.specs.Places.{insert_at, remove_at};
ghost use Rattle.ascending.specs.Search.{found};
ghost use Rattle.answers.specs.Answers.{truth, answer_of};
ghost use Rattle.sorted_vec_set.specs.Calls.{Sound, bytes_of, lent_bytes, judged, left, handed, with_truth, alone, inserting, removing, toggling, clearing, singling, xoring, xoring_shared, xoring_unshared, taking, containing, counting, emptiness, counting_shared, comparing};
ghost use Rattle.sorted_vec_set.specs.Steps.{holding};

use crate::xor::{fuse_in, xor_in};
use crate::{Lent, SortedVecSet};
use answers::Refusal;
use ascending::merge::merge_count;
use ascending::merging::{difference, intersection};
use ascending::scan::equal;
use ascending::search::{lookup, told};
use ascending::shift::{insert_at, remove_at};
use ascending::store::store;

// A set that is known to be sound, to be read. What is written is a header with its elements lent beside it, sound by a
// `requires`: of a struct that holds a `&mut` a contract can say what stands behind it at the end only by the places of its
// fields, which is no plainer.
#[derive(Clone, Copy)]
pub struct Checked<'a> {
    pub lent: Lent<'a>,
    // An equation, since a ghost field has to be; it holds exactly of sound sets.
    pub ghost passed: { verdict (judged (lent_bytes lent) ∷ []) ≡ 0 },
}

#[tactic(auto, using(crate::proofs::Outcomes::calls), unfolding(crate::specs::Calls::containing, crate::specs::Calls::counting, crate::specs::Calls::emptiness, crate::specs::Calls::counting_shared, crate::specs::Calls::comparing, crate::specs::Calls::xoring_shared, crate::specs::Calls::xoring_unshared, crate::specs::Calls::members, crate::specs::Calls::bytes_of, crate::specs::Steps::flipping, ascending::specs::Search::found, answers::specs::Answers::answered, answers::specs::Answers::answer_of))]
impl<'a> Checked<'a> {
    fn members(self) -> &'a [u64]
        ensures { result.now ≡ take self.entry.lent.set.count self.entry.lent.elements.now }
    {
        &self.lent.elements[..self.lent.set.count]
    }

    pub fn len(self) -> usize
        ensures { answer_of (λ n. n) (Ok result) ≡ counting (lent_bytes self.entry.lent) }
    {
        self.lent.set.count
    }

    pub fn is_empty(self) -> bool
        ensures { answer_of truth (Ok result) ≡ emptiness (lent_bytes self.entry.lent) }
    {
        self.lent.set.count == 0
    }

    pub fn contains(self, element: u64) -> bool
        ensures { answer_of truth (Ok result) ≡ containing element (lent_bytes self.entry.lent) }
    {
        told(lookup(self.members(), element))
    }

    pub fn intersection_count(self, other: Checked<'_>) -> usize
        ensures { answer_of (λ n. n) (Ok result) ≡ counting_shared (lent_bytes self.entry.lent) (lent_bytes other.entry.lent) }
    {
        merge_count(intersection(), self.members(), other.members())
    }

    pub fn eq(self, other: Checked<'_>) -> bool
        ensures { answer_of truth (Ok result) ≡ comparing (lent_bytes self.entry.lent) (lent_bytes other.entry.lent) }
    {
        equal(self.members(), other.members())
    }

    pub fn xor_intersection_into(
        self,
        other: Checked<'_>,
        target: SortedVecSet,
        targets: &mut [u64],
    ) -> Result<SortedVecSet, Refusal>
        requires { Sound target targets.old }
        ensures { left alone target result targets.new ≡ xoring_shared (bytes_of target targets.old) (lent_bytes self.entry.lent) (lent_bytes other.entry.lent) }
    {
        fuse_in(
            intersection(),
            self.members(),
            other.members(),
            target,
            targets,
        )
    }

    pub fn xor_symmetric_difference_into(
        self,
        other: Checked<'_>,
        target: SortedVecSet,
        targets: &mut [u64],
    ) -> Result<SortedVecSet, Refusal>
        requires { Sound target targets.old }
        ensures { left alone target result targets.new ≡ xoring_unshared (bytes_of target targets.old) (lent_bytes self.entry.lent) (lent_bytes other.entry.lent) }
    {
        fuse_in(
            difference(),
            self.members(),
            other.members(),
            target,
            targets,
        )
    }
}

pub fn clear(set: SortedVecSet, elements: &mut [u64]) -> SortedVecSet
    requires { Sound set elements.old }
    ensures { left alone set (Ok result) elements.new ≡ clearing (bytes_of set elements.old) }
{
    elements[..set.count].fill(0);
    SortedVecSet { count: 0 }
}

// The search, among the set's own elements.
fn find(set: SortedVecSet, elements: &[u64], element: u64) -> Result<usize, usize>
    requires { Sound set elements.now }
    ensures { result ≡ found element (take set.count elements.now) }
{
    lookup(&elements[..set.count], element)
}

// Puts an element in at a place, if there is room for one more.
fn put_in(
    set: SortedVecSet,
    elements: &mut [u64],
    place: usize,
    element: u64,
) -> Result<SortedVecSet, Refusal>
    requires { Sound set elements.old × (place ≤ set.count) }
    ensures { left alone set result elements.new ≡ holding (insert_at place element (take set.count elements.old)) (bytes_of set elements.old) }
{
    if set.count == elements.len() {
        return Err(Refusal::Room);
    }
    insert_at(elements, set.count, place, element);
    let count = set.count + 1;
    Ok(SortedVecSet { count })
}

// Takes out the element at a place.
fn take_out(set: SortedVecSet, elements: &mut [u64], place: usize) -> SortedVecSet
    requires { Sound set elements.old × (place < set.count) }
    ensures { left alone set (Ok result) elements.new ≡ holding (remove_at place (take set.count elements.old)) (bytes_of set elements.old) }
{
    remove_at(elements, set.count, place);
    let count = set.count - 1;
    SortedVecSet { count }
}

pub fn insert(
    set: SortedVecSet,
    elements: &mut [u64],
    element: u64,
) -> Result<(SortedVecSet, bool), Refusal>
    requires { Sound set elements.old }
    ensures { left with_truth set result elements.new ≡ inserting element (bytes_of set elements.old) }
{
    match find(set, elements, element) {
        Ok(_) => Ok((set, false)),
        Err(place) => Ok((put_in(set, elements, place, element)?, true)),
    }
}

pub fn remove(set: SortedVecSet, elements: &mut [u64], element: u64) -> (SortedVecSet, bool)
    requires { Sound set elements.old }
    ensures { left with_truth set (Ok result) elements.new ≡ removing element (bytes_of set elements.old) }
{
    match find(set, elements, element) {
        Ok(place) => (take_out(set, elements, place), true),
        Err(_) => (set, false),
    }
}

pub fn toggle(
    set: SortedVecSet,
    elements: &mut [u64],
    element: u64,
) -> Result<SortedVecSet, Refusal>
    requires { Sound set elements.old }
    ensures { left alone set result elements.new ≡ toggling element (bytes_of set elements.old) }
{
    match find(set, elements, element) {
        Ok(place) => Ok(take_out(set, elements, place)),
        Err(place) => put_in(set, elements, place, element),
    }
}

pub fn xor_assign(
    set: SortedVecSet,
    elements: &mut [u64],
    other: Checked<'_>,
) -> Result<SortedVecSet, Refusal>
    requires { Sound set elements.old }
    ensures { left alone set result elements.new ≡ xoring (bytes_of set elements.old) (lent_bytes other.entry.lent) }
{
    xor_in(set, elements, other.members())
}

pub fn take_clearing(
    set: SortedVecSet,
    elements: &mut [u64],
    other: SortedVecSet,
    others: &mut [u64],
) -> Result<(SortedVecSet, SortedVecSet), Refusal>
    requires { Sound set elements.old × Sound other others.old }
    ensures { handed set other result elements.new others.new ≡ taking (bytes_of set elements.old) (bytes_of other others.old) }
{
    let count = set.count;
    if others.len() < count {
        return Err(Refusal::Room);
    }
    store(others, other.count, &elements[..count]);
    elements[..count].fill(0);
    Ok((SortedVecSet { count: 0 }, SortedVecSet { count }))
}

pub fn set_single(
    set: SortedVecSet,
    elements: &mut [u64],
    element: u64,
) -> Result<SortedVecSet, Refusal>
    requires { Sound set elements.old }
    ensures { left alone set result elements.new ≡ singling element (bytes_of set elements.old) }
{
    if elements.is_empty() {
        return Err(Refusal::Room);
    }
    store(elements, set.count, &[element]);
    Ok(SortedVecSet { count: 1 })
}
