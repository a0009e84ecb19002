// The calls over sets that are known to be sound: no scan of whole buffers. Each meets the equation of the full call.
#![tactic(auto, using(crate::proofs::Outcomes::calls), unfolding(crate::specs::Calls::inserting, crate::specs::Calls::toggling, crate::specs::Calls::removing, crate::specs::Calls::clearing, crate::specs::Calls::xoring, crate::specs::Calls::left, crate::specs::Calls::view, crate::specs::Rules::inserted, crate::specs::Rules::toggled, crate::specs::Rules::removed, crate::specs::Rules::cleared, crate::specs::Rules::xored))]

ghost use Rattle.std.specs.Prelude.{◌≡◌, max, leb, take, Ok, Err};
ghost use Rattle.words.specs.Sets.{pick};
ghost use Rattle.answers.specs.declared.Refusal.TheVariants.{Span};
ghost use Rattle.answers.specs.Answers.{truth, answer_of};
ghost use Rattle.bitset.specs.Calls.{Sound, bytes_of, lent_bytes, left, with_truth, alone, inserting, toggling, removing, clearing, xoring, xoring_shared, xoring_unshared, flipping, flipping_shared, containing, counting, emptiness, counting_shared, counting_entries, comparing};

use crate::indices::Indices;
use crate::{BitSet, Lent, indices};
use answers::Refusal;
use combined::{and_count, xor_span};
use words::row;
use words::row::{count_all, zero_from};
use words::word::place;
use words::write::{clear_at, flip_at, set_at, xor_in, xor_in_and, xor_in_xor};

// A set that is known to be sound, to be read. What is written is a header with its words lent beside it, sound by a
// `requires`: of a struct that holds a `&mut` a contract can say what stands behind it at the end only by the places of its
// fields, which is no plainer.
#[derive(Clone, Copy)]
pub struct Checked<'a> {
    pub lent: Lent<'a>,
    pub ghost sound: { Sound lent.set lent.words.now },
}

// The header with a span that reaches so far, where there are as many words.
fn reaching(set: BitSet, span: usize, room: usize) -> Result<BitSet, Refusal>
    ensures { result ≡ pick (leb span room) (Ok (record { span = max set.span span })) (Err Span) }
{
    if room < span {
        return Err(Refusal::Span);
    }
    Ok(BitSet {
        span: set.span.max(span),
    })
}

pub fn insert(set: BitSet, words: &mut [u64], index: usize) -> Result<(BitSet, bool), Refusal>
    requires { Sound set words.old }
    ensures { left with_truth set result words.new ≡ inserting index (bytes_of set words.old) }
{
    let set = reaching(set, place(index) + 1, words.len())?;
    let was = set_at(words, index);
    Ok((set, !was))
}

pub fn toggle(set: BitSet, words: &mut [u64], index: usize) -> Result<(BitSet, bool), Refusal>
    requires { Sound set words.old }
    ensures { left with_truth set result words.new ≡ toggling index (bytes_of set words.old) }
{
    let set = reaching(set, place(index) + 1, words.len())?;
    let was = flip_at(words, index);
    Ok((set, !was))
}

pub fn remove(set: BitSet, words: &mut [u64], index: usize) -> (BitSet, bool)
    requires { Sound set words.old }
    ensures { left with_truth set (Ok result) words.new ≡ removing index (bytes_of set words.old) }
{
    let was = place(index) < words.len() && clear_at(words, index);
    (set, was)
}

pub fn clear(set: BitSet, words: &mut [u64]) -> BitSet
    requires { Sound set words.old }
    ensures { left alone set (Ok result) words.new ≡ clearing (bytes_of set words.old) }
{
    words[..set.span].fill(0);
    set
}

pub fn symmetric_difference_update(
    set: BitSet,
    words: &mut [u64],
    other: Checked<'_>,
) -> Result<BitSet, Refusal>
    requires { Sound set words.old }
    ensures { left alone set result words.new ≡ xoring (bytes_of set words.old) (lent_bytes other.entry.lent) }
{
    let reached = reaching(set, other.lent.set.span, words.len())?;
    xor_in(words, other.front());
    Ok(reached)
}

#[tactic(auto, using(crate::proofs::Slices::slices), unfolding(crate::specs::Calls::flipping, crate::specs::Calls::left, crate::specs::Calls::view))]
pub fn xor_assign_slice(
    set: BitSet,
    words: &mut [u64],
    list: Indices<'_>,
) -> Result<BitSet, Refusal>
    requires { Sound set words.old }
    ensures { left alone set result words.new ≡ flipping list.entry.entries.now (bytes_of set words.old) }
{
    let reached = reaching(set, indices::span(set.span, list.entries), words.len())?;
    indices::flip(words, list.entries);
    Ok(reached)
}

#[tactic(auto, using(crate::proofs::Slices::slices), unfolding(crate::specs::Calls::flipping_shared, crate::specs::Calls::left, crate::specs::Calls::view))]
pub fn xor_intersection_slice(
    set: BitSet,
    words: &mut [u64],
    list: Indices<'_>,
    other: Checked<'_>,
) -> Result<BitSet, Refusal>
    requires { Sound set words.old }
    ensures { left alone set result words.new ≡ flipping_shared list.entry.entries.now (bytes_of set words.old) (lent_bytes other.entry.lent) }
{
    let span = indices::span_shared(set.span, list.entries, other.lent.words);
    let reached = reaching(set, span, words.len())?;
    indices::flip_shared(words, list.entries, other.lent.words);
    Ok(reached)
}

#[tactic(auto, using(crate::proofs::Outcomes::calls), unfolding(crate::specs::Calls::containing, crate::specs::Calls::emptiness, crate::specs::Calls::counting, crate::specs::Calls::counting_shared, crate::specs::Calls::counting_entries, crate::specs::Calls::comparing, crate::specs::Calls::xoring_shared, crate::specs::Calls::xoring_unshared, crate::specs::Calls::left, crate::specs::Calls::bytes_of, crate::specs::Calls::view, crate::specs::Rules::xored, crate::specs::Rules::shared, crate::specs::Rules::unshared, crate::specs::Rules::equal, answers::specs::Answers::answer_of))]
impl<'a> Checked<'a> {
    // The words up to the span, which have all members. Below they are bound to a name where a proof has to know that they fit.
    fn front(self) -> &'a [u64]
        ensures { result.now ≡ take self.entry.lent.set.span self.entry.lent.words.now }
    {
        &self.lent.words[..self.lent.set.span]
    }

    pub fn contains(self, index: usize) -> bool
        ensures { answer_of truth (Ok result) ≡ containing index (lent_bytes self.entry.lent) }
    {
        row::contains(self.lent.words, index)
    }

    pub fn is_empty(self) -> bool
        ensures { answer_of truth (Ok result) ≡ emptiness (lent_bytes self.entry.lent) }
    {
        let front = self.front();
        zero_from(front, 0)
    }

    pub fn len(self) -> usize
        ensures { answer_of (λ n. n) (Ok result) ≡ counting (lent_bytes self.entry.lent) }
    {
        count_all(self.front())
    }

    pub fn intersection_count(self, other: Checked<'_>) -> usize
        ensures { answer_of (λ n. n) (Ok result) ≡ counting_shared (lent_bytes self.entry.lent) (lent_bytes other.entry.lent) }
    {
        and_count(self.front(), other.front())
    }

    pub fn intersection_count_slice(self, list: Indices<'_>) -> usize
        ensures { answer_of (λ n. n) (Ok result) ≡ counting_entries list.entry.entries.now (lent_bytes self.entry.lent) }
    {
        indices::count(self.lent.words, list.entries)
    }

    pub fn eq(self, other: Checked<'_>) -> bool
        ensures { answer_of truth (Ok result) ≡ comparing (lent_bytes self.entry.lent) (lent_bytes other.entry.lent) }
    {
        let front = self.front();
        let others = other.front();
        self.lent.set == other.lent.set && xor_span(front, others) == 0
    }

    pub fn xor_intersection_into(
        self,
        other: Checked<'_>,
        target: BitSet,
        targets: &mut [u64],
    ) -> Result<BitSet, Refusal>
        requires { Sound target targets.old }
        ensures { left alone target result targets.new ≡ xoring_shared (bytes_of target targets.old) (lent_bytes self.entry.lent) (lent_bytes other.entry.lent) }
    {
        let span = self.lent.set.span.min(other.lent.set.span);
        let reached = reaching(target, span, targets.len())?;
        xor_in_and(targets, self.front(), other.front());
        Ok(reached)
    }

    pub fn xor_symmetric_difference_into(
        self,
        other: Checked<'_>,
        target: BitSet,
        targets: &mut [u64],
    ) -> Result<BitSet, Refusal>
        requires { Sound target targets.old }
        ensures { left alone target result targets.new ≡ xoring_unshared (bytes_of target targets.old) (lent_bytes self.entry.lent) (lent_bytes other.entry.lent) }
    {
        let span = self.lent.set.span.max(other.lent.set.span);
        let reached = reaching(target, span, targets.len())?;
        xor_in_xor(targets, self.front(), other.front());
        Ok(reached)
    }
}
