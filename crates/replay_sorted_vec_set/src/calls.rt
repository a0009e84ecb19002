// The calls that a line names.
ghost use Rattle.std.specs.Prelude.{◌≡◌};
ghost use Rattle.history.specs.Faults.{answer_of};
ghost use Rattle.history.specs.States.{Followed};
ghost use Rattle.sorted_vec_set.specs.Calls.{bytes_of, lent_bytes};
ghost use Rattle.replay_sorted_vec_set.specs.Replay.{asked, handing, with_header, hands_over, making};

use history::fault::Fault;
use history::line::Line;
use history::operation::Operation;
use history::state::State;
use sorted_vec_set::{Lent, SortedVecSet};

// The call itself, where it writes one set at most, on a set over its elements. A read may have its target as the operand, too.
// A call that is refused leaves the header as it was; `new` leaves a fresh one.
#[tactic(auto, unfolding(crate::specs::Replay::calling, sorted_vec_set::specs::Calls::left, sorted_vec_set::specs::Calls::bytes_of, sorted_vec_set::specs::Calls::refused, history::specs::Faults::answer_of, history::specs::Faults::number, answers::specs::Answers::answer_of, answers::specs::Answers::number, answers::specs::Answers::truth, words::specs::Sets::pick))]
fn serve(
    line: Line,
    set: &mut SortedVecSet,
    elements: &mut [u64],
    first: Lent<'_>,
    second: Lent<'_>,
) -> Result<u64, Fault>
    ensures answer { answer_of result ≡ (asked line (bytes_of set.old elements.old) (lent_bytes first.entry) (lent_bytes second.entry)).answer }
    ensures count { set.new.count ≡ (asked line (bytes_of set.old elements.old) (lent_bytes first.entry) (lent_bytes second.entry)).bytes.count }
    ensures elements { elements.new ≡ (asked line (bytes_of set.old elements.old) (lent_bytes first.entry) (lent_bytes second.entry)).bytes.elements }
{
    let element = line.number as u64;
    Ok(match line.operation {
        Ok(Operation::New) => {
            *set = SortedVecSet { count: 0 };
            *set = SortedVecSet::new(elements)?;
            0
        }
        Ok(Operation::Insert) => {
            let (header, is_new) = set.insert(elements, element)?;
            *set = header;
            u64::from(is_new)
        }
        Ok(Operation::Remove) => {
            let (header, was_present) = set.remove(elements, element)?;
            *set = header;
            u64::from(was_present)
        }
        Ok(Operation::Toggle) => {
            *set = set.toggle(elements, element)?;
            0
        }
        Ok(Operation::Contains) => u64::from(set.over(elements).contains(element)?),
        Ok(Operation::Len | Operation::Dump) => set.over(elements).len()? as u64,
        Ok(Operation::Clear) => {
            *set = set.clear(elements)?;
            0
        }
        Ok(Operation::Xor) => {
            *set = set.xor_assign(elements, first)?;
            0
        }
        Ok(Operation::IntersectionCount) => {
            let own = set.over(elements);
            let other = if line.a == line.set { own } else { first };
            own.intersection_count(other)? as u64
        }
        Ok(Operation::XorIntersection) => {
            *set = first.xor_intersection_into(second, *set, elements)?;
            0
        }
        Ok(Operation::XorSymmetricDifference) => {
            *set = first.xor_symmetric_difference_into(second, *set, elements)?;
            0
        }
        Ok(Operation::IsEmpty) => u64::from(set.over(elements).is_empty()?),
        Ok(Operation::Eq) => {
            let own = set.over(elements);
            let other = if line.a == line.set { own } else { first };
            u64::from(own.eq(other)?)
        }
        Ok(Operation::SetSingle) => {
            *set = set.set_single(elements, element)?;
            0
        }
        Ok(
            Operation::Push
            | Operation::FlipList
            | Operation::FlipListShared
            | Operation::CountList
            | Operation::TakeClearing,
        )
        | Err(_) => return Err(Fault::Unknown),
    })
}

// Hands the target's elements over to another set, which is written, too.
#[tactic(auto, unfolding(sorted_vec_set::specs::Calls::bytes_of, sorted_vec_set::specs::Calls::handed, history::specs::States::header_of, history::specs::Faults::answer_of, history::specs::Faults::number))]
fn take(line: Line, state: &mut State<SortedVecSet>, elements: &mut [u64], others: &mut [u64])
    ensures state { let h = handing line state.old elements.old others.old in
        Followed state.old (with_header (with_header state.old.sets line.set h.from) line.a h.to) h.answer state.new }
    ensures elements { elements.new ≡ (handing line state.old elements.old others.old).from.elements }
    ensures others { others.new ≡ (handing line state.old elements.old others.old).to.elements }
{
    let set = state.header(line.set);
    let other = state.header(line.a);
    let given = set.take_clearing(elements, other, others);
    let (set, other) = given.unwrap_or((set, other));
    state.put(line.set, set);
    state.put(line.a, other);
    state.add(given.map(|_| 0).map_err(Fault::from));
}

#[tactic(auto, unfolding(crate::specs::Replay::hands_over))]
fn hands_over(operation: Result<Operation, usize>) -> bool
    ensures { result ≡ hands_over operation }
{
    matches!(operation, Ok(Operation::TakeClearing))
}

// One call, over elements that are lent; of the two other sets, the lower one's first.
#[tactic(auto, unfolding(sorted_vec_set::specs::Calls::bytes_of, history::specs::States::header_of))]
pub fn make(
    line: Line,
    state: &mut State<SortedVecSet>,
    elements: &mut [u64],
    first: &mut [u64],
    second: &mut [u64],
)
    ensures state { let made = making line state.old elements.old first.old second.old in Followed state.old made.sets made.answer state.new }
    ensures elements { elements.new ≡ (making line state.old elements.old first.old second.old).elements }
    ensures first { first.new ≡ (making line state.old elements.old first.old second.old).first }
    ensures second { second.new ≡ (making line state.old elements.old first.old second.old).second }
{
    if hands_over(line.operation) {
        if line.a == line.lower() {
            take(line, state, elements, first);
        } else {
            take(line, state, elements, second);
        }
        return;
    }
    let a = state
        .header(line.a)
        .over(line.buffer(line.a, first, second));
    let b = state
        .header(line.b)
        .over(line.buffer(line.b, first, second));
    let mut set = state.header(line.set);
    let answer = serve(line, &mut set, elements, a, b);
    state.put(line.set, set);
    state.add(answer);
}
