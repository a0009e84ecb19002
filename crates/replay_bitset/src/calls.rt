// The calls that a line names.
ghost use Rattle.std.specs.Prelude.{◌≡◌};
ghost use Rattle.history.specs.Faults.{answer_of};
ghost use Rattle.history.specs.States.{Followed};
ghost use Rattle.bitset.specs.Calls.{bytes_of, lent_bytes};
ghost use Rattle.replay_bitset.specs.Replay.{asked, call, with_header, takes_list, pushed, listed};

use answers::Refusal;
use arrayvec::ArrayVec;
use bitset::indices::ENTRIES;
use bitset::{BitSet, Lent};
use history::fault::Fault;
use history::line::Line;
use history::operation::Operation;
use history::state::State;

pub type List = ArrayVec<usize, ENTRIES>;

// The call itself, on a set over its words. A read may have its target as the operand, too. A call that is refused leaves the
// header as it was; `new` leaves a fresh one.
#[tactic(auto, unfolding(crate::specs::Replay::calling, crate::specs::Replay::pushed, bitset::specs::Calls::left, bitset::specs::Calls::bytes_of, bitset::specs::Calls::refused, history::specs::Faults::answer_of, history::specs::Faults::number, answers::specs::Answers::answer_of, answers::specs::Answers::number, answers::specs::Answers::truth, words::specs::Sets::pick))]
fn serve(
    line: Line,
    set: &mut BitSet,
    words: &mut [u64],
    first: Lent<'_>,
    second: Lent<'_>,
    list: &mut List,
) -> Result<u64, Fault>
    ensures answer { answer_of result ≡ (asked line (bytes_of set.old words.old) (lent_bytes first.entry) (lent_bytes second.entry) list.old.items).answer }
    ensures span { set.new.span ≡ (asked line (bytes_of set.old words.old) (lent_bytes first.entry) (lent_bytes second.entry) list.old.items).bytes.span }
    ensures words { words.new ≡ (asked line (bytes_of set.old words.old) (lent_bytes first.entry) (lent_bytes second.entry) list.old.items).bytes.words }
    ensures list { list.new.items ≡ pushed line.operation line.number list.old.items }
{
    let index = line.number;
    Ok(match line.operation {
        Ok(Operation::New) => {
            *set = BitSet { span: 0 };
            *set = BitSet::new(words)?;
            0
        }
        Ok(Operation::Insert) => {
            let (header, is_new) = set.insert(words, index)?;
            *set = header;
            u64::from(is_new)
        }
        Ok(Operation::Remove) => {
            let (header, was_present) = set.remove(words, index)?;
            *set = header;
            u64::from(was_present)
        }
        Ok(Operation::Toggle) => {
            let (header, is_present) = set.toggle(words, index)?;
            *set = header;
            u64::from(is_present)
        }
        Ok(Operation::Contains) => u64::from(set.over(words).contains(index)?),
        Ok(Operation::Len | Operation::Dump) => set.over(words).len()? as u64,
        Ok(Operation::Clear) => {
            *set = set.clear(words)?;
            0
        }
        Ok(Operation::Xor) => {
            *set = set.symmetric_difference_update(words, first)?;
            0
        }
        Ok(Operation::IntersectionCount) => {
            let own = set.over(words);
            let other = if line.a == line.set { own } else { first };
            own.intersection_count(other)? as u64
        }
        Ok(Operation::XorIntersection) => {
            *set = first.xor_intersection_into(second, *set, words)?;
            0
        }
        Ok(Operation::XorSymmetricDifference) => {
            *set = first.xor_symmetric_difference_into(second, *set, words)?;
            0
        }
        Ok(Operation::IsEmpty) => u64::from(set.over(words).is_empty()?),
        Ok(Operation::Eq) => {
            let own = set.over(words);
            let other = if line.a == line.set { own } else { first };
            u64::from(own.eq(other)?)
        }
        Ok(Operation::Push) => {
            list.try_push(index).map_err(|_| Refusal::Length)?;
            0
        }
        Ok(Operation::FlipList) => {
            *set = set.xor_assign_slice(words, list.as_slice())?;
            0
        }
        Ok(Operation::FlipListShared) => {
            *set = set.xor_intersection_slice(words, list.as_slice(), first)?;
            0
        }
        Ok(Operation::CountList) => set
            .over(words)
            .intersection_count_slice(list.as_slice())? as u64,
        Ok(Operation::TakeClearing | Operation::SetSingle) | Err(_) => return Err(Fault::Unknown),
    })
}

// Whether a call leaves the list empty: the slice forms do, which take it, and so does all that has a code above theirs, in the
// table or not. A push has 0x10.
#[tactic(auto, unfolding(crate::specs::Replay::takes_list))]
fn takes_list(operation: Result<Operation, usize>) -> bool
    ensures { result ≡ takes_list operation }
{
    match operation {
        Ok(operation) => operation > Operation::Push,
        Err(code) => code > 0x10,
    }
}

// One call, over words that are lent.
#[tactic(auto, unfolding(bitset::specs::Calls::bytes_of, history::specs::States::header_of))]
pub fn make(
    line: Line,
    state: &mut State<BitSet>,
    words: &mut [u64],
    a: &[u64],
    b: &[u64],
    list: &mut List,
)
    ensures state { let o = call line state.old words.old a.now b.now list.old.items in
        Followed state.old (with_header state.old.sets line.set o.bytes) o.answer state.new }
    ensures words { words.new ≡ (call line state.old words.old a.now b.now list.old.items).bytes.words }
    ensures list { list.new.items ≡ listed line list.old.items }
{
    let first = state.header(line.a).over(a);
    let second = state.header(line.b).over(b);
    let mut set = state.header(line.set);
    let answer = serve(line, &mut set, words, first, second, list);
    if takes_list(line.operation) {
        list.clear();
    }
    state.put(line.set, set);
    state.add(answer);
}
