// The answer to a line: what the calls answered, and the set's count after them.
ghost use Rattle.std.specs.Prelude.{OnOk};
ghost use Rattle.std.specs.Io.KnownBytes.{Appends};
ghost use Rattle.sorted_vec_set.specs.Calls.{bytes_of};
ghost use Rattle.replay_sorted_vec_set.specs.Replay.{dump, printed};

use history::line::Line;
use history::print::{end_line, print_fields, print_member};
use history::state::State;
use sorted_vec_set::SortedVecSet;
use std::io;
use std::io::Write;

// The members, ascending, one to a line, where a dump asks for them: the elements up to the count.
#[tactic(auto, using(std::proofs::lemmas::List::take_min), unfolding(crate::specs::Replay::dump, sorted_vec_set::specs::Calls::members, sorted_vec_set::specs::Calls::bytes_of))]
fn print_dump<W: Write>(
    out: &mut W,
    line: Line,
    set: SortedVecSet,
    elements: &[u64],
) -> io::Result<()>
    ensures { OnOk result (Appends (W.contents out.old) (W.contents out.new) (dump line (bytes_of set elements.now))) }
{
    if !line.is_dump() {
        return Ok(());
    }
    for member in &elements[..set.count.min(elements.len())] {
        print_member(out, *member)?;
    }
    Ok(())
}

// The value and the count; before those of a dump, the members.
#[tactic(auto, unfolding(crate::specs::Replay::printed))]
pub fn print<W: Write>(
    out: &mut W,
    line: Line,
    state: &State<SortedVecSet>,
    elements: &[u64],
) -> io::Result<()>
    ensures { OnOk result (Appends (W.contents out.old) (W.contents out.new) (printed line state.now elements.now)) }
{
    let set = state.header(line.set);
    print_dump(out, line, set, elements)?;
    print_fields(out, state.answer, set.over(elements).len(), None)?;
    end_line(out)
}
