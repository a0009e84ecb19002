// The answer to a line: what the calls answered, and the set's count and span after them.
ghost use Rattle.std.specs.Prelude.{OnOk};
ghost use Rattle.std.specs.Io.KnownBytes.{Appends};
ghost use Rattle.replay_bitset.specs.Replay.{dump, printed};

use bitset::{BitSet, WORDS};
use history::line::Line;
use history::print::{end_line, print_fields, print_member};
use history::state::State;
use std::io;
use std::io::Write;
use words::row::contains;

// The members, ascending, one to a line, where a dump asks for them.
#[tactic(auto, unfolding(crate::specs::Replay::dump))]
fn print_dump<W: Write>(out: &mut W, line: Line, words: &[u64]) -> io::Result<()>
    ensures { OnOk result (Appends (W.contents out.old) (W.contents out.new) (dump line words.now)) }
{
    if !line.is_dump() {
        return Ok(());
    }
    for index in 0..64 * words.len().min(WORDS) {
        if contains(words, index) {
            print_member(out, index as u64)?;
        }
    }
    Ok(())
}

// The value, the count and the span; before those of a dump, the members.
#[tactic(auto, unfolding(crate::specs::Replay::printed))]
pub fn print<W: Write>(
    out: &mut W,
    line: Line,
    state: &State<BitSet>,
    words: &[u64],
) -> io::Result<()>
    ensures { OnOk result (Appends (W.contents out.old) (W.contents out.new) (printed line state.now words.now)) }
{
    let set = state.header(line.set);
    print_dump(out, line, words)?;
    print_fields(out, state.answer, set.over(words).len(), Some(set.span))?;
    end_line(out)
}
