// Replaying a history: a line of the input names a call on one of three sets, and a line of the output answers it.
//
// Nothing judges the input: a line that is none of a history is answered somehow, and the comparison fails.
ghost use Rattle.std.specs.Prelude.{◌≡◌, ℕ, ◌^◌, ◌<◌, [], List, length, Some, IfSome, OnOk};
ghost use Rattle.std.specs.Io.KnownBytes.{Appends};
ghost use Rattle.history.specs.Replaying.{Played, Ran, answer_printed};
ghost use Rattle.history.specs.Scenes.{Scene};
ghost use Rattle.history.specs.declared.line.Line.{Line};
ghost use Rattle.history.specs.declared.state.State.{State};

use crate::line;
use crate::line::Line;
use crate::operation::Operation;
use crate::state::State;
use std::io;
use std::io::{Read, Write};

// What is a replay's own, by the kind of its sets.
pub trait Replay {
    type Set: Copy;

    ghost lends: { Line → ℕ };

    // What a call leaves of its scene.
    ghost calls: { Line → Scene Self Self.Set → Scene Self Self.Set → Type 0 };

    ghost prints: { Line → State Self.Set → List ℕ → List ℕ };

    // How much of its buffer a line of `new` lends a set.
    fn lent(line: Line) -> usize
        ensures { result ≡ lends line };

    // Makes one call on a set over what it is lent. The whole buffers of the two other sets follow, the lower one's first.
    fn call(
        &mut self,
        line: Line,
        state: &mut State<Self::Set>,
        own: &mut [u64],
        first: &mut [u64],
        second: &mut [u64],
    )
        ensures { calls line
            (record { replay = self.old; state = state.old; own = own.old; first = first.old; second = second.old })
            (record { replay = self.new; state = state.new; own = own.new; first = first.new; second = second.new }) };

    // Prints the answer to a line whose calls are made.
    fn print<W: Write>(
        out: &mut W,
        line: Line,
        state: &State<Self::Set>,
        own: &[u64],
    ) -> io::Result<()>
        ensures { OnOk result (Appends (W.contents out.old) (W.contents out.new) (prints line state.now own.now)) };
}

// Makes a line's calls, each on the number after the one before, and prints their answer. `new` lends its set anew.
fn play<R: Replay, W: Write>(
    replay: &mut R,
    out: &mut W,
    mut line: Line,
    state: &mut State<R::Set>,
    own: &mut [u64],
    first: &mut [u64],
    second: &mut [u64],
) -> io::Result<()>
    ensures left { Played R.lends R.calls line
        (record { replay = replay.old; state = state.old; own = own.old; first = first.old; second = second.old })
        (record { replay = replay.new; state = state.new; own = own.new; first = first.new; second = second.new }) }
    ensures printed { OnOk result (Appends (W.contents out.old) (W.contents out.new) (answer_printed R.lends R.prints line
        (record { replay = replay.old; state = state.old; own = own.old; first = first.old; second = second.old })
        (record { replay = replay.new; state = state.new; own = own.new; first = first.new; second = second.new }))) }
{
    state.answer = Ok(0);
    if let Ok(Operation::New) = line.operation {
        state.lend(line.set, R::lent(line));
    }
    let end = state.lent(line.set, own.len());
    let own = &mut own[..end];
    for _ in 0..line.times {
        replay.call(line, state, own, first, second);
        line = line.following();
    }
    R::print(out, line, state, own)
}

// Replays the input, from a state on. A proved loop has to end, and nothing says that the input does: no run uses up so many
// turns.
pub fn run<R: Replay, I: Read, W: Write>(
    replay: &mut R,
    state: &mut State<R::Set>,
    input: &mut I,
    out: &mut W,
) -> io::Result<()>
    ensures read { OnOk result (IfSome (I.remaining input.old) (λ bytes. length bytes < 2 ^ 64 → I.remaining input.new ≡ Some [])) }
    ensures answered { OnOk result (IfSome (I.remaining input.old) (λ bytes. length bytes < 2 ^ 64 →
        Ran R.lends R.calls R.prints bytes replay.old replay.new state.old state.new (W.contents out.old) (W.contents out.new))) }
{
    let mut buffer0 = [0u64; 8192];
    let mut buffer1 = [0u64; 8192];
    let mut buffer2 = [0u64; 8192];
    for _ in 0..u64::MAX {
        let Some(line) = line::next(input)? else {
            break;
        };
        // Each arm makes the call: of buffers that are chosen first, a proof doesn't know afterwards which is which.
        match line.set {
            0 => play(
                replay,
                out,
                line,
                state,
                &mut buffer0,
                &mut buffer1,
                &mut buffer2,
            )?,
            1 => play(
                replay,
                out,
                line,
                state,
                &mut buffer1,
                &mut buffer0,
                &mut buffer2,
            )?,
            _ => play(
                replay,
                out,
                line,
                state,
                &mut buffer2,
                &mut buffer0,
                &mut buffer1,
            )?,
        }
        // The answer to a line is there before the next line is read.
        out.flush()?;
    }
    Ok(())
}
