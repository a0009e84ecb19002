// Replays a recorded history of the Rust BitSet on the port. The file stdout has the Rust's answers; oracle/README.md the
// format.
#![tactic(auto)]

ghost use Rattle.std.specs.Prelude.{◌≡◌, ◌/◌, ◌^◌};
ghost use Rattle.replay_bitset.specs.Replay.{operand, printed};
ghost use Rattle.replay_bitset.specs.Calling.{Called};

mod answer;
mod calls;

use crate::calls::List;
use arrayvec::ArrayVec;
use bitset::BitSet;
use history::line::Line;
use history::replay;
use history::replay::Replay;
use history::state::State;
use std::io;
use std::io::{BufReader, BufWriter, Write};

// A replay of this set keeps a list of indices, too.
#[derive(Drop)]
struct Bits {
    list: List,
}

// What is lent to an operand, of its buffer among those of the two other sets.
fn operand<'a>(
    line: Line,
    state: &State<BitSet>,
    set: usize,
    first: &'a [u64],
    second: &'a [u64],
) -> &'a [u64]
    ensures { result.now ≡ operand line state.now set first.now second.now }
{
    let buffer = line.buffer(set, first, second);
    &buffer[..state.lent(set, buffer.len())]
}

impl Replay for Bits {
    type Set = BitSet;

    ghost lends = { λ line. line.number / 2 ^ 32 };

    ghost calls = { Called };

    ghost prints = { printed };

    fn lent(line: Line) -> usize {
        line.words_lent()
    }

    fn call(
        &mut self,
        line: Line,
        state: &mut State<BitSet>,
        words: &mut [u64],
        first: &mut [u64],
        second: &mut [u64],
    ) {
        let a = operand(line, state, line.a, first, second);
        let b = operand(line, state, line.b, first, second);
        calls::make(line, state, words, a, b, &mut self.list);
    }

    fn print<W: Write>(
        out: &mut W,
        line: Line,
        state: &State<BitSet>,
        words: &[u64],
    ) -> io::Result<()> {
        answer::print(out, line, state, words)
    }
}

fn main(rt: HostRuntime) -> io::Result<()> {
    let alloc = rt.alloc();
    let mut input = BufReader::new(alloc, rt.reader())?;
    let mut out = BufWriter::new(alloc, io::writer(&rt))?;
    let mut replayed = Bits {
        list: ArrayVec::new(),
    };
    let mut state = State::new(BitSet { span: 0 });
    replay::run(&mut replayed, &mut state, &mut input, &mut out)
}
