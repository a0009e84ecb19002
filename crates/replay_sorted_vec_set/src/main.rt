// Replays a recorded history of the Rust SortedVecSet on the port. The file stdout has the Rust's answers; oracle/README.md
// the format.
#![tactic(auto)]

ghost use Rattle.std.specs.Prelude.{◌≡◌, ◌%◌, ◌^◌};
ghost use Rattle.replay_sorted_vec_set.specs.Replay.{printed};
ghost use Rattle.replay_sorted_vec_set.specs.Calling.{Called};

mod answer;
mod calls;

use history::line::Line;
use history::replay;
use history::replay::Replay;
use history::state::State;
use sorted_vec_set::SortedVecSet;
use std::io;
use std::io::{BufReader, BufWriter, Write};

// A replay of this set keeps nothing but the state.
#[derive(Clone, Copy)]
struct Sorted;

impl Replay for Sorted {
    type Set = SortedVecSet;

    ghost lends = { λ line. line.number % 2 ^ 32 };

    ghost calls = { Called };

    ghost prints = { printed };

    fn lent(line: Line) -> usize {
        line.elements_lent()
    }

    fn call(
        &mut self,
        line: Line,
        state: &mut State<SortedVecSet>,
        elements: &mut [u64],
        first: &mut [u64],
        second: &mut [u64],
    ) {
        let first_end = state.lent(line.lower(), first.len());
        let second_end = state.lent(line.upper(), second.len());
        let first = &mut first[..first_end];
        let second = &mut second[..second_end];
        calls::make(line, state, elements, first, second);
    }

    fn print<W: Write>(
        out: &mut W,
        line: Line,
        state: &State<SortedVecSet>,
        elements: &[u64],
    ) -> io::Result<()> {
        answer::print(out, line, state, elements)
    }
}

fn main(rt: HostRuntime) -> io::Result<()> {
    let alloc = rt.alloc();
    let mut input = BufReader::new(alloc, rt.reader())?;
    let mut out = BufWriter::new(alloc, io::writer(&rt))?;
    let mut state = State::new(SortedVecSet { count: 0 });
    replay::run(&mut Sorted, &mut state, &mut input, &mut out)
}
