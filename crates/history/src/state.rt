// What a replay keeps from line to line.
ghost use Rattle.std.specs.Prelude.{◌≡◌, ◌≤◌, min, Ok, replicate, slice_index, slice_set};
ghost use Rattle.history.specs.Faults.{answer_of};
ghost use Rattle.history.specs.States.{header_of, added};

use crate::fault::Fault;

// The headers of three sets, and how much of its buffer each is lent; and what the calls of the line under way have answered so
// far: the sum of their values, or the last fault. What is lent is apart from the headers, which alone the calls give.
#[derive(Clone, Copy)]
pub struct State<S> {
    pub sets: [S; 3],
    pub lent: [usize; 3],
    pub answer: Result<u64, Fault>,
}

// A set above 2, which no history names, counts as 2.
fn place(set: usize) -> usize
    ensures { result ≡ min set 2 }
{
    set.min(2)
}

impl<S: Copy> State<S> {
    // Nothing is lent to the sets.
    pub fn new(empty: S) -> State<S>
        ensures { result ≡ record { sets = replicate 3 empty; lent = replicate 3 0; answer = Ok 0 } }
    {
        State {
            sets: [empty; 3],
            lent: [0; 3],
            answer: Ok(0),
        }
    }

    // The header of a set. There always is one, so that it doesn't matter which other `header_of` would take.
    #[tactic(auto, unfolding(crate::specs::States::header_of))]
    pub fn header(&self, set: usize) -> S
        ensures { (other : S) → result ≡ header_of other self.now set }
    {
        self.sets[place(set)]
    }

    // Puts a header in a set's place.
    pub fn put(&mut self, set: usize, header: S)
        ensures { self.new ≡ record self.old { sets = slice_set self.old.sets (min set 2) header } }
    {
        self.sets[place(set)] = header;
    }

    // How much of a buffer with so much room is lent to a set.
    pub fn lent(&self, set: usize, room: usize) -> usize
        ensures within { result ≤ room }
        ensures lent { result ≡ min (slice_index self.now.lent (min set 2)) room }
    {
        self.lent[place(set)].min(room)
    }

    // Lends a set so much of its buffer.
    pub fn lend(&mut self, set: usize, room: usize)
        ensures { self.new ≡ record self.old { lent = slice_set self.old.lent (min set 2) room } }
    {
        self.lent[place(set)] = room;
    }

    // Adds the answer of one more call.
    #[tactic(auto, using(crate::proofs::FaultLaws::some_number), unfolding(crate::specs::States::added, crate::specs::Faults::answer_of))]
    pub fn add(&mut self, answer: Result<u64, Fault>)
        ensures kept { self.new ≡ record self.old { answer = self.new.answer } }
        ensures answer { answer_of self.new.answer ≡ added (answer_of self.old.answer) (answer_of answer) }
    {
        self.answer = answer.and_then(|value| self.answer.map(|sum| sum.wrapping_add(value)));
    }
}
