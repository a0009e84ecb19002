// Lists of indices, as the slice forms take them: in any order, with repeats.
#![tactic(auto, using(crate::proofs::IndexLaws::listed), unfolding(words::specs::Words::flips, crate::specs::Steps::reached, crate::specs::Rules::entries))]

ghost use Rattle.std.specs.Prelude.{◌≡◌, ◌+◌, ◌*◌, ◌/◌, ◌≤◌, max, leb, length, IfOk};
ghost use Rattle.words.specs.Sets.{pick, Below};
ghost use Rattle.words.specs.Words.{at, flips};
ghost use Rattle.answers.specs.Answers.{number_of};
ghost use Rattle.bitset.specs.Rules.{entries};
ghost use Rattle.bitset.specs.Steps.{reached};

use answers::Refusal;
use words::row::contains;
use words::word::place;
use words::write::flip_at;

// The most entries a list has.
pub const ENTRIES: usize = 16384;

// A list that is no longer than a call takes.
#[derive(Clone, Copy)]
pub struct Indices<'a> {
    pub entries: &'a [usize],
    pub ghost few: { length entries.now ≤ 16384 },
}

#[tactic(auto, unfolding(answers::specs::Answers::number_of, answers::specs::Answers::number))]
impl<'a> Indices<'a> {
    pub fn new(entries: &'a [usize]) -> Result<Indices<'a>, Refusal>
        ensures number { number_of result ≡ pick (leb (length entries.now) 16384) 0 1 }
        ensures same { IfOk result (λ list. list.entries.now ≡ entries.now) }
    {
        if ENTRIES < entries.len() {
            return Err(Refusal::Length);
        }
        Ok(Indices { entries })
    }
}

// The span that reaches every index of a list, and at least `span`.
pub fn span(span: usize, indices: &[usize]) -> usize
    ensures { result ≡ reached span indices.now }
{
    let mut reach = span;
    for index in indices {
        reach = reach.max(place(*index) + 1);
    }
    reach
}

// Flips each index of a list.
pub fn flip(words: &mut [u64], indices: &[usize])
    requires { Below (64 * length words.old) indices.now }
    ensures { words.new ≡ flips words.old indices.now }
{
    for index in indices {
        flip_at(words, *index);
    }
}

// The span that reaches every index of a list that other words have, and at least `span`. A function for this and the one above,
// as one for the two that flip, would take a test, and its contract what the test answers of each index: longer than the loop.
pub fn span_shared(span: usize, indices: &[usize], other: &[u64]) -> usize
    ensures { result ≡ reached span (entries (at other.now) indices.now) }
{
    let mut reach = span;
    for index in indices {
        if contains(other, *index) {
            reach = reach.max(place(*index) + 1);
        }
    }
    reach
}

// Flips each index of a list that other words have.
pub fn flip_shared(words: &mut [u64], indices: &[usize], other: &[u64])
    requires { Below (64 * length words.old) (entries (at other.now) indices.now) }
    ensures { words.new ≡ flips words.old (entries (at other.now) indices.now) }
{
    for index in indices {
        if contains(other, *index) {
            flip_at(words, *index);
        }
    }
}

// How many entries of a list the words have. Each answer is added up: a `filter` leaves at each entry that the words have, and with
// members that can't be foreseen takes five times as long.
pub fn count(words: &[u64], indices: &[usize]) -> usize
    ensures { result ≡ length (entries (at words.now) indices.now) }
{
    let mut n = 0;
    for index in indices {
        n += usize::from(contains(words, *index));
    }
    n
}
