// Reading a row of words.
ghost use Rattle.std.specs.Prelude.{◌≡◌, min, ◌≤◌, length, drop};
ghost use Rattle.words.specs.Words.{at, count, exact, zeros};

use crate::number::Number;
use crate::word::{count, place, test};

// Whether an index is a member; past the last word none is.
pub fn contains(words: &[u64], index: usize) -> bool
    ensures { result ≡ at words.now index }
{
    words
        .get(place(index))
        .is_some_and(|word| test(*word, index))
}

// How many members there are.
#[tactic(auto, using(crate::proofs::LoopLaws::sum_of_counts))]
pub fn count_all(words: &[u64]) -> usize
    requires { length words.now ≤ 8192 }
    ensures { result ≡ count words.now }
{
    words.iter().map(|word| count(*word)).sum()
}

// The exact span: last nonzero word's place plus one, 0 if there is none. Four words are passed at once while they are all 0:
// `rposition` goes one by one.
pub fn exact_span(words: &[u64]) -> usize
    requires { length words.now ≤ 8192 }
    ensures { result ≡ exact words.now }
{
    let mut end = words.len();
    while 4 <= end && words[end - 1] | words[end - 2] | words[end - 3] | words[end - 4] == 0 {
        end -= 4;
    }
    words[..end]
        .iter()
        .rposition(|word| *word != 0)
        .map_or(0, |last| last + 1)
}

// Whether all items from a place on are 0. Nothing is left early: the OR of a run is what processors do fastest.
pub fn zero_from<T: Number>(row: &[T], place: usize) -> bool
    requires { place ≤ length row.now }
    ensures { result ≡ zeros (drop place (T.values row.now)) }
{
    let mut any = T::ZERO;
    for x in &row[place..] {
        any = any.or(*x);
    }
    any == T::ZERO
}

// The smaller of two lengths.
pub fn shorter(x: usize, y: usize) -> usize
    ensures { result ≡ min x y }
{
    x.min(y)
}
