// Counts and exact spans of rows combined by AND and XOR, by reading alone: what a call decides with before it writes.
// One routine for each kind of operand. Rows differ in length; past its end a row is 0. So each row is cut where the
// shortest ends: a loop over slices of one length has one end to test, and takes little over half the time.
#![tactic(auto)]

ghost use Rattle.std.specs.Prelude.{◌≡◌, ◌++◌, ◌+◌, ◌^◌, ◌<◌, ◌≤◌, ℕ, List, length, reverse};
ghost use Rattle.std.specs.Iterator.{IsFinite, size};
ghost use Rattle.std.proofs.lemmas.Iterator.{YieldsList};
ghost use Rattle.words.specs.Words.{count, exact, ands, xors};

use words::row::{count_all, exact_span};
use words::word::count;

// How many ones a row has whose first words come. `rest` is how many there are in what follows them. A `for`, since `sum`
// leaves it open that the total of an iterator of any type fits.
fn count_with<I: Iterator<Item = u64>>(words: I, rest: usize) -> usize
    requires can { I.can_next words }
    requires finite { IsFinite (I.remaining words) }
    requires few { (size (I.remaining words) ≤ 8192) × (rest ≤ 2 ^ 32) }
    ensures { (ws tail : List ℕ) → YieldsList I.next_gives (λ w. w) words ws → rest ≡ count tail → result ≡ count (ws ++ tail) }
{
    let mut n = rest;
    for w in words {
        n += count(w);
    }
    n
}

// The exact span of a row whose first k words come, the last first: of two wide rows that is nearly always the only one
// looked at. `rest` is the exact span of what follows them; it tells, unless it is 0. The callers reverse each row, since
// `rposition` over a `zip` takes six times as long.
fn span_with<I: Iterator<Item = u64>>(mut words: I, k: usize, rest: usize) -> usize
    requires can { I.can_next words }
    requires finite { IsFinite (I.remaining words) }
    requires within { (size (I.remaining words) ≤ k) × (k + rest < 2 ^ 64) }
    ensures { (ws tail : List ℕ) → YieldsList I.next_gives (λ w. w) words (reverse ws) → length ws ≡ k → rest ≡ exact tail → result ≡ exact (ws ++ tail) }
{
    if 0 < rest {
        k + rest
    } else {
        words.position(|w| w != 0).map_or(0, |i| k - i)
    }
}

// How many members two rows have in common.
pub fn and_count(a: &[u64], b: &[u64]) -> usize
    requires { length a.now ≤ 8192 }
    ensures { result ≡ count (ands a.now b.now) }
{
    let k = a.len().min(b.len());
    let (a, _) = a.split_at(k);
    let (b, _) = b.split_at(k);
    let words = a.iter().zip(b).map(|(x, y)| x & y);
    count_with(words, 0)
}

// How many members two rows have between them, those in common left out.
#[tactic(auto, using(crate::proofs::Rows::limits))]
pub fn xor_count(a: &[u64], b: &[u64]) -> usize
    requires { (length a.now ≤ 8192) × (length b.now ≤ 8192) }
    ensures { result ≡ count (xors a.now b.now) }
{
    let k = a.len().min(b.len());
    let (a, a_rest) = a.split_at(k);
    let (b, b_rest) = b.split_at(k);
    // One of the two rests is empty.
    let rest = count_all(a_rest) + count_all(b_rest);
    let words = a.iter().zip(b).map(|(x, y)| x ^ y);
    count_with(words, rest)
}

// How many members the row c has once what a and b have in common is XORed in.
#[tactic(auto, using(crate::proofs::Rows::limits))]
pub fn xor_and_count(c: &[u64], a: &[u64], b: &[u64]) -> usize
    requires { (length c.now ≤ 8192) × (length a.now ≤ 8192) }
    ensures { result ≡ count (xors c.now (ands a.now b.now)) }
{
    let k = c.len().min(a.len()).min(b.len());
    let (c, c_rest) = c.split_at(k);
    let (a, a_rest) = a.split_at(k);
    let (b, b_rest) = b.split_at(k);
    // One of the two rests has nothing.
    let rest = count_all(c_rest) + and_count(a_rest, b_rest);
    let words = c.iter().zip(a.iter().zip(b)).map(|(z, (x, y))| z ^ (x & y));
    count_with(words, rest)
}

// How many members the row c has once a and b are XORed in.
#[tactic(auto, using(crate::proofs::Rows::limits))]
pub fn xor_xor_count(c: &[u64], a: &[u64], b: &[u64]) -> usize
    requires { (length c.now ≤ 8192) × (length a.now ≤ 8192) × (length b.now ≤ 8192) }
    ensures { result ≡ count (xors c.now (xors a.now b.now)) }
{
    let k = c.len().min(a.len()).min(b.len());
    let (c, c_rest) = c.split_at(k);
    let (a, a_rest) = a.split_at(k);
    let (b, b_rest) = b.split_at(k);
    // One of the three rests is empty.
    let rest = if c_rest.is_empty() {
        xor_count(a_rest, b_rest)
    } else if a_rest.is_empty() {
        xor_count(c_rest, b_rest)
    } else {
        xor_count(c_rest, a_rest)
    };
    let words = c.iter().zip(a.iter().zip(b)).map(|(z, (x, y))| z ^ (x ^ y));
    count_with(words, rest)
}

// The exact span of what two rows have in common.
pub fn and_span(a: &[u64], b: &[u64]) -> usize
    ensures { result ≡ exact (ands a.now b.now) }
{
    let k = a.len().min(b.len());
    let (a, _) = a.split_at(k);
    let (b, _) = b.split_at(k);
    let words = a.iter().rev().zip(b.iter().rev()).map(|(x, y)| x & y);
    span_with(words, k, 0)
}

// A place from which on two rows of one length are the same. Four words are passed at once: one by one takes half as many
// instructions again, and twice as many where a caller of `xor_span` has much else to keep.
fn differing(a: &[u64], b: &[u64]) -> usize
    requires { length a.now ≡ length b.now }
    ensures within { result ≤ length a.now }
    ensures behind { exact (xors a.now b.now) ≤ result }
{
    let mut end = a.len();
    while 4 <= end
        && (a[end - 1] ^ b[end - 1])
            | (a[end - 2] ^ b[end - 2])
            | (a[end - 3] ^ b[end - 3])
            | (a[end - 4] ^ b[end - 4])
            == 0
    {
        end -= 4;
    }
    end
}

// The exact span of two rows, those members left out that they have in common.
#[tactic(auto, using(crate::proofs::Rows::limits))]
pub fn xor_span(a: &[u64], b: &[u64]) -> usize
    requires { (length a.now ≤ 8192) × (length b.now ≤ 8192) }
    ensures { result ≡ exact (xors a.now b.now) }
{
    let k = a.len().min(b.len());
    let (a, a_rest) = a.split_at(k);
    let (b, b_rest) = b.split_at(k);
    // One of the two rests is empty; the other tells, unless it is all 0.
    let rest = exact_span(a_rest) + exact_span(b_rest);
    if 0 < rest {
        return k + rest;
    }
    let end = differing(a, b);
    let (a, _) = a.split_at(end);
    let (b, _) = b.split_at(end);
    let words = a.iter().rev().zip(b.iter().rev()).map(|(x, y)| x ^ y);
    span_with(words, end, 0)
}

// The exact span of the row c once what a and b have in common is XORed in.
#[tactic(auto, using(crate::proofs::Rows::limits))]
pub fn xor_and_span(c: &[u64], a: &[u64], b: &[u64]) -> usize
    requires { (length c.now ≤ 8192) × (length a.now ≤ 8192) }
    ensures { result ≡ exact (xors c.now (ands a.now b.now)) }
{
    let k = c.len().min(a.len()).min(b.len());
    let (c, c_rest) = c.split_at(k);
    let (a, a_rest) = a.split_at(k);
    let (b, b_rest) = b.split_at(k);
    // One of the two rests has nothing.
    let rest = exact_span(c_rest) + and_span(a_rest, b_rest);
    let words = c
        .iter()
        .rev()
        .zip(a.iter().rev().zip(b.iter().rev()))
        .map(|(z, (x, y))| z ^ (x & y));
    span_with(words, k, rest)
}

// The exact span of the row c once a and b are XORed in.
#[tactic(auto, using(crate::proofs::Rows::limits))]
pub fn xor_xor_span(c: &[u64], a: &[u64], b: &[u64]) -> usize
    requires { (length c.now ≤ 8192) × (length a.now ≤ 8192) × (length b.now ≤ 8192) }
    ensures { result ≡ exact (xors c.now (xors a.now b.now)) }
{
    let k = c.len().min(a.len()).min(b.len());
    let (c, c_rest) = c.split_at(k);
    let (a, a_rest) = a.split_at(k);
    let (b, b_rest) = b.split_at(k);
    // One of the three rests is empty.
    let rest = if c_rest.is_empty() {
        xor_span(a_rest, b_rest)
    } else if a_rest.is_empty() {
        xor_span(c_rest, b_rest)
    } else {
        xor_span(c_rest, a_rest)
    };
    let words = c
        .iter()
        .rev()
        .zip(a.iter().rev().zip(b.iter().rev()))
        .map(|(z, (x, y))| z ^ (x ^ y));
    span_with(words, k, rest)
}
