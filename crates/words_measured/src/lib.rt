// Functions of `words` and `combined` under C names, for bench/ alone: each is the function itself on at most 8,192 words.
#![tactic(auto)]

ghost use Rattle.std.specs.Prelude.{◌≡◌, ◌≤◌, length};
ghost use Rattle.words.specs.Words.{count, exact, zeros, ands, xors, into};

use words::{row, write};

#[unsafe(no_mangle)]
pub extern "C" fn words_xor_in(words: &mut [u64], a: &[u64])
    ensures { words.new ≡ into words.old a.now }
{
    write::xor_in(words, a);
}

#[unsafe(no_mangle)]
pub extern "C" fn words_xor_in_and(words: &mut [u64], a: &[u64], b: &[u64])
    ensures { words.new ≡ into words.old (ands a.now b.now) }
{
    write::xor_in_and(words, a, b);
}

#[unsafe(no_mangle)]
pub extern "C" fn words_xor_in_xor(words: &mut [u64], a: &[u64], b: &[u64])
    ensures { words.new ≡ into words.old (xors a.now b.now) }
{
    write::xor_in_xor(words, a, b);
}

#[unsafe(no_mangle)]
pub extern "C" fn words_all_zero(words: &[u64]) -> bool
    ensures { result ≡ zeros words.now }
{
    row::zero_from(words, 0)
}

#[unsafe(no_mangle)]
pub extern "C" fn words_count_all(words: &[u64]) -> usize
    ensures { length words.now ≤ 8192 → result ≡ count words.now }
{
    if words.len() <= 8192 {
        row::count_all(words)
    } else {
        0
    }
}

#[unsafe(no_mangle)]
pub extern "C" fn words_exact_span(words: &[u64]) -> usize
    ensures { length words.now ≤ 8192 → result ≡ exact words.now }
{
    if words.len() <= 8192 {
        row::exact_span(words)
    } else {
        0
    }
}

#[unsafe(no_mangle)]
pub extern "C" fn words_and_count(a: &[u64], b: &[u64]) -> usize
    ensures { length a.now ≤ 8192 → length b.now ≤ 8192 → result ≡ count (ands a.now b.now) }
{
    if a.len() <= 8192 {
        combined::and_count(a, b)
    } else {
        0
    }
}

#[unsafe(no_mangle)]
pub extern "C" fn words_xor_count(a: &[u64], b: &[u64]) -> usize
    ensures { length a.now ≤ 8192 → length b.now ≤ 8192 → result ≡ count (xors a.now b.now) }
{
    if a.len() <= 8192 {
        if b.len() <= 8192 {
            return combined::xor_count(a, b);
        }
    }
    0
}

#[unsafe(no_mangle)]
pub extern "C" fn words_xor_span(a: &[u64], b: &[u64]) -> usize
    ensures { length a.now ≤ 8192 → length b.now ≤ 8192 → result ≡ exact (xors a.now b.now) }
{
    if a.len() <= 8192 {
        if b.len() <= 8192 {
            return combined::xor_span(a, b);
        }
    }
    0
}
