// The functions of `words` on document 01's own numbers: 2047, 2048, 5000, and {0..15} with 2048.
#![tactic(auto)]

ghost use Rattle.std.specs.Prelude.{◌≡◌, ◌≤◌, length};

use std::io;
use std::io::{BufWriter, Write};
use words::{keys, row, word, write};

fn answer(was: bool) -> &'static str {
    if was { "yes" } else { "no" }
}

// Where an index lies.
fn locate(out: &mut impl Write, index: usize) -> io::Result<()> {
    let place = word::place(index);
    let mask = word::mask(index);
    writeln!(out, "index {index}: word {place}, mask {mask:016x}")
}

fn report(out: &mut impl Write, count: usize, span: usize) -> io::Result<()> {
    writeln!(out, "{count} members, exact span {span}")
}

// What a row holds.
fn measure(out: &mut impl Write, words: &[u64]) -> io::Result<()>
    requires { length words.now ≤ 8192 }
{
    report(out, row::count_all(words), row::exact_span(words))
}

// Flips an index of 79 words, and says what was there.
fn flip(out: &mut impl Write, words: &mut [u64; 79], index: usize) -> io::Result<()> {
    if index < 5056 {
        let was = answer(write::flip_at(words, index));
        write!(out, "flip {index}: was there: {was}; now ")?;
        measure(out, words)?;
    }
    Ok(())
}

// The keys, in order.
fn list(out: &mut impl Write, keys: &[u32]) -> io::Result<()> {
    write!(out, "as keys:")?;
    for key in keys {
        write!(out, " {key}")?;
    }
    writeln!(out)
}

fn ask(out: &mut impl Write, words: &[u64], index: usize) -> io::Result<()> {
    let is_there = answer(row::contains(words, index));
    writeln!(out, "contains {index}: {is_there}")
}

// {0..15} with 2048, in 79 words.
fn fill(words: &mut [u64; 79]) {
    for index in 0..16 {
        write::set_at(words, index);
    }
    write::set_at(words, 2048);
}

fn compare(out: &mut impl Write, a: &[u64; 79], b: &[u64; 79]) -> io::Result<()> {
    write!(out, "in common: ")?;
    report(out, combined::and_count(a, b), combined::and_span(a, b))?;
    write!(out, "their XOR: ")?;
    report(out, combined::xor_count(a, b), combined::xor_span(a, b))
}

// One row: {0..15} with 2048, asked and flipped.
fn one(out: &mut impl Write, a: &mut [u64; 79]) -> io::Result<()> {
    fill(a);
    write!(out, "{{0..15}} with 2048: ")?;
    measure(out, a)?;
    ask(out, a, 15)?;
    ask(out, a, 2047)?;
    ask(out, a, 2048)?;
    flip(out, a, 5000)?;
    flip(out, a, 5000)
}

// Another beside it: {2047, 2048}, compared and XORed in.
fn two(out: &mut impl Write, a: &mut [u64; 79], b: &mut [u64; 79]) -> io::Result<()> {
    flip(out, b, 2047)?;
    flip(out, b, 2048)?;
    compare(out, a, b)?;
    write::xor_in(a, b);
    write!(out, "XORed in: ")?;
    measure(out, a)
}

// A row as keys, and cleared.
fn three(out: &mut impl Write, a: &mut [u64; 79], keys: &mut [u32; 5056]) -> io::Result<()> {
    let n = keys::to_keys(a, keys);
    list(out, &keys[..n])?;
    write::clear_all(a);
    write!(out, "cleared: ")?;
    measure(out, a)
}

fn main(rt: HostRuntime) -> io::Result<()> {
    let mut out = BufWriter::new(rt.alloc(), io::writer(&rt))?;
    locate(&mut out, 2047)?;
    locate(&mut out, 2048)?;
    locate(&mut out, 5000)?;
    let mut a = [0u64; 79];
    let mut b = [0u64; 79];
    let mut keys = [0u32; 5056];
    one(&mut out, &mut a)?;
    two(&mut out, &mut a, &mut b)?;
    three(&mut out, &mut a, &mut keys)?;
    out.flush()
}
