// A line of a history: thirty lowercase hexadecimal digits and a newline.
ghost use Rattle.std.specs.Prelude.{◌≡◌, ◌+◌, ◌/◌, ◌%◌, ◌^◌, ◌<◌, ◌≤◌, length, take, drop, Some, ◌==◌, if◌then◌else◌, IfSome, IfOk, OnOk, OnErr};
ghost use Rattle.std.specs.Io.KnownBytes.{Consumes, IsAtEnd};
ghost use Rattle.history.specs.Operations.{is_dump};
ghost use Rattle.history.specs.Reading.{LosesFewer};
ghost use Rattle.history.specs.Lines.{digit, spelt, line_of, following, lower, upper};

use crate::operation::Operation;
use std::io;
use std::io::Read;

// What a line asks for, which is a code where the table has no such operation, and the other fields that a replay reads.
#[derive(Clone, Copy)]
pub struct Line {
    pub operation: Result<Operation, usize>,
    pub set: usize,
    pub a: usize,
    pub b: usize,
    pub times: usize,
    pub number: usize,
}

#[tactic(auto, unfolding(crate::specs::Lines::digit))]
fn digit(byte: u8) -> usize
    ensures value { result ≡ digit byte }
    ensures upper_bound { result < 16 }
{
    match byte {
        b'0'..=b'9' => (byte - b'0') as usize,
        b'a'..=b'f' => (byte - b'a' + 10) as usize,
        _ => 0,
    }
}

// The number that digits spell.
fn spelt(digits: &[u8]) -> usize
    requires { length digits.now ≤ 16 }
    ensures { result ≡ spelt 0 digits.now }
{
    let mut number = 0;
    for byte in digits {
        number = number * 16 + digit(*byte);
    }
    number
}

// What a line says; a text of another length is none.
#[tactic(auto, unfolding(crate::specs::Lines::line_of, crate::specs::Lines::field))]
pub fn parse(text: &[u8]) -> Option<Line>
    ensures { result ≡ line_of text.now }
{
    if text.len() != 31 {
        return None;
    }
    Some(Line {
        operation: Operation::try_from(spelt(&text[0..2])),
        set: spelt(&text[2..4]),
        a: spelt(&text[4..6]),
        b: spelt(&text[6..8]),
        times: spelt(&text[10..14]),
        number: spelt(&text[14..30]),
    })
}

// Reads until the text is full or the input ends, and returns how many bytes stand at the text's start. The library's
// `read_exact` doesn't say what it has read where it fails, an input that ends too soon included.
fn read_full<R: Read>(input: &mut R, text: &mut [u8]) -> io::Result<usize>
    ensures within { IfOk result (λ got. got ≤ length text.new) }
    ensures bytes { IfOk result (λ got. Consumes (R.remaining input.old) (R.remaining input.new) (take got text.new)) }
    ensures end { IfOk result (λ got. got < length text.new → IsAtEnd (R.remaining input.new)) }
    ensures failed { OnErr result (LosesFewer (length text.new) (R.remaining input.old) (R.remaining input.new)) }
{
    let mut got = 0;
    while got < text.len() {
        let more = input.read(&mut text[got..])?;
        if more == 0 {
            break;
        }
        got += more;
    }
    Ok(got)
}

// The next line of the input, if what is left has one.
pub fn next<R: Read>(input: &mut R) -> io::Result<Option<Line>>
    ensures line { IfOk result (λ line. IfSome (R.remaining input.old) (λ bytes. line ≡ line_of (take 31 bytes))) }
    ensures rest { OnOk result (IfSome (R.remaining input.old) (λ bytes. R.remaining input.new ≡ Some (drop 31 bytes))) }
    ensures failed { OnErr result (LosesFewer 31 (R.remaining input.old) (R.remaining input.new)) }
{
    let mut text = [0u8; 31];
    let got = read_full(input, &mut text)?;
    Ok(parse(&text[..got]))
}

impl Line {
    // How many words `new` lends its set, by the number's first eight digits.
    pub fn words_lent(self) -> usize
        ensures { result ≡ self.number / 2 ^ 32 }
    {
        self.number / 0x1_0000_0000
    }

    // How many keys or elements it lends, by the last eight.
    pub fn elements_lent(self) -> usize
        ensures { result ≡ self.number % 2 ^ 32 }
    {
        self.number % 0x1_0000_0000
    }

    // The same call on the number after this one.
    pub fn following(mut self) -> Line
        ensures { result ≡ following self }
    {
        self.number = self.number.wrapping_add(1);
        self
    }

    // Whether the members are asked for.
    #[tactic(auto, unfolding(crate::specs::Operations::is_dump))]
    pub fn is_dump(self) -> bool
        ensures { result ≡ is_dump self.operation }
    {
        matches!(self.operation, Ok(Operation::Dump))
    }

    // An operand's buffer among those of the two sets that the call isn't made on, the lower one's first. Of the call's own set it
    // is the second, which then nothing reads.
    pub fn buffer<'a>(self, set: usize, first: &'a [u64], second: &'a [u64]) -> &'a [u64]
        ensures { result.now ≡ (if set == lower self.set then first.now else second.now) }
    {
        if set == self.lower() { first } else { second }
    }

    // The lower of the two sets that the call isn't made on; below, the higher.
    #[tactic(auto, unfolding(crate::specs::Lines::lower))]
    pub fn lower(self) -> usize
        ensures { result ≡ lower self.set }
    {
        if self.set == 0 { 1 } else { 0 }
    }

    #[tactic(auto, unfolding(crate::specs::Lines::upper))]
    pub fn upper(self) -> usize
        ensures { result ≡ upper self.set }
    {
        if self.set < 2 { 2 } else { 1 }
    }
}
