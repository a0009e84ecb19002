// Printing the answer to a line: fields of lowercase hexadecimal digits, and a newline.
ghost use Rattle.std.specs.Prelude.{◌≡◌, [], ◌∷◌, ◌++◌, IfOk, OnOk};
ghost use Rattle.std.specs.Io.KnownBytes.{Appends};
ghost use Rattle.answers.specs.Judging.{earlier};
ghost use Rattle.history.specs.Faults.{number, number_of, answer_of, count_of};
ghost use Rattle.history.specs.Fields.{answer_fields, hexadecimal, member_line};

use crate::fault::Fault;
use answers::Refusal;
use std::io;
use std::io::Write;

// The number, with zeros before it up to the width. A width above 16 counts as 16.
pub fn print_field<W: Write>(out: &mut W, number: u64, width: usize) -> io::Result<()>
    ensures { OnOk result (Appends (W.contents out.old) (W.contents out.new) (hexadecimal width number)) }
{
    let digits = width.min(16);
    write!(out, "{number:0digits$x}")
}

pub fn end_line<W: Write>(out: &mut W) -> io::Result<()>
    ensures { OnOk result (Appends (W.contents out.old) (W.contents out.new) (10 ∷ [])) }
{
    writeln!(out)
}

// A member of a dump, on a line of its own.
pub fn print_member<W: Write>(out: &mut W, member: u64) -> io::Result<()>
    ensures { OnOk result (Appends (W.contents out.old) (W.contents out.new) (member_line member)) }
{
    print_field(out, member, 16)?;
    end_line(out)
}

// The fields that begin the answers line of every set.
pub fn print_answer<W: Write>(out: &mut W, value: u64, count: u64) -> io::Result<()>
    ensures { OnOk result (Appends (W.contents out.old) (W.contents out.new) (hexadecimal 16 value ++ hexadecimal 6 count)) }
{
    print_field(out, value, 16)?;
    print_field(out, count, 6)
}

// Of a refusal the number alone, which is no recorded answer. It is promised of any number.
pub fn print_refusal<W: Write>(out: &mut W, number: u8) -> io::Result<()>
    ensures { OnOk result (Appends (W.contents out.old) (W.contents out.new) (hexadecimal 2 number)) }
{
    print_field(out, u64::from(number), 2)
}

// The same of any fault.
pub fn print_fault<W: Write>(out: &mut W, fault: Fault) -> io::Result<()>
    ensures { OnOk result (Appends (W.contents out.old) (W.contents out.new) (hexadecimal 2 (number fault))) }
{
    print_refusal(out, u8::from(fault))
}

// The value and the count; or the fault of one of them, and of two faults the one that is checked first.
#[tactic(auto, using(crate::proofs::FaultLaws::lesser, crate::proofs::FaultLaws::some_number), unfolding(crate::specs::Faults::number, crate::specs::Faults::number_of, crate::specs::Faults::answer_of, answers::specs::Answers::answer_of, answers::specs::Judging::earlier))]
fn both(value: Result<u64, Fault>, count: Result<usize, Refusal>) -> Result<(u64, usize), Fault>
    ensures number { number_of result ≡ earlier (answer_of value).number (count_of count).number }
    ensures value { IfOk result (λ given. given.0 ≡ (answer_of value).value) }
    ensures count { IfOk result (λ given. given.1 ≡ (count_of count).value) }
{
    match (value, count) {
        (Ok(value), Ok(count)) => Ok((value, count)),
        (Err(fault), Ok(_)) => Err(fault),
        (Ok(_), Err(refusal)) => Err(Fault::from(refusal)),
        (Err(fault), Err(refusal)) => Err(fault.min(Fault::from(refusal))),
    }
}

// The fields of an answers line: the value, the count, and the span of a set that has one; of a fault its number alone.
#[tactic(auto, using(crate::proofs::FaultLaws::some_number), unfolding(crate::specs::Fields::answer_fields, crate::specs::Faults::number_of))]
pub fn print_fields<W: Write>(
    out: &mut W,
    value: Result<u64, Fault>,
    count: Result<usize, Refusal>,
    span: Option<usize>,
) -> io::Result<()>
    ensures { OnOk result (Appends (W.contents out.old) (W.contents out.new) (answer_fields (answer_of value) (count_of count) span)) }
{
    match both(value, count) {
        Ok((value, count)) => {
            print_answer(out, value, count as u64)?;
            match span {
                Some(span) => print_field(out, span as u64, 4),
                None => Ok(()),
            }
        }
        Err(fault) => print_fault(out, fault),
    }
}
