// What a line of a history asks for. oracle/README.md has the table of operations.
ghost use Rattle.std.specs.Prelude.{◌≡◌};
ghost use Rattle.history.specs.Operations.{operation_of};

// In the order of the table.
#[derive(Clone, Copy, Debug, PartialEq, Eq, PartialOrd, Ord)]
pub enum Operation {
    New,
    Insert,
    Remove,
    Toggle,
    Contains,
    Len,
    Clear,
    Xor,
    IntersectionCount,
    XorIntersection,
    XorSymmetricDifference,
    IsEmpty,
    Eq,
    Dump,
    Push,
    FlipList,
    FlipListShared,
    CountList,
    TakeClearing,
    SetSingle,
}

// A code that the table doesn't have is handed back.
impl TryFrom<usize> for Operation {
    type Error = usize;

    ghost try_from_gives = { λ code result. result ≡ operation_of code };

    #[tactic(auto, unfolding(crate::specs::Operations::operation_of))]
    fn try_from(code: usize) -> Result<Operation, usize> {
        Ok(match code {
            0x00 => Operation::New,
            0x01 => Operation::Insert,
            0x02 => Operation::Remove,
            0x03 => Operation::Toggle,
            0x04 => Operation::Contains,
            0x05 => Operation::Len,
            0x06 => Operation::Clear,
            0x07 => Operation::Xor,
            0x08 => Operation::IntersectionCount,
            0x09 => Operation::XorIntersection,
            0x0a => Operation::XorSymmetricDifference,
            0x0c => Operation::IsEmpty,
            0x0d => Operation::Eq,
            0x0e => Operation::Dump,
            0x10 => Operation::Push,
            0x11 => Operation::FlipList,
            0x12 => Operation::FlipListShared,
            0x13 => Operation::CountList,
            0x14 => Operation::TakeClearing,
            0x15 => Operation::SetSingle,
            _ => return Err(code),
        })
    }
}
