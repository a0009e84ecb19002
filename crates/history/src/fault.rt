// Why a line of a history has no answer.
ghost use Rattle.std.specs.Prelude.{◌≡◌};
ghost use Rattle.history.specs.Faults.{number};
ghost use Rattle.history.specs.declared.fault.Fault.TheVariants.{Refused};

use answers::Refusal;

// In the order of their numbers.
#[derive(Clone, Copy, Debug, PartialEq, Eq, PartialOrd, Ord)]
pub enum Fault {
    // A call is refused, for what document 01's table says.
    Refused(Refusal),
    // The set doesn't have the operation.
    Unknown,
}

impl From<Refusal> for Fault {
    ghost from_gives = { λ refusal result. result ≡ Refused refusal };

    fn from(refusal: Refusal) -> Self {
        Self::Refused(refusal)
    }
}

// What is printed of it: the table's number, or one that the table doesn't have.
impl From<Fault> for u8 {
    ghost from_gives = { λ fault result. result ≡ number fault };

    #[tactic(auto, unfolding(crate::specs::Faults::number))]
    fn from(fault: Fault) -> u8 {
        match fault {
            Fault::Refused(refusal) => u8::from(refusal),
            Fault::Unknown => 6,
        }
    }
}
