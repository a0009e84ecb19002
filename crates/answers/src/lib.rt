// What every call answers: what it was asked for, or why it can't be served.
#![tactic(auto)]

ghost use Rattle.std.specs.Prelude.{◌≡◌};
ghost use Rattle.answers.specs.Answers.{number};

pub mod judge;

// The refusals of document 01's table, in the order in which they are checked. Each has the table's number.
#[derive(Clone, Copy, Debug, PartialEq, Eq, PartialOrd, Ord)]
pub enum Refusal {
    // A lent length is outside the stated range.
    Length = 1,
    // A header and its buffers aren't sound.
    Unsound = 2,
    // The index is above 4,294,967,295.
    Index = 3,
    // The state that the rules give is dense with a span above W.
    Span = 4,
    // The state that the rules give has more keys than room.
    Room = 5,
}

impl From<Refusal> for u8 {
    ghost from_gives = { λ refusal result. result ≡ number refusal };

    #[tactic(auto, unfolding(crate::specs::Answers::number))]
    fn from(refusal: Refusal) -> u8 {
        refusal as u8
    }
}
