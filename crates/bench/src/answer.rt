ghost use Rattle.bench.specs.Answers.{setup_number, refusal_number};

use vote::{Numbered, Refusal as TurnRefusal};

// Why the call for a fresh bench is refused, with its number in document 01's table.
#[derive(Clone, Copy, Debug, PartialEq, Eq)]
pub enum SetupFault {
    NoBus = 2,
    NoMark = 3,
}

// Why an event is refused: the first row of the table that applies, by its number. Those that a board gives to its turn have
// the vote's.
#[derive(Clone, Copy, Debug, PartialEq, Eq)]
pub enum Refusal {
    NoKind = 10,
    NoBoard = 11,
    WrongField = 12,
    WrongMark = 13,
    SameBoard = 14,
    WrongStart = TurnRefusal::NotStarted as isize,
    AtEnd = TurnRefusal::Ended as isize,
    NotSigned = 17,
    NotAbove = 18,
    AlreadyDelivered = 19,
    NotDecided = 20,
    FewBallots = 21,
    MustWait = TurnRefusal::Waiting as isize,
}

impl Numbered for SetupFault {
    ghost number_in_table = { setup_number };

    #[tactic(auto, unfolding(crate::specs::Answers::setup_number))]
    fn number(self) -> u8 {
        self as u8
    }
}

impl Numbered for Refusal {
    ghost number_in_table = { refusal_number };

    #[tactic(auto, using(crate::proofs::AnswerLaws::turn_numbers), unfolding(crate::specs::Answers::refusal_number))]
    fn number(self) -> u8 {
        self as u8
    }
}
