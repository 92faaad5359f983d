ghost use Rattle.std.specs.Prelude.{◌≡◌};
ghost use Rattle.delivery.specs.Limits.{limits};
ghost use Rattle.bench.specs.Shows.{letter_byte, plain, standing, shown};

use crate::bench::Bench;
use delivery::Round;
use signer::from_one;
use vote::{Board, Status};

// How a board stands; a number that is no board of the bench is absent.
#[derive(Clone, Copy, Debug, PartialEq, Eq)]
pub enum Letter {
    Faulty = b'F' as isize,
    NotStarted = b'N' as isize,
    Voting = b'W' as isize,
    Spent = b'X' as isize,
    Decided = b'D' as isize,
    Absent = b'-' as isize,
}

// What a bench shows of a board. A report prints all three for every letter, so a round and a value stand beside it always;
// they are 0 where there is none.
#[derive(Clone, Copy, Debug, PartialEq, Eq)]
pub struct Shown {
    pub letter: Letter,
    pub round: Round,
    pub value: u16,
}

impl Letter {
    // The letter, as it is printed: a byte, since reports are written into a buffer of bytes.
    #[tactic(auto, unfolding(crate::specs::Shows::letter_byte))]
    pub fn byte(self) -> u8
        ensures { result ≡ letter_byte self }
    {
        self as u8
    }
}

// Made of a letter, a round and a value; on one line, where the struct's own form takes five.
fn plain(letter: Letter, round: Round, value: u16) -> Shown
    ensures { result ≡ plain letter round.0 value }
{
    Shown {
        letter,
        round,
        value,
    }
}

// How a sound board stands.
#[tactic(auto, unfolding(crate::specs::Shows::standing))]
fn standing(board: &Board) -> Shown
    ensures { result ≡ standing board.now.position board.now.status }
{
    let position = board.position;
    match board.status {
        Status::Idle => plain(Letter::NotStarted, Round(0), 0),
        Status::Voting => plain(Letter::Voting, position.round, position.estimate),
        Status::Spent => plain(Letter::Spent, position.round, position.estimate),
        Status::Decided(d) => plain(Letter::Decided, d.round, d.value),
    }
}

impl Bench {
    // How board k stands: its letter, its round and its value.
    #[tactic(auto, unfolding(crate::specs::Shows::shown))]
    pub fn shown(&self, k: u8) -> Shown
        ensures { result ≡ shown limits self.now k }
    {
        if !from_one::within(k, self.n) {
            return plain(Letter::Absent, Round(0), 0);
        }
        if !self.is_sound(k) {
            return plain(Letter::Faulty, Round(0), 0);
        }
        self.ask(k, |board| standing(board))
    }
}
