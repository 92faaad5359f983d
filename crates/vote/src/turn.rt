ghost use Rattle.std.specs.Prelude.{◌≡◌};
ghost use Rattle.delivery.specs.Limits.{limits};
ghost use Rattle.delivery.specs.Delivered.{heard};
ghost use Rattle.vote.specs.Rule.{rule};
ghost use Rattle.vote.specs.Turns.{turn_number, position_after, status_after, said_in, answer_to, refuse, take, turn};

use crate::board::{Board, Decision, Status};
use crate::numbered::Numbered;
use crate::position::{Position, Stage};
use crate::rule::Move;
use crate::statement::Statement;
use delivery::{Phase, Round};

// Why a turn was not taken, with its number in document 01's table.
#[derive(Clone, Copy, Debug, PartialEq, Eq)]
pub enum Refusal {
    // the board has no proposal
    NotStarted = 15,
    // it is decided or spent
    Ended = 16,
    // it may not vote, or not count, before more is delivered or suspected
    Waiting = 22,
}

// What comes of a turn: the board afterwards, the answer, and what it has to say. The caller has that signed. The struct is
// a rule of the project; a turn that is refused hands its board back too.
#[derive(Clone, Copy)]
pub struct Turn {
    pub board: Board,
    pub answer: Result<(), Refusal>,
    pub signed: Option<Statement>,
}

impl Numbered for Refusal {
    ghost number_in_table = { turn_number };

    #[tactic(auto, unfolding(crate::specs::Turns::turn_number))]
    fn number(self) -> u8 {
        self as u8
    }
}

impl Move {
    // The answer to a turn in which the board does this.
    #[tactic(auto, unfolding(crate::specs::Turns::answer_to))]
    fn answer(self) -> Result<(), Refusal>
        ensures { result ≡ answer_to self }
    {
        match self {
            Move::Waits => Err(Refusal::Waiting),
            _ => Ok(()),
        }
    }

    // What board `me` says that does this in a round.
    #[tactic(auto, unfolding(crate::specs::Turns::said_in))]
    pub fn said(self, me: u8, round: Round) -> Option<Statement>
        ensures { result ≡ said_in limits me round.0 self }
    {
        match self {
            Move::Opens(value) => Some(Statement {
                speaker: me,
                id: round.identifier(Phase::Opening),
                value,
            }),
            Move::Ballots(value) => Some(Statement {
                speaker: me,
                id: round.identifier(Phase::Ballot),
                value,
            }),
            _ => None,
        }
    }

    // How far the board is afterwards.
    #[tactic(auto, unfolding(crate::specs::Turns::status_after))]
    fn status(self, round: Round) -> Status
        ensures { result ≡ status_after round.0 self }
    {
        match self {
            Move::Decides(value) => Status::Decided(Decision { round, value }),
            Move::Expires(_) => Status::Spent,
            _ => Status::Voting,
        }
    }
}

impl Position {
    // Takes it to where the board stands after this.
    #[tactic(auto, unfolding(crate::specs::Turns::position_after, crate::specs::Turns::at_stage))]
    fn go_on(&mut self, step: Move)
        ensures { self.new ≡ position_after limits step self.old }
    {
        match step {
            Move::Waits | Move::Decides(_) => {}
            Move::Passes | Move::Opens(_) => self.stage = Stage::Vote,
            Move::Ballots(_) => self.stage = Stage::Count,
            Move::Advances(estimate) => {
                self.round = self.round.next();
                self.estimate = estimate;
                self.stage = Stage::Open;
            }
            Move::Expires(estimate) => self.estimate = estimate,
        }
    }
}

impl Board {
    // What board `me` of n does in its turn, if it is voting. The two numbers stay apart, here and in `turn`: a pair of them
    // would be made for the call and taken apart at once, so no plainer.
    #[inline(always)]
    pub fn next_move(&self, n: u8, me: u8) -> Move
        ensures { result ≡ rule limits n me self.now.position (heard limits self.now.delivered) }
    {
        self.position.rule(n, me, &self.delivered)
    }

    // Board `me` does this, as one that is voting, whatever its status. What it says it delivers to itself at once.
    #[tactic(auto, unfolding(crate::specs::Turns::hears_own, crate::specs::Boards::deliver_to))]
    pub fn make(&mut self, me: u8, step: Move)
        ensures { self.new ≡ (take limits me self.old step).board }
    {
        let round = self.position.round;
        if let Some(statement) = step.said(me, round) {
            self.deliver(statement);
        }
        self.position.go_on(step);
        self.status = step.status(round);
    }

    // A turn that is not taken, which leaves the board as it was.
    fn refuse(self, refusal: Refusal) -> Turn
        ensures { result ≡ refuse self refusal }
    {
        Turn {
            board: self,
            answer: Err(refusal),
            signed: None,
        }
    }

    // The turn of board `me` of n, which it takes if it is voting.
    #[tactic(auto, unfolding(crate::specs::Turns::turn, crate::specs::Turns::turn_in))]
    pub fn turn(mut self, n: u8, me: u8) -> Turn
        ensures { result ≡ turn limits n me self }
    {
        match self.status {
            Status::Idle => self.refuse(Refusal::NotStarted),
            Status::Voting => {
                let step = self.next_move(n, me);
                let signed = step.said(me, self.position.round);
                self.make(me, step);
                Turn {
                    board: self,
                    answer: step.answer(),
                    signed,
                }
            }
            Status::Spent | Status::Decided(_) => self.refuse(Refusal::Ended),
        }
    }
}
