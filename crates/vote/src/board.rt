ghost use Rattle.std.specs.Prelude.{◌≡◌};
ghost use Rattle.delivery.specs.Limits.{limits};
ghost use Rattle.delivery.specs.Delivered.{heard};
ghost use Rattle.vote.specs.Ballots.{tally};
ghost use Rattle.vote.specs.Boards.{fresh_board, is_started, is_decided, is_ended, has_decided, with_status, propose, deliver_to, suspect, trust};
ghost use Rattle.vote.specs.declared.board.Status.TheVariants.{Decided};
ghost use Rattle.vote.specs.Announcements.{announce};

use crate::position::Position;
use crate::statement::Statement;
use delivery::{BoardSet, Delivered, Round, bus};
use signer::Log;

// What a board decided, and in which round.
#[derive(Clone, Copy, Debug, PartialEq, Eq)]
pub struct Decision {
    pub round: Round,
    pub value: u16,
}

// How far a board is: not started; voting; spent, document 01's word for one that the last round left undecided; or
// decided.
#[derive(Clone, Copy, Debug, PartialEq, Eq)]
pub enum Status {
    Idle,
    Voting,
    Spent,
    Decided(Decision),
}

// A board, as far as the vote goes.
#[derive(Clone, Copy)]
pub struct Board {
    pub position: Position,
    pub delivered: Delivered,
    pub status: Status,
}

impl Board {
    // A board that has not started, suspects nobody and has delivered nothing.
    #[tactic(auto, unfolding(crate::specs::Boards::fresh_board))]
    pub fn fresh() -> Board
        ensures { result ≡ fresh_board limits }
    {
        Board {
            position: Position::fresh(),
            delivered: Delivered::fresh(),
            status: Status::Idle,
        }
    }

    // Whether it has a proposal, and so takes part in the vote.
    #[tactic(auto, unfolding(crate::specs::Boards::is_started))]
    pub fn is_started(&self) -> bool
        ensures { result ≡ is_started self.now.status }
    {
        !matches!(self.status, Status::Idle)
    }

    // Whether it has decided a value.
    #[tactic(auto, unfolding(crate::specs::Boards::is_decided))]
    pub fn is_decided(&self) -> bool
        ensures { result ≡ is_decided self.now.status }
    {
        matches!(self.status, Status::Decided(_))
    }

    // Whether it takes no more turns: it is decided or spent.
    #[tactic(auto, unfolding(crate::specs::Boards::is_ended))]
    pub fn is_ended(&self) -> bool
        ensures { result ≡ is_ended self.now.status }
    {
        matches!(self.status, Status::Spent | Status::Decided(_))
    }

    // Whether this is what it decided.
    #[tactic(auto, unfolding(crate::specs::Boards::has_decided))]
    pub fn has_decided(&self, decision: Decision) -> bool
        ensures { result ≡ has_decided self.now.status decision.round.0 decision.value }
    {
        self.status == Status::Decided(decision)
    }

    // Starts the vote with this value; nothing changes if it has started, or if the value is the blank.
    #[tactic(auto, unfolding(crate::specs::Boards::propose))]
    pub fn propose(&mut self, value: u16)
        ensures { self.new ≡ propose self.old value }
    {
        if !self.is_started() && value != Log::BLANK {
            self.position.start_with(value);
            self.status = Status::Voting;
        }
    }

    // Delivers a statement to the board, whatever its status. Its parts are handed on, since what is delivered knows no
    // `Statement`: that is a word of this crate, so one argument there would be no plainer.
    #[tactic(auto, unfolding(crate::specs::Boards::hears, crate::specs::Boards::deliver_to))]
    pub fn deliver(&mut self, statement: Statement)
        ensures { self.new ≡ deliver_to limits self.old statement }
    {
        self.delivered
            .deliver(statement.speaker, statement.id, statement.value);
    }

    // The board suspects board k from here on.
    #[tactic(auto, unfolding(crate::specs::Boards::suspect))]
    pub fn suspect(&mut self, k: u8)
        ensures { self.new ≡ suspect self.old k }
    {
        let mut suspected = BoardSet::from(self.position.suspected);
        suspected.insert(k);
        self.position.suspected = suspected.bits();
    }

    // It no longer does.
    #[tactic(auto, unfolding(crate::specs::Boards::trust))]
    pub fn trust(&mut self, k: u8)
        ensures { self.new ≡ trust self.old k }
    {
        let mut suspected = BoardSet::from(self.position.suspected);
        suspected.remove(k);
        self.position.suspected = suspected.bits();
    }

    // How many ballots of a round it accepts that bear a value. The two stay apart: this asks about the round's poll, and
    // a `Decision` is what a board decided.
    #[tactic(auto, using(delivery::proofs::SetLaws::count_set), unfolding(crate::specs::Ballots::tally))]
    pub fn tally(&self, n: u8, round: Round, value: u16) -> u8
        ensures { result ≡ tally limits n (heard limits self.now.delivered) round.0 value }
    {
        self.delivered.poll(n, round).ballots_for(value).count(n)
    }

    // An announcement of another board's decision. The board decides the same if its own ballots bear it out; nothing
    // changes if not, or if it has not started or is decided already.
    #[tactic(auto, unfolding(crate::specs::Announcements::convinced, crate::specs::Announcements::announce, crate::specs::Boards::with_status))]
    pub fn announce(&mut self, n: u8, decision: Decision)
        ensures { self.new ≡ announce limits n self.old decision.round.0 decision.value }
    {
        if self.is_started()
            && !self.is_decided()
            && decision.value != Log::BLANK
            && self.tally(n, decision.round, decision.value) >= bus::quorum(n)
        {
            self.decide(decision);
        }
    }

    /// The board decides this, as one whose ballots bear it out, whatever its status: only the status changes. Whoever has not
    /// counted its ballots asks `announce`.
    #[tactic(auto, unfolding(crate::specs::Boards::with_status))]
    pub fn decide(&mut self, decision: Decision)
        ensures { self.new ≡ with_status self.old (Decided decision) }
    {
        self.status = Status::Decided(decision);
    }
}
