ghost use Rattle.std.specs.Prelude.{◌≡◌, ◌≤◌};
ghost use Rattle.delivery.specs.Limits.{limits};
ghost use Rattle.delivery.specs.Delivered.{heard};
ghost use Rattle.vote.specs.Rule.{open_move, vote_move, count_move, rule};
ghost use Rattle.vote.specs.Acts.{Acts, OfValues};

use crate::position::{Position, Stage};
use delivery::{BoardSet, Delivered, Round, bus};
use signer::Log;

// What a board does in a turn: it waits; passes, not being coordinator; opens with its estimate; gives a ballot with a
// value; decides a value; goes on with an estimate; or is spent with one.
#[derive(Clone, Copy, Debug, PartialEq, Eq)]
pub enum Move {
    Waits,
    Passes,
    Opens(u16),
    Ballots(u16),
    Decides(u16),
    Advances(u16),
    Expires(u16),
}

impl Position {
    // Stage A.
    #[tactic(auto, unfolding(crate::specs::Rule::open_move))]
    fn open_move(&self, n: u8, me: u8) -> Move
        ensures { result ≡ open_move n me self.now }
    {
        if me == self.round.coordinator(n) {
            return Move::Opens(self.estimate);
        }
        Move::Passes
    }

    // Stage B. The board may vote once the coordinator's opening is there, or the coordinator is suspected: nothing else is
    // looked at before.
    #[tactic(auto, using(crate::proofs::BallotLaws::accepted_value), unfolding(crate::specs::Rule::vote_move, crate::specs::Rule::may_vote))]
    fn vote_move(&self, n: u8, delivered: &Delivered) -> Move
        ensures { result ≡ vote_move limits n self.now (heard limits delivered.now) }
    {
        let poll = delivered.poll(n, self.round);
        let coordinator = self.round.coordinator(n);
        if poll.opening() == 0 && !BoardSet::from(self.suspected).contains(coordinator) {
            return Move::Waits;
        }
        Move::Ballots(Log::value_of(poll.opened()))
    }

    // Stage C. The board may count once a quorum has ballots, and every board without one is suspected. By sets: tried as a
    // chain over the boards, `(1..=n).all(..)`, whose proof did not close. It stays by itself, so that stages A and B make no
    // room for it.
    #[inline(never)]
    #[tactic(auto, using(crate::proofs::RuleLaws::counts), unfolding(crate::specs::Rule::count_move, crate::specs::Rule::onward, crate::specs::Rule::next_estimate))]
    fn count_move(&self, n: u8, delivered: &Delivered) -> Move
        ensures { result ≡ count_move limits n self.now (heard limits delivered.now) }
    {
        let tally = delivered.poll(n, self.round).tally();
        let ballots = tally.ballots();
        let present = ballots.union(BoardSet::from(self.suspected));
        if ballots.count(n) < bus::quorum(n) || present.count(n) != n {
            return Move::Waits;
        }
        let value = Log::value_of(tally.opening);
        // no value but the opening's has ballots, and the blank is no value
        let backing = if value == Log::BLANK {
            0
        } else {
            tally.backing.count(n)
        };
        if backing >= bus::quorum(n).max(1) {
            return Move::Decides(value);
        }
        let mut estimate = self.estimate;
        if backing >= bus::overlap(n).max(1) {
            estimate = value;
        }
        // compared as a number: `Round(Round::LAST)` is no plainer
        if self.round.0 < Round::LAST {
            return Move::Advances(estimate);
        }
        Move::Expires(estimate)
    }

    // What board `me` of n does in its turn. The two numbers stay apart, as in `Board::next_move`.
    #[inline(always)]
    #[tactic(auto, using(crate::proofs::ActLaws::said), unfolding(crate::specs::Rule::rule, crate::specs::Rule::move_at))]
    pub fn rule(&self, n: u8, me: u8, delivered: &Delivered) -> Move
        ensures moved { result ≡ rule limits n me self.now (heard limits delivered.now) }
        ensures said { 1 ≤ n
            → OfValues (heard limits delivered.now)
            → Acts n me self.now (heard limits delivered.now) result }
    {
        match self.stage {
            Stage::Open => self.open_move(n, me),
            Stage::Vote => self.vote_move(n, delivered),
            Stage::Count => self.count_move(n, delivered),
        }
    }
}
