ghost use Rattle.std.specs.Prelude.{◌≡◌};
ghost use Rattle.delivery.specs.Limits.{limits};
ghost use Rattle.delivery.specs.Rounds.{is_round, coordinator, identifier_of, next_round};

use signer::{Identifier, from_one};

// The number of a round of the vote. It is no identifier: `identifier` is the one way from here to there.
#[derive(Clone, Copy, Debug, PartialEq, Eq, PartialOrd, Ord)]
pub struct Round(pub u8);

// The two statements that a round knows (PHASE1 and PHASE2 in the published vote).
#[derive(Clone, Copy, Debug, PartialEq, Eq)]
pub enum Phase {
    Opening,
    Ballot,
}

impl Round {
    // The last round; the first is 1.
    pub const LAST: u8 = 32;

    // Whether this is a round at all: 1 to the last.
    pub fn in_range(self) -> bool
        ensures { result ≡ is_round limits self.0 }
    {
        from_one::within(self.0, Round::LAST)
    }

    // The board that opens this round, of n boards.
    #[tactic(auto, unfolding(crate::specs::Rounds::coordinator))]
    pub fn coordinator(self, n: u8) -> u8
        ensures { result ≡ coordinator n self.0 }
    {
        let r = self.0;
        if r == 0 {
            return 1;
        }
        if n == 0 {
            return r;
        }
        (r - 1) % n + 1
    }

    // The identifier under which this round's opening or ballot is signed; 0, which is none, where
    // the number is no round. No option: a call takes any identifier, and 0 has its answer (a rule of the project).
    #[tactic(auto, using(crate::proofs::RoundLaws::within), unfolding(crate::specs::Rounds::identifier_of, crate::specs::Rounds::phase_of))]
    pub fn identifier(self, phase: Phase) -> Identifier
        ensures { result.0 ≡ identifier_of limits phase self.0 }
    {
        let r = self.0;
        if !self.in_range() {
            return Identifier(0);
        }
        match phase {
            Phase::Opening => Identifier(2 * r - 1),
            Phase::Ballot => Identifier(2 * r),
        }
    }

    // The round after this one; the last has none, and stays.
    #[tactic(auto, unfolding(crate::specs::Rounds::next_round))]
    pub fn next(self) -> Round
        ensures { result.0 ≡ next_round limits self.0 }
    {
        let r = self.0;
        if r < Round::LAST {
            return Round(r + 1);
        }
        Round(r)
    }
}
