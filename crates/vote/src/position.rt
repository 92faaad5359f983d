ghost use Rattle.std.specs.Prelude.{◌≡◌};
ghost use Rattle.vote.specs.Boards.{fresh_position, starting_with};

use delivery::Round;

// What a board does next in its round; document 01 calls these A, B and C.
#[derive(Clone, Copy, Debug, PartialEq, Eq)]
pub enum Stage {
    Open,
    Vote,
    Count,
}

// Where a board stands in the vote: what its next turn goes by, beside what it has delivered. Whom it suspects is a mask (see
// `BoardSet`).
#[derive(Clone, Copy, Debug, PartialEq, Eq)]
pub struct Position {
    pub round: Round,
    pub estimate: u16,
    pub stage: Stage,
    pub suspected: u16,
}

impl Position {
    // Where a board stands that has not started: in no round, suspecting nobody.
    #[tactic(auto, unfolding(crate::specs::Boards::fresh_position))]
    pub(crate) fn fresh() -> Position
        ensures { result ≡ fresh_position }
    {
        Position {
            round: Round(0),
            estimate: 0,
            stage: Stage::Open,
            suspected: 0,
        }
    }

    // Takes it to the start of round 1 with this estimate; the suspicions stay.
    #[tactic(auto, unfolding(crate::specs::Boards::starting_with))]
    pub(crate) fn start_with(&mut self, estimate: u16)
        ensures { self.new ≡ starting_with self.old estimate }
    {
        self.round = Round(1);
        self.estimate = estimate;
        self.stage = Stage::Open;
    }
}
