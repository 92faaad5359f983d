ghost use Rattle.vote.specs.Examples.{Examples};
ghost use Rattle.vote.specs.Life.{DecidesByQuorum, DecidesOnce, SignsByStage, SignsRising, EstimateOpened, HoldsValues, EstimateAllowed, UntakenKeeps, StandsInRounds, HearsAlways, KeepsDelivered, SuspectsOnce};
ghost use Rattle.vote.specs.Acts.{SameMove, SameTurn};

/// Claims that a turn is what `Acts`, `Leads` and `Takes` say in words of their own, for every board and all that it can have
/// delivered. It does nothing when it is called.
pub fn every_turn()
    ensures moves { SameMove }
    ensures turns { SameTurn }
{}

/// Claims what holds of a board's whole life, for every list of calls of every kind in any order. It does nothing when it is
/// called.
pub fn every_life()
    ensures backed { DecidesByQuorum }
    ensures once { DecidesOnce }
    ensures signs { SignsByStage }
    ensures rising { SignsRising }
    ensures opened { EstimateOpened }
    ensures values { HoldsValues }
    ensures allowed { EstimateAllowed }
    ensures untaken { UntakenKeeps }
    ensures stands { StandsInRounds }
    ensures hears { HearsAlways }
    ensures keeps { KeepsDelivered }
    ensures repeated { SuspectsOnce }
{}

/// Claims the worked examples of a board's turns, with the numbers that they come to. It does nothing when it is called.
pub fn worked_examples()
    ensures { Examples }
{}
