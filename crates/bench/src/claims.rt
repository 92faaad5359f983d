ghost use Rattle.std.specs.Prelude.{◌≡◌};
ghost use Rattle.delivery.specs.Limits.{limits};
ghost use Rattle.bench.specs.Events.{event_bytes};
ghost use Rattle.bench.specs.Applies.{Answering};
ghost use Rattle.bench.specs.Demands.{Agreeing};
ghost use Rattle.bench.specs.Making.{Making};
ghost use Rattle.bench.specs.Examples.{Examples};

use crate::bench::Bench;
use crate::event::Event;

/// What is claimed of the call for a fresh bench, for every n and whatever the marks are; and how many boards a bench has at
/// most. It does nothing when it is called, and so do the other three.
#[tactic(auto, using(crate::proofs::MakingLaws::making))]
pub fn every_fresh()
    ensures making { Making }
    ensures boards { Bench.BOARDS ≡ limits.boards }
{}

/// What is claimed of every event on every bench: it is answered with the lowest number that applies, 0 where none does, and
/// where the answer is not 0 the bench is as it was.
#[tactic(auto, using(crate::proofs::AppliesLaws::answering))]
pub fn every_event()
    ensures answers { Answering }
{}

/// What is claimed of every list of events, for every n and whatever the marks are; and how many bytes an event has in a
/// list.
#[tactic(auto, using(crate::proofs::Demands::agreeing))]
pub fn every_list()
    ensures agreement { Agreeing }
    ensures event_bytes { Event.BYTES ≡ event_bytes }
{}

/// The worked examples, which are computed.
#[tactic(auto, using(crate::proofs::ExampleLaws::examples))]
pub fn worked_examples()
    ensures examples { Examples }
{}
