ghost use Rattle.std.specs.Prelude.{◌-◌, ◌/◌, ◌≤◌, ◌≡◌, length};
ghost use Rattle.delivery.specs.Limits.{limits};
ghost use Rattle.bench.specs.Events.{event_bytes};
ghost use Rattle.bench.specs.Runs.{events_in, after, answers_to, written, ending_of, events_played, played_of, answers_after};
ghost use Rattle.bench.specs.Claim.{Agreement};
ghost use Rattle.bench.specs.Demands.{played_history};

use crate::answer::SetupFault;
use crate::bench::Bench;
use crate::event::Event;
use vote::number_of;

// Why a list was not played: its bytes are not whole events, or there is no room for its answers.
#[derive(Clone, Copy, Debug, PartialEq, Eq)]
pub enum Unplayed {
    Ragged,
    Short,
}

// What comes of playing a list into a fresh bench: the bench, the answer to the call for the fresh one, and whether the
// list was played. It is no `Result` of a bench, since a refused call and an unplayed list leave one too.
#[derive(Clone, Copy)]
pub struct Played {
    pub bench: Bench,
    pub answer: Result<(), SetupFault>,
    pub ending: Result<(), Unplayed>,
}

// Whether the events of a list can be played, given the room for answers.
#[tactic(auto, unfolding(crate::specs::Runs::ending_of))]
fn ending_of(bytes: usize, room: usize) -> Result<(), Unplayed>
    ensures { result ≡ ending_of bytes room }
{
    if bytes % Event::BYTES != 0 {
        return Err(Unplayed::Ragged);
    }
    if bytes / Event::BYTES > room {
        return Err(Unplayed::Short);
    }
    Ok(())
}

impl Bench {
    // Plays the events of a list, and writes their answers; bytes that are no whole event are not read. It stays by itself, so
    // that the step is compiled into this one loop.
    #[inline(never)]
    #[tactic(auto, using(crate::proofs::RunLaws::run_lengths), unfolding(crate::specs::Runs::after, crate::specs::Runs::answers_to, crate::specs::Runs::steps, crate::specs::Runs::last_of, crate::specs::Runs::events_in))]
    fn run(&mut self, events: &[u8], answers: &mut [u8])
        requires { length events.now / event_bytes ≤ length answers.old }
        ensures bench { self.new ≡ after limits self.old (events_in (length events.now / event_bytes) events.now) }
        ensures answers { answers.new ≡ written (answers_to limits self.old (events_in (length events.now / event_bytes) events.now)) answers.old }
    {
        for (k, bytes) in events.chunks_exact(Event::BYTES).enumerate() {
            let event = Event::read(bytes);
            answers[k] = number_of(self.step(event));
        }
    }

    /// Plays a list of events on this bench, the bytes of each as they stand in a schedule, and writes each answer's number to its
    /// place in `answers`; the rest of `answers` stays. A list that cannot be played leaves the bench and `answers` as they were.
    /// The bench may be any: agreement is promised by `play`, of a fresh one.
    #[inline(always)]
    #[tactic(auto, unfolding(crate::specs::Runs::ending_of, crate::specs::Runs::played_by, crate::specs::Runs::after, crate::specs::Runs::answers_to, crate::specs::Runs::written, crate::specs::Runs::steps, crate::specs::Runs::last_of))]
    pub fn play_on(&mut self, events: &[u8], answers: &mut [u8]) -> Result<(), Unplayed>
        ensures ending { result ≡ ending_of (length events.now) (length answers.old) }
        ensures bench { self.new ≡ after limits self.old (events_played events.now (length answers.old)) }
        ensures answers { answers.new ≡ written (answers_to limits self.old (events_played events.now (length answers.old))) answers.old }
    {
        ending_of(events.len(), answers.len())?;
        self.run(events, answers);
        Ok(())
    }

    /// Makes a fresh bench and plays a list of events into it, the bytes of each as they stand in a schedule. Each
    /// answer's number is written to its place in `answers`, and the rest of `answers` stays. A list that cannot be
    /// played leaves the bench fresh and `answers` as it was.
    #[tactic(auto, unfolding(crate::specs::Runs::played_of, crate::specs::Runs::answers_after, crate::specs::Setups::fresh_of))]
    pub fn play(
        n: u8,
        marks: [u8; Bench::BOARDS as usize],
        events: &[u8],
        answers: &mut [u8],
    ) -> Played
        ensures played { result ≡ played_of limits n marks events.now (length answers.old) }
        ensures answers { answers.new ≡ answers_after limits n marks events.now answers.old }
        ensures agreement { Agreement limits n marks (played_history events.now answers.new) result.bench }
    {
        let mut made = Bench::fresh(n, marks);
        let ending = made.bench.play_on(events, answers);
        Played {
            bench: made.bench,
            answer: made.answer,
            ending,
        }
    }
}
