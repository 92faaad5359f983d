ghost use Rattle.std.specs.Prelude.{◌*◌, ◌≡◌, length, take};
ghost use Rattle.delivery.specs.Limits.{limits};
ghost use Rattle.bench.specs.Events.{event_bytes};
ghost use Rattle.bench.specs.Claim.{Agreement};
ghost use Rattle.bench.specs.Demands.{played_history};
ghost use Rattle.bench.specs.Runs.{ending_of, events_played, after, answers_to, written, played_of, answers_after};

use bench::{Bench, Event, Played, Unplayed};

// The bytes of so many events, at the head of the part of a file that begins with the first of them; all of a part that has
// fewer.
#[tactic(auto, using(std::proofs::lemmas::List::take_min))]
fn events_of(count: u16, events: &[u8]) -> &[u8]
    ensures { result.now ≡ take (event_bytes * count) events.now }
{
    let end = Event::BYTES * count as usize;
    &events[..end.min(events.len())]
}

/// Plays so many events on this bench, where it stands, from the part of a file that begins with the first of them, and writes
/// each answer to its place in `answers`. A part that has fewer is played as `Bench::play_on` plays all its bytes, and one for
/// whose answers there is no room leaves the bench and `answers` as they were.
pub fn play_on(
    bench: &mut Bench,
    count: u16,
    events: &[u8],
    answers: &mut [u8],
) -> Result<(), Unplayed>
    ensures ending { result ≡ ending_of (length (take (event_bytes * count) events.now)) (length answers.old) }
    ensures bench { bench.new
        ≡ after limits bench.old (events_played (take (event_bytes * count) events.now) (length answers.old)) }
    ensures answers { answers.new
        ≡ written (answers_to limits bench.old (events_played (take (event_bytes * count) events.now) (length answers.old))) answers.old }
{
    bench.play_on(events_of(count, events), answers)
}

/// Plays so many events into a fresh bench, from the part of a file that begins with the first of them, and writes each
/// answer to its place in `answers`. A part that has fewer is played as `Bench::play` plays all its bytes. n and the marks stay
/// two arguments, as there (a rule of the project).
pub fn play(
    n: u8,
    marks: [u8; Bench::BOARDS as usize],
    count: u16,
    events: &[u8],
    answers: &mut [u8],
) -> Played
    ensures played { result ≡ played_of limits n marks (take (event_bytes * count) events.now) (length answers.old) }
    ensures answers { answers.new ≡ answers_after limits n marks (take (event_bytes * count) events.now) answers.old }
    ensures agreement { Agreement limits n marks
        (played_history (take (event_bytes * count) events.now) answers.new) result.bench }
{
    Bench::play(n, marks, events_of(count, events), answers)
}
