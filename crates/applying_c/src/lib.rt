// For measuring alone: a schedule file played by `Bench::apply`, by which a bench goes by value, into a call and out of it.
// A report is played by a step in place, so what the copies cost does not show there.
#![tactic(auto)]

ghost use Rattle.std.specs.Prelude.{◌*◌, ◌≤◌, ◌≡◌, length};
ghost use Rattle.delivery.specs.Limits.{limits};
ghost use Rattle.bench.specs.Events.{event_bytes};
ghost use Rattle.bench.specs.Runs.{events_in, answers_to, written};
ghost use Rattle.schedule.specs.Prints.{buffer_from};
ghost use Rattle.applying_c.specs.Answered.{answered};

use bench::{Bench, Event};
use schedule::Schedule;
use vote::number_of;

// Plays so many events one by one, and writes each answer's number to its place.
fn play(bench: &mut Bench, count: usize, events: &[u8], answers: &mut [u8])
    requires events { event_bytes * count ≤ length events.now }
    requires room { count ≤ length answers.old }
    ensures { answers.new ≡ written (answers_to limits bench.old (events_in count events.now)) answers.old }
{
    for k in 0..count {
        let answer = bench.apply(Event::read(&events[Event::BYTES * k..]));
        answers[k] = number_of(answer);
    }
}

/// Writes the numbers of the answers to a file's events to the start of a buffer, and returns how many they are; a file that
/// is refused has none. The rest of the buffer stays; if it is too short, all of it does.
#[unsafe(no_mangle)]
#[tactic(auto, using(crate::proofs::AnsweredLaws::file_answered))]
pub extern "C" fn fenderacai_apply(file: &[u8], out: &mut [u8]) -> usize
    ensures length { result ≡ length (answered limits file.now) }
    ensures buffer { out.new ≡ buffer_from (answered limits file.now) out.old }
{
    let Ok(Schedule { bus, count, start }) = Schedule::read(file) else {
        return 0;
    };
    let count = count as usize;
    if count <= out.len() {
        let mut bench = Bench::fresh(bus.n, bus.marks).bench;
        play(&mut bench, count, &file[start..], out);
    }
    count
}
