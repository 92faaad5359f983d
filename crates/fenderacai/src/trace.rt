ghost use Rattle.std.specs.Prelude.{◌+◌, ◌*◌, ◌≤◌, ◌≡◌, length};
ghost use Rattle.delivery.specs.Limits.{limits};
ghost use Rattle.bench.specs.Events.{event_bytes};
ghost use Rattle.bench.specs.Runs.{events_in};
ghost use Rattle.schedule.specs.Prints.{buffer_from};
ghost use Rattle.schedule.specs.Private.{Puts};
ghost use Rattle.fenderacai.specs.Private.{row_size};
ghost use Rattle.fenderacai.specs.Traces.{rows_of, traced};

use crate::row::{self, Words};
use bench::{Bench, Event};
use schedule::Schedule;

impl Words<'_> {
    // Plays so many events, and puts a row for each. They are played as a list of one, by the call that plays a report's, so
    // that whoever compares rows compares the player's own step. By index: `count` says how many are played of a part that
    // may be longer, so its pieces would be no plainer.
    fn rows(&mut self, bench: &mut Bench, count: usize, events: &[u8])
        requires events { event_bytes * count ≤ length events.now }
        requires room { self.old.length + row_size limits * count ≤ length self.old.out.now }
        ensures { Puts (rows_of limits bench.old (events_in count events.now)) self.old.out self.old.length self.new.out self.new.length }
    {
        for k in 0..count {
            let at = Event::BYTES * k;
            let mut answer = [0];
            let _ = bench.play_on(&events[at..at + Event::BYTES], &mut answer);
            self.row(answer[0], bench);
        }
    }
}

// Writes the trace of a file to the start of a buffer, if there is room for it. The answer is a number in any case, since
// that is what the C call hands back (the C interface). The bench stays where it was made, since it is large.
#[tactic(auto, using(crate::proofs::TraceLaws::file_traced))]
pub(crate) fn write(file: &[u8], out: &mut [u32]) -> usize
    ensures length { result ≡ length (traced limits file.now) }
    ensures buffer { out.new ≡ buffer_from (traced limits file.now) out.old }
{
    let Ok(Schedule { bus, count, start }) = Schedule::read(file) else {
        return 0;
    };
    let length = row::WORDS + row::WORDS * count as usize;
    if length > out.len() {
        return length;
    }
    let mut made = Bench::fresh(bus.n, bus.marks);
    let mut words = Words { out, length: 0 };
    words.row(0, &made.bench);
    words.rows(&mut made.bench, count as usize, &file[start..]);
    words.length
}
