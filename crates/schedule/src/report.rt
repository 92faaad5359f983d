ghost use Rattle.std.specs.Prelude.{◌*◌, ◌≤◌, ◌≡◌, length, take, Ok, IfOk};
ghost use Rattle.delivery.specs.Limits.{limits};
ghost use Rattle.schedule.specs.Readings.{schedule_of};
ghost use Rattle.schedule.specs.Prints.{printed, report_from, buffer_from, longest_print};
ghost use Rattle.schedule.specs.Private.{report_lines, report_text, IsWithin, PutAt, Puts};
ghost use Rattle.schedule.specs.Claims.{Reports};

use crate::counter::Counter;
use crate::fault::Fault;
use crate::file::Schedule;
use crate::player;
use crate::section::Section;
use crate::text::Text;
use bench::Bench;

// What a file came to that was read and played: its boards, the answer to each event, and the bench after the last. The
// answers and the bench are lent, since they are large, and stand once. `n` is the file's: that the bench still has it after
// the events follows only from the laws of its whole history.
#[derive(Clone, Copy)]
pub struct Report<'a> {
    n: u8,
    answers: &'a [u8],
    bench: &'a Bench,
}

// There is too little room for a report, and nothing of it is written. It has so many bytes.
#[derive(Clone, Copy, Debug, PartialEq, Eq)]
pub struct TooShort {
    pub needed: usize,
}

impl Report<'_> {
    // The most bytes of an event's line: four digits, a space, three digits, the line end.
    pub(crate) const EVENT_LINE_BYTES: usize = 9;

    // The most bytes of a board's line: a digit, the letter, three digits and five, three spaces, the line end.
    pub(crate) const BOARD_LINE_BYTES: usize = 14;

    // A buffer of so many bytes has room for the report of any file.
    pub const LONGEST: usize = Section::MOST_EVENTS as usize * Report::EVENT_LINE_BYTES
        + Bench::BOARDS as usize * Report::BOARD_LINE_BYTES;

    // The lines of the events, and then those of the boards.
    #[tactic(auto, using(crate::proofs::PrintLaws::line_bounds))]
    fn lines(&self, text: &mut Text)
        requires own { IsWithin limits self.now }
        requires start { text.old.length ≡ 0 }
        ensures within { text.new.length ≤ longest_print limits }
        ensures lines { Puts (report_lines limits self.now.n self.now.answers.now self.now.bench.now) text.old.out 0 text.new.out text.new.length }
    {
        let mut number = Counter::zero();
        for answer in self.answers {
            number.next();
            text.event_line(&number, *answer);
        }
        for k in 1..=self.n {
            text.board_line(k, self.bench.shown(k));
        }
    }

    // What is printed: the lines of a file that was played, or the one line of a file that is refused.
    #[tactic(auto, using(crate::proofs::PrintLaws::line_bounds))]
    fn put(report: &Result<Report, Fault>, out: &mut [u8]) -> usize
        requires { IfOk report.now (IsWithin limits) }
        ensures within { result ≤ longest_print limits }
        ensures text { PutAt (report_text limits report.now) out.old 0 out.new result }
    {
        let mut text = Text { out, length: 0 };
        match report {
            Ok(played) => played.lines(&mut text),
            Err(fault) => text.refused_line(*fault),
        }
        text.length
    }

    // Writes the text to the start of a buffer, if there is room for it. A buffer that has room for any text gets it at once;
    // for a shorter one it is put into an empty one first, which tells its length.
    fn fit(report: &Result<Report, Fault>, out: &mut [u8]) -> Result<usize, TooShort>
        requires { IfOk report.now (IsWithin limits) }
        ensures answer { result ≡ report_from (report_text limits report.now) (length out.old) }
        ensures buffer { out.new ≡ buffer_from (report_text limits report.now) out.old }
        ensures within { length (report_text limits report.now) ≤ longest_print limits }
        ensures fits { IfOk result (λ n. n ≤ length out.new) }
    {
        if out.len() < Report::LONGEST {
            let needed = Report::put(report, &mut []);
            if needed > out.len() {
                return Err(TooShort { needed });
            }
        }
        Ok(Report::put(report, out))
    }

    // Plays a file that was read, and writes its text. The bench and the answers stand here and nowhere else: their memory is
    // fixed, as there is no heap, and a bench is large. The file has the bytes of all its events, so the list is played.
    #[tactic(auto, using(crate::proofs::PlayLaws::file_played))]
    fn play(schedule: Schedule, file: &[u8], out: &mut [u8]) -> Result<usize, TooShort>
        requires { schedule_of limits file.now ≡ Ok schedule }
        ensures answer { result ≡ report_from (printed limits file.now) (length out.old) }
        ensures buffer { out.new ≡ buffer_from (printed limits file.now) out.old }
        ensures within { length (printed limits file.now) ≤ longest_print limits }
        ensures fits { IfOk result (λ n. n ≤ length out.new) }
    {
        let Schedule { bus, count, start } = schedule;
        let mut made = Bench::fresh(bus.n, bus.marks);
        let mut answers = [0; Section::MOST_EVENTS as usize];
        let _ = player::play_on(&mut made.bench, count, &file[start..], &mut answers);
        let report = Report {
            n: bus.n,
            answers: &answers[..count as usize],
            bench: &made.bench,
        };
        Report::fit(&Ok(report), out)
    }

    // Reads a file, plays it, and writes to the start of a buffer what is to be printed of it. The rest of the buffer stays;
    // if it is too short, all of it does. No report is longer than `Report::LONGEST`.
    pub fn write(file: &[u8], out: &mut [u8]) -> Result<usize, TooShort>
        ensures answer { result ≡ report_from (printed limits file.now) (length out.old) }
        ensures buffer { out.new ≡ buffer_from (printed limits file.now) out.old }
        ensures within { length (printed limits file.now) ≤ longest_print limits }
        ensures fits { IfOk result (λ n. n ≤ length out.new) }
        ensures reports { Reports file.now (printed limits file.now) }
    {
        match Schedule::read(file) {
            Ok(schedule) => Report::play(schedule, file, out),
            Err(fault) => Report::fit(&Err(fault), out),
        }
    }

    /// Reads a file, plays it, and writes what is to be printed of it to the start of a buffer that has room for any report, so
    /// there is no error; hands back how many bytes that is. The rest of the buffer stays. `Report::write` is for buffers of other lengths.
    pub fn print(file: &[u8], out: &mut [u8; Report::LONGEST]) -> usize
        ensures length { result ≡ length (printed limits file.now) }
        ensures buffer { out.new ≡ buffer_from (printed limits file.now) out.old }
        ensures fits { result ≤ length out.new }
        ensures text { take result out.new ≡ printed limits file.now }
        ensures reports { Reports file.now (take result out.new) }
    {
        let Ok(length) = Report::write(file, out) else {
            unreachable!();
        };
        length
    }
}
