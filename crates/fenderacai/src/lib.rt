// What other languages call. Each call plays a schedule file: one writes its report, the other the state before the first
// event and after each. A slice is passed as a pointer and a length. Both are C functions here too, under the names that
// `fenderacai_c` exports them by: what a library has of the C interface stays.
#![tactic(auto)]

ghost use Rattle.std.specs.Prelude.{◌≡◌, length};
ghost use Rattle.delivery.specs.Limits.{limits};
ghost use Rattle.schedule.specs.Prints.{printed, buffer_from};
ghost use Rattle.fenderacai.specs.Traces.{traced};

mod claims;
mod row;
mod trace;

pub use claims::every_trace;
use schedule::Report;

// Writes what is printed of a file to the start of a buffer, and returns its length. The rest of the buffer stays; if it
// is too short, all of it does.
#[unsafe(no_mangle)]
#[tactic(auto, using(schedule::proofs::PrintLaws::report_lengths))]
pub extern "C" fn fenderacai_report(file: &[u8], out: &mut [u8]) -> usize
    ensures length { result ≡ length (printed limits file.now) }
    ensures buffer { out.new ≡ buffer_from (printed limits file.now) out.old }
{
    Report::write(file, out).unwrap_or_else(|short| short.needed)
}

// Writes the rows of a file to the start of a buffer, and returns how many words they are. The rest of the buffer stays;
// if it is too short, all of it does.
#[unsafe(no_mangle)]
pub extern "C" fn fenderacai_trace(file: &[u8], out: &mut [u32]) -> usize
    ensures length { result ≡ length (traced limits file.now) }
    ensures buffer { out.new ≡ buffer_from (traced limits file.now) out.old }
{
    trace::write(file, out)
}
