// The C library: the calls of crate `fenderacai` under names that a linker finds. Each hands on what it is given, and promises
// what the call there promises. They stand twice, since a crate is a library or a static library, and not both (the C
// interface).
#![tactic(auto)]

ghost use Rattle.std.specs.Prelude.{◌≡◌, length};
ghost use Rattle.delivery.specs.Limits.{limits};
ghost use Rattle.schedule.specs.Prints.{printed, buffer_from};
ghost use Rattle.fenderacai.specs.Traces.{traced};

// Writes what is printed of a file to the start of a buffer, and returns its length. The rest of the buffer stays; if it
// is too short, all of it does.
#[unsafe(no_mangle)]
pub extern "C" fn fenderacai_report(file: &[u8], out: &mut [u8]) -> usize
    ensures length { result ≡ length (printed limits file.now) }
    ensures buffer { out.new ≡ buffer_from (printed limits file.now) out.old }
{
    fenderacai::fenderacai_report(file, out)
}

// Writes the rows of a file to the start of a buffer, and returns how many words they are. The rest of the buffer stays;
// if it is too short, all of it does.
#[unsafe(no_mangle)]
pub extern "C" fn fenderacai_trace(file: &[u8], out: &mut [u32]) -> usize
    ensures length { result ≡ length (traced limits file.now) }
    ensures buffer { out.new ≡ buffer_from (traced limits file.now) out.old }
{
    fenderacai::fenderacai_trace(file, out)
}
