#![tactic(auto)]

ghost use Rattle.std.specs.Prelude.{ℕ, ◌≡◌, ◌≤◌, List, take, length, IfOk, OnOk, IfSome};
ghost use Rattle.std.specs.Io.KnownBytes.{Appends};
ghost use Rattle.delivery.specs.Limits.{limits};
ghost use Rattle.schedule.specs.Prints.{printed};

use schedule::{Report, Schedule};
use std::io::{self, ErrorKind, Read, Write};

// Room for the longest file that is not refused, and one byte more. What follows that byte cannot change the answer.
const ROOM: usize = Schedule::LONGEST + 1;

// Reads until the room is full or the reader ends, and tells how many bytes. Each read is asked for all the room that is left:
// a socket that keeps the borders of messages drops what of one is not asked for, and `io::copy` asks for 8,192 bytes.
fn fill<R: Read>(reader: &mut R, room: &mut [u8]) -> io::Result<usize>
    ensures within { IfOk result (λ n. n ≤ length room.new) }
    ensures read { IfOk result (λ n. IfSome (R.remaining reader.old) (λ file. take n room.new ≡ take (length room.new) file)) }
{
    let mut length = 0;
    // So many times at most, since nothing says that signals ever end.
    for _ in 0..u64::MAX {
        if length == room.len() {
            return Ok(length);
        }
        match reader.read(&mut room[length..]) {
            Ok(0) => return Ok(length),
            Ok(count) => length += count,
            Err(error) => {
                // A signal came before any byte did, so it reads again.
                if error.kind() != ErrorKind::Interrupted {
                    return Err(error);
                }
            }
        }
    }
    Err(ErrorKind::TimedOut.into())
}

/// Reads a schedule file to its end, plays it, and writes its report and nothing else. Of a reader whose bytes are known it is
/// the report of all that the reader had left (`written`); of any other it is still that of some file (`reported`). An error of
/// the reader or the writer is handed back.
fn run<R: Read, W: Write>(reader: &mut R, writer: &mut W) -> io::Result<()>
    ensures written { OnOk result (IfSome (R.remaining reader.old)
        (λ file. Appends (W.contents writer.old) (W.contents writer.new) (printed limits file))) }
    ensures reported { OnOk result ((file : List ℕ)
        × Appends (W.contents writer.old) (W.contents writer.new) (printed limits file)) }
{
    let mut file = [0; ROOM];
    let read = fill(reader, &mut file)?;
    let mut text = [0; Report::LONGEST];
    let length = Report::print(&file[..read], &mut text);
    writer.write_all(&text[..length])
}

// Plays the schedule on standard input, and prints its report.
fn main(rt: HostRuntime) -> io::Result<()> {
    run(&mut rt.stdin(), &mut rt.stdout())
}
