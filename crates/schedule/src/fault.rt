ghost use Rattle.schedule.specs.Files.{fault_number};

use bench::SetupFault;
use vote::Numbered;

// Why a file is refused: it ends where a byte is due, has no number of boards that there can be, has a mark that is none,
// counts too many events, or goes on after the last of them.
#[derive(Clone, Copy, Debug, PartialEq, Eq)]
pub enum Fault {
    EndsEarly = 1,
    NoBus = SetupFault::NoBus as isize,
    NoMark = SetupFault::NoMark as isize,
    TooMany = 4,
    LeftOver = 5,
}

impl Numbered for Fault {
    ghost number_in_table = { fault_number };

    #[tactic(auto, using(crate::proofs::FaultLaws::bench_faults), unfolding(crate::specs::Files::fault_number))]
    fn number(self) -> u8 {
        self as u8
    }
}
