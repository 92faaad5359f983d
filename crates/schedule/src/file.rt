ghost use Rattle.std.specs.Prelude.{ℕ, ◌<◌, ◌≡◌, Err, IfOk, IfErr};
ghost use Rattle.delivery.specs.Limits.{limits};
ghost use Rattle.schedule.specs.Files.{fault_number};
ghost use Rattle.schedule.specs.Readings.{schedule_of};
ghost use Rattle.schedule.specs.Stops.{Answered};
ghost use Rattle.schedule.specs.declared.fault.Fault.{Fault};

use crate::bus::Bus;
use crate::fault::Fault;
use crate::section::Section;
use bench::{Bench, Event};

// A file that was read: its boards with their marks, how many events it has, and where in the file they begin.
#[derive(Clone, Copy, Debug, PartialEq, Eq)]
pub struct Schedule {
    pub bus: Bus,
    pub count: u16,
    pub start: usize,
}

impl Schedule {
    // The bytes of the longest file that is not refused.
    pub const LONGEST: usize = 1
        + Bench::BOARDS as usize
        + Section::COUNT_BYTES
        + Section::MOST_EVENTS as usize * Event::BYTES;

    // Reads a whole file: n and the marks, then the section of events, which has to end with the file.
    #[tactic(auto, using(crate::proofs::FileLaws::file_tests))]
    pub fn read(file: &[u8]) -> Result<Schedule, Fault>
        ensures meaning { result ≡ schedule_of limits file.now }
        ensures taken { IfOk result (λ read. Answered file.now 0) }
        ensures refused { IfErr result (λ fault. Answered file.now (fault_number fault)) }
        ensures numbered { (m : ℕ) → 0 < m → Answered file.now m
            → (fault : Fault) × ((result ≡ Err fault) × (fault_number fault ≡ m)) }
    {
        let bus = Bus::read(file)?;
        let at = 1 + bus.n as usize;
        let Section { count } = Section::read(&file[at..])?;
        let start = at + Section::COUNT_BYTES;
        if file.len() - start > count as usize * Event::BYTES {
            return Err(Fault::LeftOver);
        }
        Ok(Schedule { bus, count, start })
    }
}
