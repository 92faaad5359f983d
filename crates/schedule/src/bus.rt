ghost use Rattle.std.specs.Prelude.{◌≤◌, ◌≡◌};
ghost use Rattle.delivery.specs.Limits.{limits};
ghost use Rattle.schedule.specs.Files.{marks_due};
ghost use Rattle.schedule.specs.Readings.{bus_from, bus_of};

use crate::fault::Fault;
use bench::Bench;
use delivery::Delivered;

// What stands at the front of a file: how many boards there are, and their marks; those after the n-th are 0. All seven marks
// beside n are what the call for a fresh bench takes (a rule of the project), so they are no slice.
#[derive(Clone, Copy, Debug, PartialEq, Eq)]
pub struct Bus {
    pub n: u8,
    pub marks: [u8; Bench::BOARDS as usize],
}

impl Bus {
    // Reads n marks, each as it comes. By index: the first fault that is met is the answer, so a missing mark is told in its
    // turn, and of what an adapter of `iter_mut` has written the check knows nothing.
    #[tactic(auto, using(crate::proofs::SectionLaws::marks_told), unfolding(crate::specs::Readings::bus_from))]
    fn read_marks(n: u8, bytes: &[u8]) -> Result<Bus, Fault>
        requires { n ≤ limits.boards }
        ensures { result ≡ bus_from limits (marks_due n bytes.now) }
    {
        let mut marks = [0u8; Bench::BOARDS as usize];
        for k in 0..n as usize {
            let mark = *bytes.get(k).ok_or(Fault::EndsEarly)?;
            if !Bench::is_mark(mark) {
                return Err(Fault::NoMark);
            }
            marks[k] = mark;
        }
        Ok(Bus { n, marks })
    }

    // Reads n and the marks of the n boards. What follows them is not looked at.
    #[tactic(auto, using(crate::proofs::SectionLaws::bus_tests), unfolding(crate::specs::Readings::bus_from))]
    pub fn read(file: &[u8]) -> Result<Bus, Fault>
        ensures { result ≡ bus_of limits file.now }
    {
        let [n, rest @ ..] = file else {
            return Err(Fault::EndsEarly);
        };
        if !Delivered::is_board(*n) {
            return Err(Fault::NoBus);
        }
        Bus::read_marks(*n, rest)
    }
}
