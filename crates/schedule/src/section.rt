ghost use Rattle.std.specs.Prelude.{◌≡◌};
ghost use Rattle.schedule.specs.Readings.{section_of};

use crate::fault::Fault;
use bench::Event;

// What stands after the marks: how many events there are, in two bytes, and as many events.
#[derive(Clone, Copy, Debug, PartialEq, Eq)]
pub struct Section {
    pub count: u16,
}

impl Section {
    // The bytes of the count; the events begin after them.
    pub const COUNT_BYTES: usize = 2;

    // The most events that a section can have.
    pub const MOST_EVENTS: u16 = 4096;

    // Reads the count, and looks whether its events are there. What follows them is not looked at.
    #[tactic(auto, using(crate::proofs::SectionLaws::section_tests))]
    pub fn read(bytes: &[u8]) -> Result<Section, Fault>
        ensures { result ≡ section_of bytes.now }
    {
        let [high, low, events @ ..] = bytes else {
            return Err(Fault::EndsEarly);
        };
        let count = u16::from_be_bytes([*high, *low]);
        if count > Section::MOST_EVENTS {
            return Err(Fault::TooMany);
        }
        if events.len() < count as usize * Event::BYTES {
            return Err(Fault::EndsEarly);
        }
        Ok(Section { count })
    }
}
