ghost use Rattle.std.specs.Prelude.{◌≡◌, slice_index};
ghost use Rattle.bench.specs.Events.{kind_number, kind_of, uses_other, event_from};

use crate::answer::Refusal;
use std::marker::Model;

// The kinds of events, by their numbers in a schedule.
#[derive(Clone, Copy, Debug, PartialEq, Eq)]
pub enum Kind {
    Propose = 1,
    Turn,
    Deliver,
    Announce,
    Suspect,
    Trust,
    Sign,
}

// An event as it stands in a schedule, whatever its fields hold: its kind; a, the board that the event is for; b, the other
// board; id, an identifier, or the round of an announcement; and a value. Its kind stays a number, since a schedule may hold
// any.
#[derive(Clone, Copy, Debug, PartialEq, Eq)]
pub struct Event {
    pub kind: u8,
    pub a: u8,
    pub b: u8,
    pub id: u8,
    pub value: u16,
}

// An event of a kind that there is. In contracts it is that event. It has the event's fields, since an `Event` in it would
// be taken apart at each row, so no plainer.
#[derive(Drop)]
pub(crate) struct Known {
    pub(crate) kind: Kind,
    pub(crate) a: u8,
    pub(crate) b: u8,
    pub(crate) id: u8,
    pub(crate) value: u16,
}

impl Model for Known {
    ghost use Rattle.bench.specs.Events.{kind_number};
    ghost use Rattle.bench.specs.declared.event.Event.{Event};

    ghost Value = { Event };

    ghost view = { λ e. record { kind = kind_number e.kind; a = e.a; b = e.b; id = e.id; value = e.value } };
}

impl Known {
    // An event, as one of this kind; the number of its own is not read.
    #[inline(always)]
    pub(crate) fn of(kind: Kind, e: Event) -> Known
        ensures { result ≡ record e { kind = kind_number kind } }
    {
        Known {
            kind,
            a: e.a,
            b: e.b,
            id: e.id,
            value: e.value,
        }
    }
}

// By hand, since no derive makes an enum of a number.
impl TryFrom<u8> for Kind {
    type Error = Refusal;

    ghost try_from_gives = { λ number r. r ≡ kind_of number };

    #[inline(always)]
    #[tactic(auto, unfolding(crate::specs::Events::kind_of))]
    fn try_from(number: u8) -> Result<Kind, Refusal> {
        match number {
            1 => Ok(Kind::Propose),
            2 => Ok(Kind::Turn),
            3 => Ok(Kind::Deliver),
            4 => Ok(Kind::Announce),
            5 => Ok(Kind::Suspect),
            6 => Ok(Kind::Trust),
            7 => Ok(Kind::Sign),
            _ => Err(Refusal::NoKind),
        }
    }
}

impl Kind {
    /// Its number, as it stands in an event's first byte: 1 to 7.
    #[tactic(auto, unfolding(crate::specs::Events::kind_number))]
    pub fn number(self) -> u8
        ensures { result ≡ kind_number self }
    {
        self as u8
    }

    // Whether it names a second board.
    #[inline(always)]
    #[tactic(auto, unfolding(crate::specs::Events::kind_number, crate::specs::Events::uses_other))]
    pub(crate) fn uses_other(self) -> bool
        ensures { result ≡ uses_other (kind_number self) }
    {
        matches!(
            self,
            Kind::Deliver | Kind::Announce | Kind::Suspect | Kind::Trust
        )
    }
}

// A byte of a list; 0 past its end.
fn byte(bytes: &[u8], at: usize) -> u8
    ensures { result ≡ slice_index bytes.now at }
{
    bytes.get(at).copied().unwrap_or(0)
}

impl Event {
    // The bytes of an event in a list of them.
    pub const BYTES: usize = 6;

    // The event that the first bytes of a list are; bytes that are not there count as 0.
    #[tactic(auto, unfolding(crate::specs::Events::event_from))]
    pub fn read(bytes: &[u8]) -> Event
        ensures { result ≡ event_from bytes.now }
    {
        Event {
            kind: byte(bytes, 0),
            a: byte(bytes, 1),
            b: byte(bytes, 2),
            id: byte(bytes, 3),
            value: u16::from_be_bytes([byte(bytes, 4), byte(bytes, 5)]),
        }
    }
}
