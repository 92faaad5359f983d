ghost use Rattle.std.specs.Prelude.{ℕ, ◌+◌, ◌-◌, min, ◌≡◌, nat_le};
ghost use Rattle.std.specs.Prelude.{if◌then◌else◌};
ghost use Rattle.delivery.specs.Bus.{quorum, overlap};
ghost use Rattle.delivery.specs.Acceptance.{says};
ghost use Rattle.delivery.specs.Private.{lets};
ghost use Rattle.delivery.specs.declared.allowance.Allowance.TheVariants.{Nothing, Only};

use crate::bus;
use signer::Log;

// What is allowed in a round: no value, every value, or only the value of this entry (a number, as in `Log`). The blank
// never is.
#[derive(Clone, Copy, Debug, PartialEq, Eq)]
pub(crate) enum Allowance {
    Nothing,
    Every,
    Only(u32),
}

impl Allowance {
    // Whether an entry is that of a value that is allowed.
    #[tactic(auto, unfolding(crate::specs::Acceptance::says, crate::specs::Private::lets))]
    pub(crate) fn allows(self, entry: u32) -> bool
        ensures { result ≡ says entry (lets self) }
    {
        // entry 0 says nothing
        if entry <= Log::entry_of(Log::BLANK) {
            return false;
        }
        match self {
            Allowance::Nothing => false,
            Allowance::Every => true,
            Allowance::Only(only) => entry == only,
        }
    }

    // The entry of an opening that bears a value that is allowed; 0, which is none, for any other.
    pub(crate) fn opened(self, opening: u32) -> u32
        ensures { result ≡ (if says opening (lets self) then opening else 0) }
    {
        if self.allows(opening) {
            return opening;
        }
        0
    }

    // What is allowed after a round of n boards with so many blank ballots and so many for the value of the opening that counts.
    pub(crate) fn settled(self, n: u8, opening: u32, blank: u8, backing: u8) -> Allowance
        ensures { result ≡ (if nat_le (quorum n) (blank + min backing (overlap n - 1)) then self else (if nat_le (quorum n) (blank + backing) then Only opening else Nothing)) }
    {
        let q = bus::quorum(n) as u16;
        let e = bus::overlap(n);
        // so many ballots for the opening's value can be among q that are chosen with fewer than e for it
        let spare = backing.min(e.saturating_sub(1));
        if q <= blank as u16 + spare as u16 {
            return self;
        }
        if q > blank as u16 + backing as u16 {
            return Allowance::Nothing;
        }
        // there are q ballots, and among any q of them e or more are for it
        Allowance::Only(opening)
    }
}
