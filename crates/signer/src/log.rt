ghost use Rattle.std.specs.Prelude.{◌≡◌};
ghost use Rattle.signer.specs.Log.{identifiers, entry_of, value_of, empty_log, entry_at, with_entry};

use crate::from_one;
use crate::identifier::Identifier;

// What one speaker said under each identifier. Entry 0: nothing; entry v + 1: the value v. An entry stays a
// number, not an option of a value: the field is open, and any number in it has its answer (a rule of the project).
#[derive(Clone, Copy, Debug, PartialEq, Eq)]
pub struct Log {
    pub entries: [u32; Identifier::LAST as usize],
}

impl Log {
    // The highest value; the lowest is 1.
    pub const VALUES: u16 = 65535;

    // What is said instead of a value; ⊥ in the published vote.
    pub const BLANK: u16 = 0;

    #[tactic(auto, unfolding(crate::specs::Log::empty_log))]
    pub fn empty() -> Log
        ensures { result ≡ empty_log identifiers }
    {
        Log {
            entries: [0u32; Identifier::LAST as usize],
        }
    }

    // The entry that stands for a value.
    pub fn entry_of(value: u16) -> u32
        ensures { result ≡ entry_of value }
    {
        value as u32 + 1
    }

    // The value that an entry stands for; the blank where it stands for none. No option: the field is open, and any
    // number in it has a value as its answer (a rule of the project).
    #[tactic(auto, unfolding(crate::specs::Log::value_of))]
    pub fn value_of(entry: u32) -> u16
        ensures { result ≡ value_of entry }
    {
        entry
            .checked_sub(1)
            .and_then(|v| u16::try_from(v).ok())
            .unwrap_or(Log::BLANK)
    }

    // The entry under an identifier; nothing stands under a number that is none.
    #[tactic(auto, unfolding(crate::specs::Log::entry_at))]
    pub fn entry(&self, id: Identifier) -> u32
        ensures { result ≡ entry_at self.now id.0 }
    {
        from_one::nth(&self.entries, id.0, 0)
    }

    // Puts this entry under an identifier; a number that is none takes nothing.
    #[tactic(auto, unfolding(crate::specs::Log::with_entry))]
    pub fn set_entry(&mut self, id: Identifier, entry: u32)
        ensures { self.new ≡ with_entry self.old id.0 entry }
    {
        from_one::set_nth(&mut self.entries, id.0, entry);
    }
}
