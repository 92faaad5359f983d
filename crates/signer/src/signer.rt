ghost use Rattle.std.specs.Prelude.{◌≡◌};
ghost use Rattle.signer.specs.Log.{identifiers, entry_at};
ghost use Rattle.signer.specs.Signer.{fresh_signer, grants, sign};

use crate::identifier::Identifier;
use crate::log::Log;

// A board's signing chip: the highest identifier signed, and what was signed under each.
#[derive(Clone, Copy, Debug, PartialEq, Eq)]
pub struct Signer {
    pub last: Identifier,
    pub log: Log,
}

impl Signer {
    #[tactic(auto, unfolding(crate::specs::Signer::fresh_signer))]
    pub fn fresh() -> Signer
        ensures { result ≡ fresh_signer identifiers }
    {
        Signer {
            last: Identifier(0),
            log: Log::empty(),
        }
    }

    // Whether a request for this identifier is granted.
    #[tactic(auto, unfolding(crate::specs::Signer::grants))]
    pub fn grants(&self, id: Identifier) -> bool
        ensures { result ≡ grants identifiers self.now id.0 }
    {
        id.in_range() && id > self.last
    }

    // Asks for a signature of this value under this identifier; says whether it signed.
    #[tactic(auto, unfolding(crate::specs::Signer::sign))]
    pub fn sign(&mut self, id: Identifier, value: u16) -> bool
        ensures answer { result ≡ (sign identifiers self.old id.0 value).signed }
        ensures signer { self.new ≡ (sign identifiers self.old id.0 value).signer }
    {
        if !self.grants(id) {
            return false;
        }
        self.last = id;
        self.log.set_entry(id, Log::entry_of(value));
        true
    }

    // What was signed under an identifier, as a log's entry (a number, as there).
    pub fn entry(&self, id: Identifier) -> u32
        ensures { result ≡ entry_at self.now.log id.0 }
    {
        self.log.entry(id)
    }
}
