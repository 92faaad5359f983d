ghost use Rattle.std.specs.Prelude.{◌≡◌};
ghost use Rattle.signer.specs.Log.{identifiers, is_identifier};

use crate::from_one;

// The number under which a statement is signed.
#[derive(Clone, Copy, Debug, PartialEq, Eq, PartialOrd, Ord)]
pub struct Identifier(pub u8);

impl Identifier {
    // The highest identifier; the lowest is 1.
    pub const LAST: u8 = 64;

    // Whether this is an identifier at all: 1 to the highest.
    pub fn in_range(self) -> bool
        ensures { result ≡ is_identifier identifiers self.0 }
    {
        from_one::within(self.0, Identifier::LAST)
    }
}
