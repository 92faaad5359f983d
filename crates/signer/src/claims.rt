ghost use Rattle.std.specs.Prelude.{◌≡◌};
ghost use Rattle.signer.specs.Log.{values, identifiers};
ghost use Rattle.signer.specs.Claims.{OneValue, Stands, Stays, Highest, Rises, Granted, BlankStands, Unchanged, Skipped};
ghost use Rattle.signer.specs.Examples.{LetterD, KeptD, Ends, Entries};

use crate::identifier::Identifier;
use crate::log::Log;

/// What holds of every list of requests to a fresh signer, with nothing assumed: it signs once under an identifier, keeps what it
/// signed, signs above `last` alone, and forgets what it refused. There is nothing to do: these are claims about the words of
/// the contracts.
pub fn every_history()
    ensures one_value { OneValue }
    ensures stands { Stands }
    ensures stays { Stays }
    ensures highest { Highest }
    ensures rises { Rises }
    ensures granted { Granted }
    ensures blank { BlankStands }
    ensures unchanged { Unchanged }
    ensures skipped { Skipped }
{}

/// The limits in the code are those of the definitions.
pub fn every_limit()
    ensures identifiers { Identifier.LAST ≡ identifiers }
    ensures values { Log.VALUES ≡ values }
    ensures blank { Log.BLANK ≡ 0 }
{}

/// The worked examples, computed: letter d and what the signer then keeps, the lowest and the highest identifier, and entries.
#[tactic(auto, using(crate::proofs::ExampleLaws::examples))]
pub fn worked_examples()
    ensures letter_d { LetterD }
    ensures kept_d { KeptD }
    ensures ends { Ends }
    ensures entries { Entries }
{}
