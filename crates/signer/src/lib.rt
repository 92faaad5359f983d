// The signers: what each board's signing chip keeps, and when it signs. A signer knows nothing of
// rounds, boards or votes.
#![tactic(auto)]

mod claims;
pub mod from_one;
mod identifier;
mod log;
mod signer;

pub use claims::{every_history, every_limit, worked_examples};
pub use identifier::Identifier;
pub use log::Log;
pub use signer::Signer;
