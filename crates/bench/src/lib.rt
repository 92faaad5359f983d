// The bench: the boards of a bus with their signers and the copies that are owed, changed by one event after
// another. Any event may be played on any bench: it is answered 0, or by a row of document 01's table, and then it has
// changed nothing.
#![tactic(auto)]

mod answer;
mod bench;
mod claims;
mod effect;
mod event;
mod fresh;
mod play;
mod show;
mod table;
mod turn;

pub use answer::{Refusal, SetupFault};
pub use bench::Bench;
pub use claims::{every_event, every_fresh, every_list, worked_examples};
pub use effect::Outcome;
pub use event::{Event, Kind};
pub use fresh::Fresh;
pub use play::{Played, Unplayed};
pub use show::{Letter, Shown};
