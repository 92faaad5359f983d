// What a board has heard, what it may believe of it, and which copies are still owed. Nothing here
// knows a board's turns or the bench.
#![tactic(auto)]

mod allowance;
pub mod bus;
mod claims;
mod delivered;
mod owed;
mod poll;
mod round;
mod set;

pub use claims::{every_copy, every_limit, every_store, worked_examples};
pub use delivered::Delivered;
pub use owed::{Copies, Owed};
pub use poll::{Poll, Tally};
pub use round::{Phase, Round};
pub use set::BoardSet;
