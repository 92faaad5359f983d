// A board's vote: how it starts, takes its turns, hears, suspects and decides. It is told how many boards there
// are and which of them it is, and knows nothing of the bench; its statements are signed by whoever calls.
#![tactic(auto)]

mod board;
mod claims;
mod numbered;
mod position;
mod rule;
mod statement;
mod turn;

pub use board::{Board, Decision, Status};
pub use claims::{every_life, every_turn, worked_examples};
pub use numbered::{Numbered, number_of};
pub use position::{Position, Stage};
pub use rule::Move;
pub use statement::Statement;
pub use turn::{Refusal, Turn};
