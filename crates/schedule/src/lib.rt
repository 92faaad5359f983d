// Schedule files: reading one from its bytes, playing it, and the report of what came of it. Every list of bytes is
// taken, and is read as what it means or refused with the first fault that is met in it.
#![tactic(auto)]

mod bus;
mod claims;
mod counter;
mod fault;
mod file;
mod player;
mod report;
mod section;
mod text;

pub use bus::Bus;
pub use claims::{every_file, file_sizes, worked_examples};
pub use fault::Fault;
pub use file::Schedule;
pub use player::{play, play_on};
pub use report::{Report, TooShort};
pub use section::Section;
