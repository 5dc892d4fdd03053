#![tactic(auto)]

mod blanking;
mod checking;
mod copying;
mod extent;
mod finding;
mod judging;
mod lines;
mod tape;
mod writing;

pub use blanking::blank;
pub use checking::check;
pub use judging::LONGEST_MEMORY;
pub use lines::listing;
pub use tape::Tape;
