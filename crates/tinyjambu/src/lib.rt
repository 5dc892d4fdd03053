#![tactic(auto)]

mod direction;
mod duplex;
mod limits;
mod little_endian;
mod phase;
mod pieces;
mod session;
mod state;
mod whole;
mod wipe;

// What a caller needs of `engine` and `refusal` is passed on here.
pub use engine::{BitEngine, Engine, Key, KeySize, WordEngine};
pub use pieces::seal_pieces;
pub use refusal::{Fault, Refusal};
pub use session::{Session, TextSession};
pub use whole::{open, seal};
pub use wipe::Wipe;
