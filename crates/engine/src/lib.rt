#![tactic(auto)]

mod bit_engine;
mod engine;
mod key;
mod key_size;
mod key_words;
mod state;
mod word_engine;

pub use bit_engine::BitEngine;
pub use engine::Engine;
pub use key::Key;
pub use key_size::KeySize;
pub use state::{State, as_number, as_words};
pub use word_engine::WordEngine;
