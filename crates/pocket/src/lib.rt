#![tactic(auto)]

mod pocket;

pub use pocket::Pocket;
