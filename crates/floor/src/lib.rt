#![tactic(auto, unfolding(roll::specs::Floor::raised))]

mod floor;
mod lay;

pub use floor::Floor;
pub use lay::Lay;
