#![tactic(auto)]

mod fault;
mod refusal;

pub use fault::Fault;
pub use refusal::Refusal;
