#![tactic(auto)]

mod digits;
mod fault;
mod shown;

pub use digits::decode;
pub use fault::HexFault;
pub use shown::Hex;
