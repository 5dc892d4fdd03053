#![tactic(auto)]

mod agreement;
mod answer;
mod call;
mod giving;
mod handing;
mod kind;
mod label;
mod limits;
mod nonce;
mod roll;
mod theorems;
mod worked;

pub use agreement::agree;
pub use answer::Answer;
pub use call::Call;
pub use giving::give;
pub use handing::hand_in;
pub use kind::Kind;
pub use label::Label;
pub use limits::{FLOOR, LONGEST, MOST};
pub use nonce::Nonce;
pub use roll::Roll;
pub use theorems::{teeth, whole_life};
pub use worked::work;
