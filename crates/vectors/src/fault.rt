use hexadecimal::HexFault;
use std::alloc::AllocError;
use thiserror::Error;

// Why a case was not found to agree with both engines.
#[derive(Debug, Drop, Error)]
pub enum CaseFault {
    #[error("is malformed")]
    Malformed,
    #[error("does not agree with the bit engine")]
    BitsDiffer,
    #[error("does not agree with the word engine")]
    WordsDiffer,
    #[error(transparent)]
    NoMemory(#[from(alloc)] AllocError),
}

impl From<HexFault> for CaseFault {
    fn from(fault: HexFault) -> CaseFault {
        match fault {
            HexFault::OddLength | HexFault::NotADigit => CaseFault::Malformed,
            HexFault::NoMemory => CaseFault::NoMemory(AllocError),
        }
    }
}
