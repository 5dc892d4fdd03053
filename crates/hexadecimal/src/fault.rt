ghost use Rattle.std.specs.Prelude.{◌≡◌};
ghost use Rattle.hexadecimal.specs.declared.fault.HexFault.TheVariants.{NoMemory};

use std::alloc::AllocFailed;

// Why a text is not bytes in hexadecimal.
#[derive(Clone, Copy, PartialEq, Eq, Debug)]
pub enum HexFault {
    OddLength,
    NotADigit,
    NoMemory,
}

// By hand: `thiserror` would derive it, but with no contract, and `decode` promises which fault it gives.
impl<T: Drop> From<AllocFailed<T>> for HexFault {
    ghost from_gives = { λ _ r. r ≡ NoMemory };

    fn from(_error: AllocFailed<T>) -> HexFault {
        HexFault::NoMemory
    }
}
