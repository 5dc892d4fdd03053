ghost use Rattle.hexadecimal.specs.Digits.{Spells};
ghost use Rattle.std.specs.Prelude.{IfOk};
ghost use Rattle.engine.specs.KeyBytes.{key_bytes};

use hexadecimal::{HexFault, decode};
use std::alloc::Global;
use thiserror::Error;
use tinyjambu::Key;

// Why a text is no key of the studio.
#[derive(Debug, Drop, Error)]
pub enum KeyFault {
    #[error("not one line of 32 hexadecimal digits")]
    NotOneLine,
    #[error("a character of the key is no hexadecimal digit")]
    NotDigits,
    #[error("no memory for the key")]
    NoMemory,
}

impl From<HexFault> for KeyFault {
    fn from(fault: HexFault) -> KeyFault {
        match fault {
            HexFault::OddLength | HexFault::NotADigit => KeyFault::NotDigits,
            HexFault::NoMemory => KeyFault::NoMemory,
        }
    }
}

// The key that digits spell, if they are 32 hexadecimal digits.
fn key_of(heap: Global, digits: &[u8]) -> Result<Key, KeyFault>
    ensures { IfOk result (λ key. Spells digits.now (key_bytes key)) }
{
    if digits.len() != 32 {
        return Err(KeyFault::NotOneLine);
    }
    let bytes = decode(heap, digits)?;
    Key::try_from(bytes.as_slice()).map_err(|_| KeyFault::NotOneLine)
}

// The key that the bytes of a key file spell: one line of 32 hexadecimal digits.
pub(crate) fn read_key(heap: Global, file: &[u8]) -> Result<Key, KeyFault> {
    key_of(heap, file.strip_suffix(b"\n").unwrap_or(file))
}
