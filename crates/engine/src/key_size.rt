ghost use Rattle.std.specs.Prelude.{◌≡◌};
ghost use Rattle.engine.specs.Keys.{size_bytes, size_words, size_of};

use refusal::Refusal;

// The sizes of a key, by their bits.
#[derive(Clone, Copy, PartialEq, Eq, Debug)]
pub enum KeySize {
    Bits128,
    Bits192,
    Bits256,
}

impl KeySize {
    // The size in bytes: 16, 24 or 32.
    pub fn bytes(self) -> usize
        ensures { result ≡ size_bytes self }
    {
        4 * self.words()
    }

    // The size in words of 32 bits: 4, 6 or 8.
    pub(crate) fn words(self) -> usize
        ensures { result ≡ size_words self }
    {
        match self {
            KeySize::Bits128 => 4,
            KeySize::Bits192 => 6,
            KeySize::Bits256 => 8,
        }
    }
}

// The size of so many bytes, or refusal 1.
impl TryFrom<usize> for KeySize {
    type Error = Refusal;

    ghost try_from_gives = { λ bytes result. result ≡ size_of bytes };

    fn try_from(bytes: usize) -> Result<KeySize, Refusal> {
        match bytes {
            16 => Ok(KeySize::Bits128),
            24 => Ok(KeySize::Bits192),
            32 => Ok(KeySize::Bits256),
            _ => Err(Refusal::KeyLength),
        }
    }
}
