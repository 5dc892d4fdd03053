ghost use Rattle.std.specs.Prelude.{◌≡◌, ◌-◌, drop, replicate, OnErr};
ghost use Rattle.engine.specs.Keys.{size_words, fill_answer, fill_after};

use crate::key_size::KeySize;
use crate::key_words::KeyWords;
use refusal::{Fault, Refusal};
use std::array;

// A key of 16, 24 or 32 bytes. The words past those in use are 0.
#[derive(Clone, Copy)]
pub struct Key {
    words: KeyWords,
    ghost rest: { drop (size_words words.size) words.words ≡ replicate (8 - size_words words.size) 0 },
}

impl Key {
    ghost use Rattle.engine.specs.KeyBytes.{key_bytes};

    // A key of 16 zero bytes.
    pub fn new() -> Key
        ensures { key_bytes result ≡ replicate 16 0 }
    {
        Key {
            words: KeyWords {
                words: [0; 8],
                size: KeySize::Bits128,
            },
        }
    }

    // Makes the key these bytes, or refuses where they are not 16, 24 or 32.
    pub fn fill(&mut self, bytes: &[u8]) -> Result<(), Fault>
        ensures answer { result ≡ fill_answer bytes.now }
        ensures after { key_bytes self.new ≡ fill_after (key_bytes self.old) bytes.now }
        ensures refused { OnErr result (self.new ≡ self.old) }
    {
        *self = Key::try_from(bytes)?;
        Ok(())
    }

    // Its words.
    pub(crate) fn words(&self) -> KeyWords
        ensures { result ≡ self.now.words }
    {
        self.words
    }
}

// The key of these bytes, or refusal 1.
impl TryFrom<&[u8]> for Key {
    ghost use Rattle.engine.specs.KeyBytes.{IsKeyOf};

    type Error = Refusal;

    ghost try_from_gives = { λ bytes result. IsKeyOf bytes.now result };

    fn try_from(bytes: &[u8]) -> Result<Key, Refusal> {
        let size = KeySize::try_from(bytes.len())?;
        let (parts, _) = bytes.as_chunks::<4>();
        let words = array::from_fn(|i| parts.get(i).map_or(0, |part| u32::from_le_bytes(*part)));
        Ok(Key {
            words: KeyWords { words, size },
        })
    }
}
