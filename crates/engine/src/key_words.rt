ghost use Rattle.std.specs.Prelude.{◌≡◌, ◌+◌, ◌*◌, length, take};
ghost use Rattle.engine.specs.Keys.{size_words};
ghost use Rattle.engine.specs.Turns.{flipped};

use crate::key_size::KeySize;

// Eight words of 32 bits, of which the first 4, 6 or 8 are in use, by the size of a key. An array with a size beside it: a key is
// copied, which a vector without heap is not.
#[derive(Clone, Copy)]
pub struct KeyWords {
    pub(crate) words: [u32; 8],
    pub(crate) size: KeySize,
    ghost stored: { length words ≡ 8 },
}

impl KeyWords {
    // The words in use.
    pub(crate) fn in_use(&self) -> &[u32]
        ensures { result.now ≡ take (size_words self.now.size) self.now.words }
    {
        &self.words[..self.size.words()]
    }

    // The same with the complement of each word.
    pub(crate) fn complement(self) -> KeyWords
        ensures words { flipped result.words ≡ self.words }
        ensures size { result.size ≡ self.size }
    {
        let KeyWords { words, size } = self;
        KeyWords {
            words: words.map(|word| !word),
            size,
        }
    }

    // The rounds of a long run: 1,024, 1,152 or 1,280.
    pub(crate) fn long_rounds(&self) -> u32
        ensures { result ≡ 768 + 64 * size_words self.now.size }
    {
        768 + 64 * self.size.words() as u32
    }
}
