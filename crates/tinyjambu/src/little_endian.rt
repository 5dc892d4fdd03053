ghost use Rattle.std.specs.Prelude.{◌≡◌, ◌+◌, ◌≤◌, ◌++◌, length, take, drop};
ghost use Rattle.engine.specs.Bytes.{number, bytes};

use byteorder::{ByteOrder, LittleEndian};

// Words as four bytes of a buffer, the least byte first. The tape's `word` and `write_word` do the same as the two functions
// here; one pair for both crates would be public, and no public function asks anything of its caller.

// The word of the four bytes from `at` on.
pub(crate) fn load(source: &[u8], at: usize) -> u32
    requires { at + 4 ≤ length source.now }
    ensures { result ≡ number (take 4 (drop at source.now)) }
{
    LittleEndian::read_u32(&source[at..])
}

// Writes the four bytes of a word from `at` on.
pub(crate) fn store(out: &mut [u8], at: usize, word: u32)
    requires { at + 4 ≤ length out.old }
    ensures { out.new ≡ take at out.old ++ (bytes 4 word ++ drop (at + 4) out.old) }
{
    LittleEndian::write_u32(&mut out[at..at + 4], word);
}
