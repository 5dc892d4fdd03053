ghost use Rattle.std.specs.Prelude.{◌≡◌, ◌+◌, ◌*◌, ◌/◌, ◌%◌, ◌^◌, ◌<◌, [], ◌∷◌};
ghost use Rattle.engine.specs.Permutation.{rounds};
ghost use Rattle.engine.specs.Bytes.{joined};
ghost use Rattle.engine.specs.KeyBytes.{key_bytes, flipped_key, flipped_key-sized};
ghost use Rattle.engine.specs.Turns.{Brings, flip};

use crate::engine::Engine;
use crate::key::Key;
use crate::key_words::KeyWords;
use crate::state::{as_number, as_words};

// An engine that moves the state by thirty-two bits at a time. It keeps the complement of the key's words, so that the nand of a
// round becomes an and.
#[derive(Clone, Copy)]
pub struct WordEngine {
    complement: KeyWords,
}

impl WordEngine {
    // The engine of a key.
    pub fn new(key: Key) -> WordEngine
        ensures { ⟦<WordEngine as Engine>⟧.key result ≡ key_bytes key }
    {
        WordEngine {
            complement: key.words().complement(),
        }
    }

    // The state after `steps` times 128 rounds, as a number.
    fn run(&self, state: u128, steps: u32) -> u128
        ensures { result ≡ rounds (flipped_key self.now.complement) (128 * steps) state }
    {
        let words = self.complement.in_use();
        let [mut a, mut b, mut c, mut d] = as_words(state);
        // A place that is counted by hand: over `words.iter().cycle()` a run took 1.6 times as long, and so more than plain C's.
        let mut at: usize = 0;
        for n in 0..steps {
            a = mix(a, b, c, d, words[at]);
            at = next(at, words.len());
            b = mix(b, c, d, a, words[at]);
            at = next(at, words.len());
            c = mix(c, d, a, b, words[at]);
            at = next(at, words.len());
            d = mix(d, a, b, c, words[at]);
            at = next(at, words.len());
        }
        as_number([a, b, c, d])
    }
}

// The place after `at`: after the last of `len` comes the first.
fn next(at: usize, len: usize) -> usize
    requires { at < len }
    ensures is { result ≡ (at + 1) % len }
    ensures below { result < len }
{
    if at + 1 < len { at + 1 } else { 0 }
}

// The 32 bits from bit `from` on, of two words of which `lo` comes first.
fn window(lo: u32, hi: u32, from: u32) -> u32
    requires { from < 64 }
    ensures { result ≡ (lo + 2 ^ 32 * hi) / 2 ^ from % 2 ^ 32 }
{
    (((u64::from(lo) + (u64::from(hi) << 32)) >> from) % (1 << 32)) as u32
}

// The word that thirty-two rounds bring in, with the complement `k` of the key's word.
fn mix(a: u32, b: u32, c: u32, d: u32, k: u32) -> u32
    ensures { Brings (joined (a ∷ b ∷ c ∷ d ∷ [])) (flip k) result }
{
    let s47 = window(b, c, 15);
    let s70 = window(c, d, 6);
    let s85 = window(c, d, 21);
    let s91 = window(c, d, 27);
    a ^ s47 ^ k ^ s91 ^ (s70 & s85)
}

impl Engine for WordEngine {
    ghost key = { λ s. flipped_key s.complement };

    ghost sized = { λ s. flipped_key-sized s.complement };

    fn short_run(&mut self, state: [u32; 4]) -> [u32; 4] {
        as_words(self.run(as_number(state), 5))
    }

    fn long_run(&mut self, state: [u32; 4]) -> [u32; 4] {
        as_words(self.run(as_number(state), self.complement.long_rounds() / 128))
    }
}
