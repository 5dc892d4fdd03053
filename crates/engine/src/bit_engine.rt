ghost use Rattle.std.specs.Prelude.{◌≡◌, ◌+◌, ◌*◌, ◌/◌, ◌%◌, ◌^◌};
ghost use Rattle.engine.specs.Permutation.{rounds, taps, bit};
ghost use Rattle.engine.specs.KeyBytes.{key_bytes, key_sized};

use crate::engine::Engine;
use crate::key::Key;
use crate::state::{as_number, as_words};

// An engine that moves the state by one bit at a time.
#[derive(Clone, Copy)]
pub struct BitEngine {
    key: Key,
}

impl BitEngine {
    // The engine of a key.
    pub fn new(key: Key) -> BitEngine
        ensures { result.key ≡ key }
    {
        BitEngine { key }
    }

    // The state after `count` rounds, as a number.
    fn run(&self, state: u128, count: u32) -> u128
        ensures { result ≡ rounds (key_bytes self.now.key) count state }
    {
        let key = self.key.words();
        let words = key.in_use();
        let mut s = state;
        // The number of a round says which word of the key and which bit of it: no place is counted beside it.
        for i in 0..count {
            s = bit_round(s, words[(i / 32) as usize % words.len()] >> (i % 32));
        }
        s
    }
}

// One round, with the lowest bit of `k` as the key's.
fn bit_round(s: u128, k: u32) -> u128
    ensures { result ≡ s / 2 + (taps s + bit k 0) % 2 * 2 ^ 127 }
{
    let back = s ^ (s >> 47) ^ !((s >> 70) & (s >> 85)) ^ (s >> 91) ^ u128::from(k);
    (s >> 1) + (back % 2 << 127)
}

impl Engine for BitEngine {
    ghost key = { λ s. key_bytes s.key };

    ghost sized = { λ s. key_sized s.key };

    fn short_run(&mut self, state: [u32; 4]) -> [u32; 4] {
        as_words(self.run(as_number(state), 640))
    }

    fn long_run(&mut self, state: [u32; 4]) -> [u32; 4] {
        as_words(self.run(as_number(state), self.key.words().long_rounds()))
    }
}
