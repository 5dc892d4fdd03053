ghost use Rattle.std.specs.Prelude.{◌≡◌, ℕ, List};
ghost use Rattle.engine.specs.Permutation.{rounds, short_rounds, long_rounds};
ghost use Rattle.engine.specs.Bytes.{joined, words};
ghost use Rattle.engine.specs.Keys.{HasKeySize};

// A key at work. A run turns a state of four words, the least word first, into the state that its rounds give under the key. An
// engine may change inside, so it is lent by `&mut`, and each function that is lent one says again that the key stays (`same`),
// and where it can be refused, that then nothing changes (`refused`), as a key, a session and a roll say of themselves. A type
// that held the lent engine would be no plainer: what it leaves of the engine would be said in the same places, and a function
// that gave one out could not say what comes back.
pub trait Engine {
    // The bytes of the key, of which there are 16, 24 or 32.
    ghost key: { Self → List ℕ };

    // The length that every key has.
    ghost sized: { (s : Self) → HasKeySize (key s) };

    // The state after 640 rounds. (Two runs, on four words of 32 bits, are what an engine shows by a rule of the project: the
    // boxes of both suppliers have these two.)
    fn short_run(&mut self, state: [u32; 4]) -> [u32; 4]
        ensures result { result ≡ words 4 (rounds (key self.old) short_rounds (joined state)) }
        ensures same { key self.new ≡ key self.old };

    // The state after 1,024, 1,152 or 1,280 rounds, by the size of the key.
    fn long_run(&mut self, state: [u32; 4]) -> [u32; 4]
        ensures result { result ≡ words 4 (rounds (key self.old) (long_rounds (key self.old)) (joined state)) }
        ensures same { key self.new ≡ key self.old };
}
