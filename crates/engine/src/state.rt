ghost use Rattle.std.specs.Prelude.{◌≡◌};
ghost use Rattle.engine.specs.Bytes.{joined, words};

// The 128 bits of the cipher's state, the least word first. A run takes and gives them as `[u32; 4]`, so that the two functions
// below can be no `From`: neither type is this crate's.
pub type State = [u32; 4];

// The state as one number, of which bit j is s_j.
pub fn as_number(parts: State) -> u128
    ensures { result ≡ joined parts }
{
    let [a, b, c, d] = parts;
    u128::from(a) + (u128::from(b) << 32) + (u128::from(c) << 64) + (u128::from(d) << 96)
}

// The state of a number.
pub fn as_words(n: u128) -> State
    ensures { result ≡ words 4 n }
{
    const SIZE: u128 = 1 << 32;
    [
        (n % SIZE) as u32,
        ((n >> 32) % SIZE) as u32,
        ((n >> 64) % SIZE) as u32,
        (n >> 96) as u32,
    ]
}
