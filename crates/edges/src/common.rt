use crate::answer::refusal_of;
use tinyjambu::{Engine, Fault, Key, Refusal, WordEngine, open, seal};

// The nonce of every test, as bytes and as words.
pub const NONCE: [u8; 12] = [1, 0, 0, 0, 2, 0, 0, 0, 3, 0, 0, 0];

pub const NONCE_WORDS: [u32; 3] = [1, 2, 3];

// Bytes to take data, text and keys from.
pub const BYTES: [u8; 40] = *b"0123456789abcdefghijklmnopqrstuvwxyz+-*/";

// An engine of the key of zeros.
pub fn zero_engine() -> WordEngine {
    WordEngine::new(Key::new())
}

// What refuses the sealing of a text into `out` under the key of zeros, if something does.
pub fn try_seal(ad: &[u8], text: &[u8], out: &mut [u8]) -> Option<Refusal> {
    refusal_of(seal(&mut zero_engine(), &NONCE, ad, text, out))
}

// What refuses the opening of sealed bytes into `out` under the key of zeros, if something does.
pub fn try_open(ad: &[u8], sealed: &[u8], out: &mut [u8]) -> Option<Refusal> {
    refusal_of(open(&mut zero_engine(), &NONCE, ad, sealed, out))
}

// What an engine seals a text to, and 0 in each byte behind the sealed form. (An array of the length that the caller names: it is
// longer than the sealed form, so that a test sees what sealing leaves behind that.)
pub fn sealed<E: Engine, const N: usize>(
    engine: &mut E,
    ad: &[u8],
    text: &[u8],
) -> Result<[u8; N], Fault> {
    let mut out = [0u8; N];
    seal(engine, &NONCE, ad, text, &mut out)?;
    Ok(out)
}
