#![tactic(auto)]

// The calls for a C host, on byte slices. The crate `host_c` exports them for C.
ghost use Rattle.std.specs.Prelude.{◌≡◌, ◌^◌, ◌<◌, IfOk};
ghost use Rattle.host.specs.Host.{signed, host_seal_answer, host_seal_out, host_open_answer, host_open_out};

use tinyjambu::{Fault, Key, Wipe, WordEngine};

// The answer as one number, as C takes it: the length, or the refusal's number negated.
fn as_signed(answer: Result<usize, Fault>) -> i64
    requires { IfOk answer (λ n. n < 2 ^ 63) }
    ensures { result ≡ signed answer }
{
    match answer {
        Ok(len) => len as i64,
        Err(fault) => -i64::from(u8::from(fault.refusal)),
    }
}

// Whole sealing under a key of bytes. This and `open_under` are functions of their own for `?`, so that what they say is said
// again of the number that C gets. Key, nonce, data, text and `out` come one by one, as C gives them.
fn seal_under(
    key: &[u8],
    nonce: &[u8],
    ad: &[u8],
    text: &[u8],
    out: &mut [u8],
) -> Result<usize, Fault>
    ensures answer { result ≡ host_seal_answer key.now nonce.now ad.now text.now out.old }
    ensures out { out.new ≡ host_seal_out key.now nonce.now ad.now text.now out.old }
{
    let mut engine = WordEngine::new(Key::try_from(key)?);
    tinyjambu::seal(&mut engine, nonce, ad, text, out)
}

// Whole opening under a key of bytes.
fn open_under(
    key: &[u8],
    nonce: &[u8],
    ad: &[u8],
    sealed: &[u8],
    out: &mut [u8],
) -> Result<usize, Fault>
    ensures answer { result ≡ host_open_answer key.now nonce.now ad.now sealed.now out.old }
    ensures out { out.new ≡ host_open_out key.now nonce.now ad.now sealed.now out.old }
{
    let guard = Wipe { out };
    let mut engine = WordEngine::new(Key::try_from(key)?);
    let answer = tinyjambu::open(&mut engine, nonce, ad, sealed, guard.out);
    guard.keep();
    answer
}

// Seals a text with its associated data under a key and a nonce.
pub fn vurshade_seal(key: &[u8], nonce: &[u8], ad: &[u8], text: &[u8], out: &mut [u8]) -> i64
    ensures answer { result ≡ signed (host_seal_answer key.now nonce.now ad.now text.now out.old) }
    ensures out { out.new ≡ host_seal_out key.now nonce.now ad.now text.now out.old }
{
    as_signed(seal_under(key, nonce, ad, text, out))
}

// Opens sealed bytes with their associated data under a key and a nonce.
pub fn vurshade_open(key: &[u8], nonce: &[u8], ad: &[u8], sealed: &[u8], out: &mut [u8]) -> i64
    ensures answer { result ≡ signed (host_open_answer key.now nonce.now ad.now sealed.now out.old) }
    ensures out { out.new ≡ host_open_out key.now nonce.now ad.now sealed.now out.old }
{
    as_signed(open_under(key, nonce, ad, sealed, out))
}
