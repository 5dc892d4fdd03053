#![tactic(auto)]

// The calls of `host`, exported for C: a crate is a library or a static library, so they stand twice. A slice passes as a pointer
// and a length; include/vurshade.h documents them.
ghost use Rattle.std.specs.Prelude.{◌≡◌};
ghost use Rattle.host.specs.Host.{signed, host_seal_answer, host_seal_out, host_open_answer, host_open_out};

// Seals a text with its associated data under a key and a nonce.
#[unsafe(no_mangle)]
pub extern "C" fn vurshade_seal(
    key: &[u8],
    nonce: &[u8],
    ad: &[u8],
    text: &[u8],
    out: &mut [u8],
) -> i64
    ensures answer { result ≡ signed (host_seal_answer key.now nonce.now ad.now text.now out.old) }
    ensures out { out.new ≡ host_seal_out key.now nonce.now ad.now text.now out.old }
{
    host::vurshade_seal(key, nonce, ad, text, out)
}

// Opens sealed bytes with their associated data under a key and a nonce.
#[unsafe(no_mangle)]
pub extern "C" fn vurshade_open(
    key: &[u8],
    nonce: &[u8],
    ad: &[u8],
    sealed: &[u8],
    out: &mut [u8],
) -> i64
    ensures answer { result ≡ signed (host_open_answer key.now nonce.now ad.now sealed.now out.old) }
    ensures out { out.new ≡ host_open_out key.now nonce.now ad.now sealed.now out.old }
{
    host::vurshade_open(key, nonce, ad, sealed, out)
}
