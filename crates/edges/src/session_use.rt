ghost use Rattle.std.specs.Prelude.{◌≡◌, ◌+◌, ◌++◌, length, IfOk, OnOk};
ghost use Rattle.tinyjambu.specs.Answers.{written};
ghost use Rattle.engine.specs.Bytes.{word_bytes};
ghost use Rattle.tinyjambu.specs.Mode.{seal};

use tinyjambu::{Engine, Fault, Refusal, Session};

// Bytes that come in two pieces.
#[derive(Clone, Copy)]
pub(crate) struct Halves<'a> {
    pub first: &'a [u8],
    pub second: &'a [u8],
}

// A session in full: seals the message of which data and text come in two pieces each, writes the sealed form at the start of
// `out`, and answers its length. A refusal may leave what earlier pieces wrote.
pub(crate) fn in_pieces<E: Engine + Drop>(
    engine: E,
    nonce: [u32; 3],
    ad: Halves,
    text: Halves,
    out: &mut [u8],
) -> Result<usize, Fault>
    ensures len { IfOk result (λ n. n ≡ length text.entry.first.now + length text.entry.second.now + 8) }
    ensures out { OnOk result (out.new ≡ written (seal (E.key engine) (word_bytes nonce) (ad.entry.first.now ++ ad.entry.second.now) (text.entry.first.now ++ text.entry.second.now)) out.old) }
{
    let mut session = Session::new(engine, nonce);
    session.absorb(ad.first)?;
    session.absorb(ad.second)?;
    let mut sealing = session.into_text();
    let first = sealing.seal(text.first, out)?;
    let second = sealing.seal(text.second, &mut out[first..])?;
    let (tag, _) = sealing.into_tag();
    let end = first + second;
    if out.len() - end < 8 {
        return Err(Refusal::OutTooShort.into());
    }
    out[end..end + 8].copy_from_slice(&tag);
    Ok(end + 8)
}
