ghost use Rattle.std.specs.Prelude.{◌≡◌, ◌+◌, length, Some, None, IsSome, OnErr, MatchResult};
ghost use Rattle.refusal.specs.declared.refusal.Refusal.TheVariants.{NonceLength, Broken};
ghost use Rattle.tinyjambu.specs.Answers.{seal_answer, seal_out, length_check, tag_answer, open_refusal, open_answer, open_out};
ghost use Rattle.engine.specs.Bytes.{word_bytes};
ghost use Rattle.tinyjambu.specs.Nonce.{nonce_words};
ghost use Rattle.tinyjambu.specs.Mode.{opened, same};
ghost use Rattle.tinyjambu.specs.Laws.{OpensExactly};

use crate::direction::Direction;
use crate::duplex::Duplex;
use crate::limits::{check_limit, check_room};
use crate::pieces::seal_pieces;
use crate::wipe::Wipe;
use engine::Engine;
use refusal::{Fault, Refusal};

// The nonce as three words, or refusal 2 if it has not twelve bytes.
fn nonce_words(nonce: &[u8]) -> Result<[u32; 3], Refusal>
    ensures { MatchResult result (λ words. nonce_words nonce.now ≡ Some words) (λ refusal. (nonce_words nonce.now ≡ None) × (refusal ≡ NonceLength)) }
{
    let ([first, second, third], []) = nonce.as_chunks::<4>() else {
        return Err(Refusal::NonceLength);
    };
    Ok([
        u32::from_le_bytes(*first),
        u32::from_le_bytes(*second),
        u32::from_le_bytes(*third),
    ])
}

// Seals a text with its associated data: writes the sealed form at the start of `out`, and answers its length.
// Nonce, data, text and `out` come one by one, here, in `open` and in `seal_pieces`, as the calls from C give them.
pub fn seal<E: Engine>(
    engine: &mut E,
    nonce: &[u8],
    ad: &[u8],
    text: &[u8],
    out: &mut [u8],
) -> Result<usize, Fault>
    ensures answer { result ≡ seal_answer nonce.now ad.now text.now out.old }
    ensures out { out.new ≡ seal_out (E.key engine.old) nonce.now ad.now text.now out.old }
    ensures same { E.key engine.new ≡ E.key engine.old }
    ensures refused { OnErr result (engine.new ≡ engine.old) }
{
    let words = nonce_words(nonce)?;
    seal_pieces(engine, words, &[ad], &[text], out)
}

// The length of the text of sealed bytes, or what refuses to open them into so much room.
fn text_len(ad: usize, sealed: usize, room: usize) -> Result<usize, Refusal>
    ensures { MatchResult result (λ len. (length_check ad sealed room ≡ None) × (len + 8 ≡ sealed)) (λ refusal. length_check ad sealed room ≡ Some refusal) }
{
    check_limit(0, ad, Refusal::DataTooLong)?;
    let len = sealed.checked_sub(8).ok_or(Refusal::SealedTooShort)?;
    check_limit(0, len, Refusal::TextTooLong)?;
    check_room(room, len)?;
    Ok(len)
}

// Whether two tags are the same. By a rule of the project the time that it takes tells nothing of them, so it goes through all of
// both, where `==` stops at the first byte that differs.
fn same_tag(made: [u8; 8], given: &[u8; 8]) -> bool
    ensures { result ≡ same made given.now }
{
    let differ = made
        .iter()
        .zip(given)
        .fold(0, |differ: u8, (one, other)| differ | (one ^ other));
    differ == 0
}

// Refuses with 13 a tag that is not the one that was made.
fn check_tag(made: [u8; 8], given: &[u8; 8]) -> Result<(), Refusal>
    ensures { result ≡ tag_answer made given.now }
{
    if same_tag(made, given) {
        Ok(())
    } else {
        Err(Refusal::Broken)
    }
}

// Recovers the text of sealed bytes into `out`, which is as long as the text, or refuses it with 13 where the tag is wrong.
fn recover<E: Engine>(
    engine: &mut E,
    nonce: [u32; 3],
    ad: &[u8],
    sealed: &[u8],
    out: &mut [u8],
) -> Result<(), Refusal>
    requires { length out.old + 8 ≡ length sealed.now }
    ensures text { MatchResult result (λ _. opened (E.key engine.old) (word_bytes nonce) ad.now sealed.now ≡ Some out.new) (λ refusal. (opened (E.key engine.old) (word_bytes nonce) ad.now sealed.now ≡ None) × (refusal ≡ Broken)) }
    ensures same { E.key engine.new ≡ E.key engine.old }
{
    let (body, given) = sealed.split_last_chunk::<8>().unwrap();
    let mut duplex = Duplex::begin(engine, nonce);
    duplex.absorb(engine, ad);
    duplex.end_data();
    duplex.crypt(engine, Direction::Opening, body, out);
    check_tag(duplex.tag(engine), given)
}

// Opens sealed bytes: writes the text that seals to them at the start of `out`, and answers its length. A refusal leaves only
// zeros in `out`.
pub fn open<E: Engine>(
    engine: &mut E,
    nonce: &[u8],
    ad: &[u8],
    sealed: &[u8],
    out: &mut [u8],
) -> Result<usize, Fault>
    ensures answer { result ≡ open_answer (E.key engine.old) nonce.now ad.now sealed.now out.old }
    ensures out { out.new ≡ open_out (E.key engine.old) nonce.now ad.now sealed.now out.old }
    ensures exact { OpensExactly (E.key engine.old) nonce.now ad.now sealed.now out.old result out.new }
    ensures refused { IsSome (open_refusal nonce.now ad.now sealed.now out.old) → engine.new ≡ engine.old }
    ensures same { E.key engine.new ≡ E.key engine.old }
{
    let guard = Wipe { out };
    let words = nonce_words(nonce)?;
    let len = text_len(ad.len(), sealed.len(), guard.out.len())?;
    recover(engine, words, ad, sealed, &mut guard.out[0..len])?;
    guard.keep();
    Ok(len)
}
