ghost use Rattle.std.specs.Prelude.{◌≡◌, ℕ, ◌-◌, ◌^◌, min, List, [], ◌++◌, length, OnErr};
ghost use Rattle.tinyjambu.specs.Answers.{message_answer, message_out};
ghost use Rattle.engine.specs.Bytes.{joined, word_bytes};
ghost use Rattle.tinyjambu.specs.History.{TookData, TookText, sealed_piece};
ghost use Rattle.tinyjambu.specs.Message.{message};

use crate::direction::Direction;
use crate::duplex::Duplex;
use crate::limits::{check_limit, check_room};
use engine::Engine;
use refusal::{Fault, Refusal};

// How many bytes the pieces have together; where no `usize` holds that, the largest one.
fn joined_len(pieces: &[&[u8]]) -> usize
    ensures { result ≡ min (length (message pieces.now)) (2 ^ 64 - 1) }
{
    pieces
        .iter()
        .fold(0, |total: usize, piece| total.saturating_add(piece.len()))
}

// Takes pieces of associated data.
fn absorb_pieces<E: Engine>(duplex: &mut Duplex, engine: &mut E, pieces: &[&[u8]])
    ensures took { (nonce ad : List ℕ) → TookData (E.key engine.old) nonce ad duplex.old → TookData (E.key engine.old) nonce (ad ++ message pieces.now) duplex.new }
    ensures same { E.key engine.new ≡ E.key engine.old }
{
    for piece in pieces {
        duplex.absorb(engine, piece);
    }
}

// Seals pieces of the text, one after another, into `out`, which is as long as they are together.
fn seal_texts<E: Engine>(duplex: &mut Duplex, engine: &mut E, pieces: &[&[u8]], out: &mut [u8])
    requires { length out.old ≡ length (message pieces.now) }
    ensures took { (nonce ad : List ℕ) → TookText (E.key engine.old) nonce ad [] duplex.old → TookText (E.key engine.old) nonce ad (message pieces.now) duplex.new }
    ensures out { (nonce ad : List ℕ) → TookText (E.key engine.old) nonce ad [] duplex.old → out.new ≡ sealed_piece (E.key engine.old) nonce ad [] (message pieces.now) }
    ensures same { E.key engine.new ≡ E.key engine.old }
{
    // A place that is counted by hand: `split_at_mut` on the rest of `out` was tried, and the check then did not know what `out`
    // holds.
    let mut at = 0;
    for piece in pieces {
        let end = at + piece.len();
        duplex.crypt(engine, Direction::Sealing, piece, &mut out[at..end]);
        at = end;
    }
}

// Seals the message of which data and text come in pieces: writes the sealed form of the joined message at the start of `out`,
// and answers its length.
pub fn seal_pieces<E: Engine>(
    engine: &mut E,
    nonce: [u32; 3],
    ad: &[&[u8]],
    text: &[&[u8]],
    out: &mut [u8],
) -> Result<usize, Fault>
    ensures answer { result ≡ message_answer (message ad.now) (message text.now) out.old }
    ensures out { out.new ≡ message_out (E.key engine.old) (word_bytes nonce) (message ad.now) (message text.now) out.old }
    ensures same { E.key engine.new ≡ E.key engine.old }
    ensures refused { OnErr result (engine.new ≡ engine.old) }
{
    let len = joined_len(text);
    check_limit(0, joined_len(ad), Refusal::DataTooLong)?;
    check_limit(0, len, Refusal::TextTooLong)?;
    check_room(out.len(), len + 8)?;
    let mut duplex = Duplex::begin(engine, nonce);
    absorb_pieces(&mut duplex, engine, ad);
    duplex.end_data();
    seal_texts(&mut duplex, engine, text, &mut out[0..len]);
    let tag = duplex.tag(engine);
    out[len..len + 8].copy_from_slice(&tag);
    Ok(len + 8)
}
