ghost use Rattle.std.specs.Prelude.{◌≡◌, ◌∷◌, [], IsSome, OnErr};
ghost use Rattle.tinyjambu.specs.Answers.{seal_answer, seal_out, open_refusal, open_answer, open_out};
ghost use Rattle.tinyjambu.specs.Laws.{OpensExactly};
ghost use Rattle.roll.specs.Labels.{nonce_of, data_of};

use crate::kind::Kind;
use crate::nonce::Nonce;
use tinyjambu::{Engine, Fault};

// What an entry is sealed under, besides the key: its nonce, and the kind of its floor, whose byte is the associated data.
#[derive(Clone, Copy)]
pub struct Label {
    pub nonce: Nonce,
    pub kind: Kind,
}

impl Label {
    // The bytes of the nonce, and the associated data.
    fn bytes(self) -> ([u8; 12], [u8; 1])
        ensures nonce { result.0 ≡ nonce_of self }
        ensures data { result.1 ≡ data_of self }
    {
        (self.nonce.into(), [self.kind.into()])
    }

    // Seals a text: writes the sealed form at the start of `out`, and answers its length.
    pub fn seal<E: Engine>(
        self,
        engine: &mut E,
        text: &[u8],
        out: &mut [u8],
    ) -> Result<usize, Fault>
        ensures answer { result ≡ seal_answer (nonce_of self) (data_of self) text.now out.old }
        ensures out { out.new ≡ seal_out (E.key engine.old) (nonce_of self) (data_of self) text.now out.old }
        ensures same { E.key engine.new ≡ E.key engine.old }
        ensures refused { OnErr result (engine.new ≡ engine.old) }
    {
        let (nonce, data) = self.bytes();
        tinyjambu::seal(engine, &nonce, &data, text, out)
    }

    // Opens sealed bytes: writes their text at the start of `out`, and answers its length. A refusal leaves only zeros in `out`.
    pub fn open<E: Engine>(
        self,
        engine: &mut E,
        sealed: &[u8],
        out: &mut [u8],
    ) -> Result<usize, Fault>
        ensures answer { result ≡ open_answer (E.key engine.old) (nonce_of self) (data_of self) sealed.now out.old }
        ensures out { out.new ≡ open_out (E.key engine.old) (nonce_of self) (data_of self) sealed.now out.old }
        ensures exact { OpensExactly (E.key engine.old) (nonce_of self) (data_of self) sealed.now out.old result out.new }
        ensures same { E.key engine.new ≡ E.key engine.old }
        ensures refused { IsSome (open_refusal (nonce_of self) (data_of self) sealed.now out.old) → engine.new ≡ engine.old }
    {
        let (nonce, data) = self.bytes();
        tinyjambu::open(engine, &nonce, &data, sealed, out)
    }
}
