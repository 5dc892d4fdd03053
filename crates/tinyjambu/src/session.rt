ghost use Rattle.std.specs.Prelude.{◌≡◌, ℕ, List, [], ◌++◌, length, OnOk, OnErr};
ghost use Rattle.engine.specs.Bytes.{word_bytes};
ghost use Rattle.tinyjambu.specs.Answers.{data_answer, text_answer, written};
ghost use Rattle.tinyjambu.specs.History.{sealed_piece, sealed_tag};
ghost use Rattle.tinyjambu.specs.Session.{HasData, HasText};

use crate::direction::Direction;
use crate::duplex::Duplex;
use crate::limits::{check_limit, check_room};
use engine::Engine;
use refusal::{Fault, Refusal};

// The sealing of one message under one nonce, while its associated data comes in pieces.
#[derive(Drop)]
pub struct Session<E> {
    engine: E,
    duplex: Duplex,
    taken: usize,
}

// The same, while its text comes in pieces. It is a type of its own, since no call serves both: a parameter for the phase of one
// type would only say what the two names say.
#[derive(Drop)]
pub struct TextSession<E> {
    engine: E,
    duplex: Duplex,
    taken: usize,
}

impl<E: Engine> Session<E> {
    // Begins a session under a nonce, which the key must not have met before.
    pub fn new(engine: E, nonce: [u32; 3]) -> Session<E>
        ensures begun { HasData E.key (word_bytes nonce) [] result }
        ensures same { E.key result.engine ≡ E.key engine }
    {
        let mut engine = engine;
        let duplex = Duplex::begin(&mut engine, nonce);
        Session {
            engine,
            duplex,
            taken: 0,
        }
    }

    // Takes a piece of associated data: what was taken before is extended by it.
    pub fn absorb(&mut self, piece: &[u8]) -> Result<(), Fault>
        ensures answer { result ≡ data_answer self.old.taken (length piece.now) }
        ensures extends { OnOk result ((nonce ad : List ℕ) → HasData E.key nonce ad self.old → HasData E.key nonce (ad ++ piece.now) self.new) }
        ensures same { E.key self.new.engine ≡ E.key self.old.engine }
        ensures refused { OnErr result (self.new ≡ self.old) }
    {
        check_limit(self.taken, piece.len(), Refusal::DataTooLong)?;
        self.duplex.absorb(&mut self.engine, piece);
        self.taken += piece.len();
        Ok(())
    }

    // Ends the associated data, and goes on to the text.
    pub fn into_text(self) -> TextSession<E>
        ensures ended { (nonce ad : List ℕ) → HasData E.key nonce ad self → HasText E.key nonce ad [] result }
        ensures same { result.engine ≡ self.engine }
    {
        let Session {
            engine,
            mut duplex,
            taken: _,
        } = self;
        duplex.end_data();
        let taken = 0;
        TextSession {
            engine,
            duplex,
            taken,
        }
    }
}

impl<E: Engine> TextSession<E> {
    // Takes a piece of the text, and writes its part of the joined text's sealed form at the start of `out`.
    pub fn seal(&mut self, piece: &[u8], out: &mut [u8]) -> Result<usize, Fault>
        ensures answer { result ≡ text_answer self.old.taken (length piece.now) (length out.old) }
        ensures extends { OnOk result ((nonce ad t : List ℕ) → HasText E.key nonce ad t self.old → HasText E.key nonce ad (t ++ piece.now) self.new) }
        ensures out { OnOk result ((nonce ad t : List ℕ) → HasText E.key nonce ad t self.old → out.new ≡ written (sealed_piece (E.key self.old.engine) nonce ad t piece.now) out.old) }
        ensures same { E.key self.new.engine ≡ E.key self.old.engine }
        ensures refused { OnErr result ((self.new ≡ self.old) × (out.new ≡ out.old)) }
    {
        let len = piece.len();
        check_limit(self.taken, len, Refusal::TextTooLong)?;
        check_room(out.len(), len)?;
        let part = &mut out[0..len];
        self.duplex
            .crypt(&mut self.engine, Direction::Sealing, piece, part);
        self.taken += len;
        Ok(len)
    }

    // Ends the text, and gives the tag of the joined data and text, and the engine back.
    pub fn into_tag(self) -> ([u8; 8], E)
        ensures tag { (nonce ad t : List ℕ) → HasText E.key nonce ad t self → result.0 ≡ sealed_tag (E.key self.engine) nonce ad t }
        ensures same { E.key result.1 ≡ E.key self.engine }
    {
        let TextSession {
            mut engine,
            mut duplex,
            taken: _,
        } = self;
        let tag = duplex.tag(&mut engine);
        (tag, engine)
    }
}
