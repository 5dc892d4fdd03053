ghost use Rattle.std.specs.Prelude.{◌≡◌, ℕ, ◌+◌, ◌*◌, ◌/◌, ◌%◌, ◌^◌, ◌<◌, List, [], ◌++◌, length, bit_xor};
ghost use Rattle.engine.specs.Bytes.{joined, word_bytes};
ghost use Rattle.tinyjambu.specs.Mode.{stream, data_run, text_run, tag};
ghost use Rattle.tinyjambu.specs.Duplex.{phase_run, entered, sealed_byte, closed, text_of, sealed_of};

use crate::direction::Direction;
use crate::little_endian::{load, store};
use crate::phase::Phase;
use crate::state::{phase_run, put, stream_word};
use engine::{Engine, State};

// The cipher under one nonce: the state, and how many bytes are in the open block. The engine is lent to each step and not held
// here, since sessions have one of their own, and whole calls a lent one. What was taken is no field either, but said of every
// nonce, data and text that it may be (`TookData`, `TookText`): no byte is kept for it.
#[derive(Clone, Copy)]
pub struct Duplex {
    state: State,
    filled: usize,
    ghost few: { filled < 4 },
}

// The run of a phase, and then a word that goes in from s96 upward.
fn word_step<E: Engine>(engine: &mut E, state: State, phase: Phase, word: u32) -> State
    ensures state { joined result ≡ bit_xor (phase_run phase (E.key engine.old) (joined state)) (word * 2 ^ 96) }
    ensures same { E.key engine.new ≡ E.key engine.old }
{
    put(phase_run(engine, state, phase), word, 96)
}

impl Duplex {
    ghost use Rattle.tinyjambu.specs.History.{FedByte, FedBlock, TookData, TookText, sealed_piece, sealed_tag};

    // Takes the key and the nonce.
    pub(crate) fn begin<E: Engine>(engine: &mut E, nonce: [u32; 3]) -> Duplex
        ensures took { TookData (E.key engine.old) (word_bytes nonce) [] result }
        ensures same { E.key engine.new ≡ E.key engine.old }
    {
        let [first, second, third] = nonce;
        let begun = engine.long_run([0; 4]);
        let one = word_step(engine, begun, Phase::Nonce, first);
        let two = word_step(engine, one, Phase::Nonce, second);
        let state = word_step(engine, two, Phase::Nonce, third);
        Duplex { state, filled: 0 }
    }

    // Does the run of a block whose first byte comes now.
    fn enter<E: Engine>(&mut self, engine: &mut E, phase: Phase)
        ensures state { joined self.new.state ≡ entered (phase_run phase (E.key engine.old)) self.old.filled (joined self.old.state) }
        ensures filled { self.new.filled ≡ self.old.filled }
        ensures same { E.key engine.new ≡ E.key engine.old }
    {
        if self.filled == 0 {
            self.state = phase_run(engine, self.state, phase);
        }
    }

    // Puts the next byte of the open block in.
    fn put_byte(&mut self, byte: u8)
        ensures state { joined self.new.state ≡ bit_xor (joined self.old.state) (byte * 2 ^ (96 + 8 * self.old.filled)) }
        ensures filled { self.new.filled ≡ (self.old.filled + 1) % 4 }
    {
        self.state = put(self.state, u32::from(byte), 96 + 8 * self.filled as u32);
        self.filled = (self.filled + 1) % 4;
    }

    // The byte of s64 to s95 that the next byte of the open block is xored with.
    fn stream_byte(&self) -> u8
        ensures { result ≡ joined self.now.state / 2 ^ (64 + 8 * self.now.filled) % 256 }
    {
        ((stream_word(self.state) >> (8 * self.filled)) % 256) as u8
    }

    // Ends a phase: marks the length of a block that is not full.
    fn close(&mut self)
        ensures state { joined self.new.state ≡ closed self.old.filled (joined self.old.state) }
        ensures filled { self.new.filled ≡ 0 }
    {
        if self.filled != 0 {
            self.state = put(self.state, self.filled as u32, 32);
            self.filled = 0;
        }
    }

    // Takes one byte of associated data.
    fn absorb_byte<E: Engine>(&mut self, engine: &mut E, byte: u8)
        ensures fed { FedByte (data_run (E.key engine.old)) self.old byte self.new }
        ensures same { E.key engine.new ≡ E.key engine.old }
    {
        self.enter(engine, Phase::Data);
        self.put_byte(byte);
    }

    // Takes a full block of associated data, where no block is open.
    fn absorb_word<E: Engine>(&mut self, engine: &mut E, word: u32)
        requires { self.old.filled ≡ 0 }
        ensures fed { FedBlock (data_run (E.key engine.old)) self.old word self.new }
        ensures same { E.key engine.new ≡ E.key engine.old }
    {
        self.state = word_step(engine, self.state, Phase::Data, word);
    }

    // Takes a piece of associated data.
    pub(crate) fn absorb<E: Engine>(&mut self, engine: &mut E, piece: &[u8])
        ensures took { (nonce ad : List ℕ) → TookData (E.key engine.old) nonce ad self.old → TookData (E.key engine.old) nonce (ad ++ piece.now) self.new }
        ensures same { E.key engine.new ≡ E.key engine.old }
    {
        let mut left = piece;
        while let Some((byte, bytes)) = left.split_first() {
            left = match left.split_first_chunk::<4>() {
                Some((word, words)) if self.filled == 0 => {
                    self.absorb_word(engine, u32::from_le_bytes(*word));
                    words
                },
                _ => {
                    self.absorb_byte(engine, *byte);
                    bytes
                },
            };
        }
    }

    // Ends the associated data.
    pub(crate) fn end_data(&mut self)
        ensures took { (key nonce ad : List ℕ) → TookData key nonce ad self.old → TookText key nonce ad [] self.new }
    {
        self.close();
    }

    // Takes one byte of the text, or of the sealed text, and gives back the other.
    fn crypt_byte<E: Engine>(&mut self, engine: &mut E, direction: Direction, byte: u8) -> u8
        ensures result { sealed_of direction byte result ≡ sealed_byte (text_run (E.key engine.old)) self.old.filled (joined self.old.state) (text_of direction byte result) }
        ensures fed { FedByte (text_run (E.key engine.old)) self.old (text_of direction byte result) self.new }
        ensures same { E.key engine.new ≡ E.key engine.old }
    {
        self.enter(engine, Phase::Text);
        let other = byte ^ self.stream_byte();
        self.put_byte(direction.text(byte, other));
        other
    }

    // Takes a full block of the text, or of the sealed text, where no block is open, and gives back the other.
    fn crypt_word<E: Engine>(&mut self, engine: &mut E, direction: Direction, word: u32) -> u32
        requires { self.old.filled ≡ 0 }
        ensures result { sealed_of direction word result ≡ bit_xor (text_of direction word result) (stream (text_run (E.key engine.old) (joined self.old.state))) }
        ensures fed { FedBlock (text_run (E.key engine.old)) self.old (text_of direction word result) self.new }
        ensures same { E.key engine.new ≡ E.key engine.old }
    {
        let state = phase_run(engine, self.state, Phase::Text);
        let other = word ^ stream_word(state);
        self.state = put(state, direction.text(word, other), 96);
        other
    }

    // Takes a piece of the text, or of the sealed text, and writes the other.
    pub(crate) fn crypt<E: Engine>(
        &mut self,
        engine: &mut E,
        direction: Direction,
        input: &[u8],
        out: &mut [u8],
    )
        requires { length out.old ≡ length input.now }
        ensures took { (nonce ad t : List ℕ) → TookText (E.key engine.old) nonce ad t self.old → TookText (E.key engine.old) nonce ad (t ++ text_of direction input.now out.new) self.new }
        ensures out { (nonce ad t : List ℕ) → TookText (E.key engine.old) nonce ad t self.old → sealed_of direction input.now out.new ≡ sealed_piece (E.key engine.old) nonce ad t (text_of direction input.now out.new) }
        ensures len { length out.new ≡ length input.now }
        ensures same { E.key engine.new ≡ E.key engine.old }
    {
        // A place that is counted by hand: `split_at_mut` on the rest of `out` was tried, and an adapter of `iter_mut`, and the
        // check then did not know what `out` holds.
        let mut at = 0;
        while at < input.len() {
            if self.filled == 0 && input.len() - at >= 4 {
                let other = self.crypt_word(engine, direction, load(input, at));
                store(out, at, other);
                at += 4;
            } else {
                out[at] = self.crypt_byte(engine, direction, input[at]);
                at += 1;
            }
        }
    }

    // The eight bytes of the tag, once the text is closed.
    fn tag_bytes<E: Engine>(&self, engine: &mut E) -> [u8; 8]
        ensures result { result ≡ tag (E.key engine.old) (joined self.now.state) }
        ensures same { E.key engine.new ≡ E.key engine.old }
    {
        let middle = phase_run(engine, self.state, Phase::FirstTag);
        let end = phase_run(engine, middle, Phase::LastTag);
        let [a, b, c, d] = stream_word(middle).to_le_bytes();
        let [e, f, g, h] = stream_word(end).to_le_bytes();
        [a, b, c, d, e, f, g, h]
    }

    // Ends the text, and gives the tag.
    pub(crate) fn tag<E: Engine>(&mut self, engine: &mut E) -> [u8; 8]
        ensures result { (nonce ad t : List ℕ) → TookText (E.key engine.old) nonce ad t self.old → result ≡ sealed_tag (E.key engine.old) nonce ad t }
        ensures same { E.key engine.new ≡ E.key engine.old }
    {
        self.close();
        self.tag_bytes(engine)
    }
}
