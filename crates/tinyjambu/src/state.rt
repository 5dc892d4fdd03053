ghost use Rattle.std.specs.Prelude.{◌≡◌, ◌*◌, ◌^◌, ◌<◌, bit_xor};
ghost use Rattle.engine.specs.Bytes.{joined};
ghost use Rattle.tinyjambu.specs.Mode.{stream};
ghost use Rattle.tinyjambu.specs.Duplex.{phase_run};

use crate::phase::Phase;
use engine::{Engine, State, as_number, as_words};

// The state with `bits` xored in from bit `from` upward.
pub(crate) fn put(state: State, bits: u32, from: u32) -> State
    requires fits { bits * 2 ^ from < 2 ^ 128 }
    requires within { from < 128 }
    ensures state { joined result ≡ bit_xor (joined state) (bits * 2 ^ from) }
    ensures below { joined result < 2 ^ 128 }
{
    as_words(as_number(state) ^ (u128::from(bits) << from))
}

// The word in s64 to s95.
pub(crate) fn stream_word(state: State) -> u32
    ensures { result ≡ stream (joined state) }
{
    ((as_number(state) >> 64) % (1 << 32)) as u32
}

// The run of a phase, with its frame bits put into s36 to s38.
pub(crate) fn phase_run<E: Engine>(engine: &mut E, state: State, phase: Phase) -> State
    ensures state { joined result ≡ phase_run phase (E.key engine.old) (joined state) }
    ensures same { E.key engine.new ≡ E.key engine.old }
{
    let framed = put(state, phase.frame_bits(), 36);
    // A closure in place of the switch would borrow the engine, and each caller would have to say what it leaves of it.
    match phase {
        Phase::Nonce | Phase::Data | Phase::LastTag => engine.short_run(framed),
        Phase::Text | Phase::FirstTag => engine.long_run(framed),
    }
}
