// Floors by either engine seal to the same bytes, and each reads what the other sealed.
use crate::common::{append_all, empty_tape, has_text, key};
use floor::{Floor, Lay};
use roll::Kind;
use std::process::Abort;
use std::test::Fail;
use tape::Tape;
use tinyjambu::{BitEngine, Engine, Key, WordEngine};

const TEXTS: [&[u8]; 3] = [b"one", b"", b"a third text, of more than 32 bytes in all"];

// Keys of the two floors: of 24 bytes below, of 32 above.
fn keys(rt: &impl Abort) -> Result<(Key, Key), Fail> {
    Ok((key(rt, 1)?, key(rt, 2)?))
}

// The memory of a tape after an append of each text at the top of two floors, and their lifting.
fn sealed_by<E: Engine + Drop, F: Engine + Drop>(
    rt: &(impl Abort + AllocGlobal),
    lower: E,
    upper: F,
) -> Result<Vec<u8>, Fail> {
    let tape = empty_tape(rt.alloc(), 256)?;
    let mut pile = Floor::lay(Floor::lay(tape, lower, Kind::Scene), upper, Kind::Lock);
    append_all(rt, &mut pile, &TEXTS);
    let (below, _) = pile.lift();
    let (tape, _) = below.lift();
    Ok(tape.into_memory())
}

// Checks that each text reads back from a memory at the top of two floors.
fn opens<E: Engine + Drop, F: Engine + Drop>(rt: &impl Abort, memory: Vec<u8>, lower: E, upper: F) {
    let tape = Tape::open(memory);
    let mut pile = Floor::lay(Floor::lay(tape, lower, Kind::Scene), upper, Kind::Lock);
    for (entry, text) in [(0u32, TEXTS[0]), (1, TEXTS[1]), (2, TEXTS[2])] {
        has_text(rt, &mut pile, entry, text);
    }
}

// Checks that every pairing of engines reads a memory.
fn each_pairing_opens(rt: &(impl Abort + AllocGlobal), memory: &[u8]) -> Result<(), Fail> {
    let (lower, upper) = keys(rt)?;
    let heap = rt.alloc();
    let (bits, words) = (BitEngine::new(lower), WordEngine::new(lower));
    opens(rt, memory.to_vec(heap)?, bits, BitEngine::new(upper));
    opens(rt, memory.to_vec(heap)?, bits, WordEngine::new(upper));
    opens(rt, memory.to_vec(heap)?, words, BitEngine::new(upper));
    opens(rt, memory.to_vec(heap)?, words, WordEngine::new(upper));
    Ok(())
}

#[test]
fn every_pairing_of_engines_seals_to_the_same_bytes(rt: HostRuntime) -> Result<(), Fail> {
    let (lower, upper) = keys(&rt)?;
    let (bits, words) = (BitEngine::new(lower), WordEngine::new(lower));
    let memory = sealed_by(&rt, bits, BitEngine::new(upper))?;
    assert!(rt; sealed_by(&rt, bits, WordEngine::new(upper))? == memory);
    assert!(rt; sealed_by(&rt, words, BitEngine::new(upper))? == memory);
    assert!(rt; sealed_by(&rt, words, WordEngine::new(upper))? == memory);
    Ok(())
}

#[test]
fn every_pairing_of_engines_reads_what_another_sealed(rt: HostRuntime) -> Result<(), Fail> {
    let (lower, upper) = keys(&rt)?;
    let memory = sealed_by(&rt, BitEngine::new(lower), WordEngine::new(upper))?;
    each_pairing_opens(&rt, &memory)?;
    let memory = sealed_by(&rt, WordEngine::new(lower), BitEngine::new(upper))?;
    each_pairing_opens(&rt, &memory)?;
    Ok(())
}
