use floor::{Floor, Lay};
use roll::{Kind, Roll};
use std::alloc::Global;
use tape::{LONGEST_MEMORY, Tape, blank};
use tinyjambu::WordEngine;

// A tape of 65,536 bytes that has so many empty entries, of 4 bytes each.
pub(crate) fn tape_with(heap: Global, entries: u32) -> anyhow::Result<Tape> {
    let mut memory = vec![in heap; 0u8; LONGEST_MEMORY]?;
    blank(&mut memory, 7)?;
    let mut tape = Tape::open(memory);
    for _ in 0..entries {
        tape.append(&[])?;
    }
    Ok(tape)
}

// Lays two floors under one key: the nonce says which floor it is.
pub(crate) fn two<R: Roll + Drop>(
    below: R,
    engine: WordEngine,
) -> Floor<Floor<R, WordEngine>, WordEngine> {
    Floor::lay(Floor::lay(below, engine, Kind::Scene), engine, Kind::Scene)
}
