use crate::piles::two;
use anyhow::{Result, ensure};
use floor::{Floor, Lay};
use roll::{Kind, LONGEST, Roll};
use std::time::{Clock, Instant};
use tape::Tape;
use tinyjambu::{Key, WordEngine, seal};

// How many entries are appended and read in a round: so many of the longest have room behind 4,000 empty ones.
pub(crate) const CALLS: u32 = 10;

// What texts are cut from.
const TEXT: [u8; LONGEST] = [0x5a; LONGEST];

// The nanoseconds of ten appends at the top of a roll, and of ten reads of what was appended.
fn time_calls<R: Roll + Drop>(rt: &impl Clock, mut pile: R, text: &[u8]) -> Result<[u128; 2]> {
    let mut out = [0u8; LONGEST];
    let first = pile.count();
    let start = Instant::now(rt)?;
    for _ in 0..CALLS {
        pile.append(text)?;
    }
    let appends = start.elapsed(rt)?.as_nanos();
    let start = Instant::now(rt)?;
    for entry in first..first.saturating_add(CALLS) {
        pile.read(entry, &mut out)?;
    }
    let reads = start.elapsed(rt)?.as_nanos();
    ensure!(out.starts_with(text), "another text was read");
    Ok([appends, reads])
}

// The nanoseconds of the sealings alone of ten appends: each floor seals 8 bytes more than the one above it. A byte of each tag
// is summed, so that no sealing is for nothing.
fn time_sealings(rt: &impl Clock, mut engine: WordEngine, floors: u16, len: u16) -> Result<u128> {
    let mut out = [0u8; LONGEST + 8];
    let mut sum = 0u64;
    let start = Instant::now(rt)?;
    for _ in 0..CALLS {
        for floor in 0..floors {
            let n = (usize::from(len) + 8 * usize::from(floor)).min(LONGEST);
            seal(&mut engine, &[7; 12], &[1], &TEXT[0..n], &mut out)?;
            sum = sum.wrapping_add(u64::from(out[n]));
        }
    }
    let sealings = start.elapsed(rt)?.as_nanos();
    ensure!(sum > 0, "the tags are zeros");
    Ok(sealings)
}

// The nanoseconds of ten appends, of ten reads and of the sealings alone, with so many floors on a tape.
pub(crate) fn time_all(rt: &impl Clock, tape: Tape, floors: u16, len: u16) -> Result<[u128; 3]> {
    let engine = WordEngine::new(Key::try_from(b"a key, 16 bytes.".as_slice())?);
    let text = &TEXT[0..usize::from(len).min(LONGEST)];
    let [appends, reads] = match floors {
        1 => time_calls(rt, Floor::lay(tape, engine, Kind::Scene), text)?,
        2 => time_calls(rt, two(tape, engine), text)?,
        _ => {
            let four = two(two(tape, engine), engine);
            time_calls(rt, two(two(four, engine), engine), text)?
        }
    };
    Ok([appends, reads, time_sealings(rt, engine, floors, len)?])
}
