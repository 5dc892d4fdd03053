use crate::calls::{append_up_to, read_entries};
use anyhow::ensure;
use std::time::{Clock, Instant};
use tape::{Tape, blank};

// The first entries of the thousands that are timed: the first, the middle and the last of 4,095.
const THOUSANDS: [u32; 3] = [0, 1548, 3095];

// How many nanoseconds each of the thousands took, appended and read.
#[derive(Clone, Copy)]
pub struct Times {
    pub appends: [u128; 3],
    pub reads: [u128; 3],
}

// Appends 4,095 entries to an empty tape.
fn time_appends(rt: &impl Clock, tape: &mut Tape) -> anyhow::Result<[u128; 3]> {
    let mut times = [0u128; 3];
    for (first, time) in THOUSANDS.into_iter().zip(times.iter_mut()) {
        append_up_to(tape, first)?;
        let start = Instant::now(rt)?;
        append_up_to(tape, first.saturating_add(1000))?;
        *time = start.elapsed(rt)?.as_nanos();
    }
    Ok(times)
}

// Reads the entries of a tape that has 4,095.
fn time_reads(rt: &impl Clock, tape: &mut Tape) -> anyhow::Result<[u128; 3]> {
    let mut times = [0u128; 3];
    let mut done = 0u32;
    for (first, time) in THOUSANDS.into_iter().zip(times.iter_mut()) {
        read_entries(tape, done..first)?;
        done = first.saturating_add(1000);
        let start = Instant::now(rt)?;
        let sum = read_entries(tape, first..done)?;
        *time = start.elapsed(rt)?.as_nanos();
        ensure!(sum > 0, "the entries are empty");
    }
    Ok(times)
}

// Fills a tape on a memory of 65,536 bytes and reads it, and gives the memory back.
pub(crate) fn time_round(rt: &impl Clock, mut memory: Vec<u8>) -> anyhow::Result<(Vec<u8>, Times)> {
    blank(&mut memory, 1)?;
    let mut tape = Tape::open(memory);
    let appends = time_appends(rt, &mut tape)?;
    let reads = time_reads(rt, &mut tape)?;
    Ok((tape.into_memory(), Times { appends, reads }))
}
