use crate::piles::tape_with;
use crate::rounds::{CALLS, time_all};
use anyhow::Result;
use std::time::Clock;

// How many rounds each line has, each on a fresh tape.
const ROUNDS: u32 = 100;

// Prints a line: the least times of any round, since what else the machine does can only add to a time.
fn line(rt: &(impl Clock + Print + AllocGlobal), floors: u16, len: u16, before: u32) -> Result<()> {
    let mut least = [u128::MAX; 3];
    for _ in 0..ROUNDS {
        let times = time_all(rt, tape_with(rt.alloc(), before)?, floors, len)?;
        for (one, time) in least.iter_mut().zip(times) {
            *one = time.min(*one);
        }
    }
    let [append, read, sealings] = least.map(|nanos| nanos / u128::from(CALLS));
    println!(rt; "{floors:>6} {len:>5} {before:>6} {append:>7} {read:>7} {sealings:>8}")?;
    Ok(())
}

// Prints the nanoseconds of an append, of a read, and of the sealings alone of an append.
pub(crate) fn report(rt: &(impl Clock + Print + AllocGlobal)) -> Result<()> {
    println!(rt; "floors bytes before  append    read sealings")?;
    for floors in [1, 2, 8] {
        for len in [16, 256, 4032] {
            for before in [0, 4000] {
                line(rt, floors, len, before)?;
            }
        }
    }
    Ok(())
}
