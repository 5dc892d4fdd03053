use crate::rounds::{Times, time_round};
use std::io;
use std::time::Clock;
use tape::LONGEST_MEMORY;

// How many times a tape is filled and read.
const ROUNDS: u32 = 1000;

// The less of each two.
fn less(left: [u128; 3], right: [u128; 3]) -> [u128; 3] {
    let [first, middle, last] = left;
    let [one, two, three] = right;
    [first.min(one), middle.min(two), last.min(three)]
}

// The least time of each thousand in any of the rounds: what else the machine does can only add to a time.
fn least_times(rt: &(impl Clock + AllocGlobal)) -> anyhow::Result<Times> {
    let memory = vec![in rt.alloc(); 0u8; LONGEST_MEMORY]?;
    let (mut memory, mut least) = time_round(rt, memory)?;
    for _ in 1..ROUNDS {
        let (same, times) = time_round(rt, memory)?;
        memory = same;
        least.appends = less(least.appends, times.appends);
        least.reads = less(least.reads, times.reads);
    }
    Ok(least)
}

// Prints what a call costs, of three thousands of calls.
fn print_line(rt: &impl Print, call: &str, nanos: [u128; 3]) -> io::Result<()> {
    print!(rt; "{call}")?;
    for thousand in nanos {
        let whole = thousand / 1000;
        let tenth = thousand / 100 % 10;
        print!(rt; " {whole}.{tenth}")?;
    }
    println!(rt;)
}

// Times the calls of a tape, and prints the nanoseconds of one.
pub(crate) fn report(rt: &(impl Clock + Print + AllocGlobal)) -> anyhow::Result<()> {
    let times = least_times(rt)?;
    println!(rt;
        "nanoseconds a call among the first, the middle and the last thousand entries of 4095"
    )?;
    print_line(rt, "append", times.appends)?;
    print_line(rt, "read  ", times.reads)?;
    Ok(())
}
