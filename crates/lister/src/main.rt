#![tactic(auto)]

use std::io::Read;
use tape::{LONGEST_MEMORY, listing};

// Lists the tape on standard input. It reads one byte more than the longest tape has: a longer input is refused by its length
// all the same.
fn run(rt: &(impl Input + Print + AllocGlobal)) -> anyhow::Result<()> {
    let heap = rt.alloc();
    let mut memory = Vec::new(heap);
    rt.reader()
        .take(LONGEST_MEMORY as u64 + 1)
        .read_to_end(&mut memory)?;
    let lines = listing(heap, memory)?;
    print!(rt; "{lines}")?;
    Ok(())
}

fn main(rt: HostRuntime) -> anyhow::Result<()> {
    run(&rt)
}
