#![tactic(auto)]

mod agreement;
mod case;
mod fault;
mod judge;
mod tally;

use crate::fault::CaseFault;
use crate::judge::judge_block;
use crate::tally::Tally;
use anyhow::ensure;
use std::fs;
use std::rt::Files;
use tinyjambu::KeySize;

// The file of the cases of a size of keys. (Its name is not made by `format!`: a file is opened without heap.)
fn file(size: KeySize) -> &'static str {
    match size {
        KeySize::Bits128 => "LWC_AEAD_KAT_128_96.txt",
        KeySize::Bits192 => "LWC_AEAD_KAT_192_96.txt",
        KeySize::Bits256 => "LWC_AEAD_KAT_256_96.txt",
    }
}

// Runs the cases of the file of a size of keys, names each that does not agree, and prints how many do.
fn run_file(rt: &(impl Files + Print + AllocGlobal), size: KeySize) -> anyhow::Result<Tally> {
    let text = fs::read_to_string(rt, file(size))?;
    let mut tally = Tally::new();
    for block in text.split("\n\n").filter(|block| !block.trim().is_empty()) {
        let verdict = judge_block(rt.alloc(), size, block);
        tally.add(verdict.is_ok());
        match verdict {
            Ok(()) => {},
            Err(CaseFault::NoMemory(error)) => return Err(error.into()),
            Err(fault) => {
                let count = case::field(block, "Count").unwrap_or("without a number");
                println!(rt; "case {count}: {fault}")?;
            },
        }
    }
    let bits = 8 * size.bytes();
    println!(rt; "TinyJAMBU-{bits}: {tally}")?;
    Ok(tally)
}

// Runs the three files, and fails where a case does not agree.
fn run(rt: &(impl Files + Print + AllocGlobal)) -> anyhow::Result<()> {
    let tallies = [
        run_file(rt, KeySize::Bits128)?,
        run_file(rt, KeySize::Bits192)?,
        run_file(rt, KeySize::Bits256)?,
    ];
    ensure!(
        tallies.iter().all(|tally| tally.all_agree()),
        "some cases do not agree"
    );
    Ok(())
}

fn main(rt: HostRuntime) -> anyhow::Result<()> {
    run(&rt)
}
