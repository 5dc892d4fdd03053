#![tactic(auto)]

mod piles;
mod report;
mod rounds;

use std::env;

// Times the calls of floors if an argument is `run`, and does nothing otherwise: what it prints is never the same.
fn main(rt: HostRuntime) -> anyhow::Result<()> {
    for argument in env::args(&rt)? {
        if argument.as_str() == "run" {
            report::report(&rt)?;
        }
    }
    Ok(())
}
