//! Runs a meter: stops of its power and failures of its device; polls over lines that fail; and clients that are not honest, refused
//! memory, and small heaps. Prints how often an outcome is other than it may be.
#![tactic(auto)]

mod client;
mod hostile;
mod plan;
mod polls;
mod seen;
mod stops;
mod tally;

use anyhow::Result;
use std::process::ExitCode;

fn main(rt: HostRuntime) -> Result<ExitCode> {
    stops::run(&rt)?;
    let is_polled = polls::run(&rt)?;
    let is_sound = hostile::run(&rt)?;
    if is_polled && is_sound {
        Ok(ExitCode::SUCCESS)
    } else {
        Ok(ExitCode::from(1))
    }
}
