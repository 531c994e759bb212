//! Makes a device in memory, files of pages and a store over memory fail, stop and run out of memory, and says how often what
//! comes of it is other than the formats and the disk rules say.
#![tactic(auto)]

mod asked;
mod bytes;
mod columns;
mod damages;
mod faulty;
mod files;
mod heaps;
mod memory;
mod migration;
mod numbers;
mod report;
mod rows;
mod scripts;
mod slots;
mod stops;
mod stores;
mod versions;

use anyhow::Result;
use report::Report;
use std::process::ExitCode;

/// Compares the groups of pages.
fn play_pages(report: &mut Report<'_>) -> Result<()> {
    memory::play_calls(report)?;
    memory::play_faults(report)?;
    memory::play_failed_calls(report)?;
    memory::play_picks(report)?;
    heaps::play_writes(report)?;
    files::play_files(report)
}

/// Compares the groups of stores that nothing stops.
fn play_stores(report: &mut Report<'_>) -> Result<()> {
    stores::play_scripts(report)?;
    stores::play_columns(report)?;
    stores::play_versions(report)?;
    rows::play_rows(report)?;
    numbers::play_last(report)
}

/// Compares the groups of stores that are stopped, and of those that fail.
fn play_stops(report: &mut Report<'_>) -> Result<()> {
    stops::play_stops(report)?;
    stops::play_stops_again(report)?;
    slots::play_slots(report)?;
    migration::play_images(report)?;
    heaps::play_recoveries(report)?;
    stores::play_texts(report)
}

/// Compares all groups.
fn run(report: &mut Report<'_>) -> Result<()> {
    play_pages(report)?;
    play_stores(report)?;
    play_stops(report)
}

fn main(rt: HostRuntime) -> Result<ExitCode> {
    let mut report = Report::new(&rt);
    run(&mut report)?;
    if report.is_clean() {
        Ok(ExitCode::SUCCESS)
    } else {
        Ok(ExitCode::from(1))
    }
}
