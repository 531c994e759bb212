//! A meter that gets bytes no honest client sends, whose growths and those of a head end are refused in turn, and that runs on one heap
//! of a fixed size.

mod arenas;
mod garbled;
mod growths;
mod life;
mod mended;
mod polls;
mod recoveries;
mod stretch;
mod talks;
mod whole;

use crate::hostile::arenas::refused_in_arenas;
use crate::hostile::garbled::{beginnings, changes};
use crate::hostile::growths::{
    ALL_ROWS, Asked, COLUMNS, LIST, ONE_ROW, REGISTER, ROWS, SET_TEXT, TEXT, UNKNOWN,
    refused_in_turn,
};
use crate::hostile::mended::mended_changes;
use crate::hostile::polls::{files, polls};
use crate::hostile::recoveries::{devices, recoveries};
use crate::hostile::talks::{MANAGEMENT, PUBLIC, Step};
use crate::hostile::whole::{suffices, suffices_with_pages};
use crate::tally::report;
use anyhow::Result;

/// The heaps on which the whole meter is run: without its pages, and with them.
const HEAP: usize = 131_072;

const HEAP_WITH_PAGES: usize = 229_376;

/// Sends these in place of each frame of a session.
fn run_talk<R: Print + AllocGlobal>(rt: &R, who: &str, talk: &[Step]) -> Result<u32> {
    let alloc = rt.alloc();
    let noted = "hold a frame";
    println!(rt; "{who}:")?;
    let begun = report(rt, "beginnings of frames", noted, beginnings(alloc, talk)?)?;
    let changed = report(rt, "one byte changed", noted, changes(alloc, talk)?)?;
    let mended = report(
        rt,
        "and the checks made anew",
        noted,
        mended_changes(alloc, talk)?,
    )?;
    Ok(begun.saturating_add(changed).saturating_add(mended))
}

/// A request of a meter on heaps that have ever more left.
fn run_request<R: Print + AllocGlobal>(rt: &R, what: &str, asked: &Asked) -> Result<u32> {
    let tally = refused_in_turn(rt.alloc(), asked)?;
    Ok(report(rt, what, "refused", tally)?)
}

/// Each growth of a meter's requests.
fn run_requests<R: Print + AllocGlobal>(rt: &R) -> Result<u32> {
    let mut differ = 0u32;
    for (what, asked) in [
        ("a register", &REGISTER),
        ("the object list", &LIST),
        ("the columns", &COLUMNS),
        ("the longest text", &TEXT),
        ("all of 960 rows", &ALL_ROWS),
        ("one of 960 rows", &ONE_ROW),
        ("SET of a text", &SET_TEXT),
        ("an unknown object", &UNKNOWN),
    ] {
        differ = differ.saturating_add(run_request(rt, what, asked)?);
    }
    Ok(differ)
}

/// The same in arenas that take nothing back.
fn run_arenas<R: Print + AllocGlobal>(rt: &R) -> Result<u32> {
    println!(rt; "where nothing is given back:")?;
    let mut differ = 0u32;
    for (what, asked, rows, step, cases) in [
        ("a register", &REGISTER, 0, 16, 16),
        ("the object list", &LIST, 0, 32, 512),
        ("the columns", &COLUMNS, 0, 16, 128),
        ("the longest text", &TEXT, 0, 16, 48),
        ("all of 960 rows", &ALL_ROWS, ROWS, 1024, 336),
        ("one of 960 rows", &ONE_ROW, ROWS, 16, 96),
        ("SET of a text", &SET_TEXT, 0, 16, 16),
        ("an unknown object", &UNKNOWN, 0, 16, 16),
    ] {
        let tally = refused_in_arenas(rt.alloc(), asked, rows, step, cases)?;
        differ = differ.saturating_add(report(rt, what, "refused", tally)?);
    }
    Ok(differ)
}

/// Each growth of the calls that make and recover a meter, and of a head end's.
fn run_others<R: Print + AllocGlobal>(rt: &R) -> Result<u32> {
    let alloc = rt.alloc();
    let recovered = report(
        rt,
        "made and recovered",
        "refused",
        recoveries(alloc, 512, 128)?,
    )?;
    let written = report(rt, "pages written", "refused", devices(alloc, 512, 256)?)?;
    let none = report(rt, "polls of no row", "refused", polls(alloc, 0, 16, 64)?)?;
    let small = report(
        rt,
        "polls of eight rows",
        "refused",
        polls(alloc, 8, 16, 256)?,
    )?;
    let large = report(
        rt,
        "polls of 960 rows",
        "refused",
        polls(alloc, 960, 1024, 320)?,
    )?;
    let files = report(
        rt,
        "readings of 960 rows",
        "refused",
        files(alloc, 1024, 224)?,
    )?;
    let polled = none.saturating_add(small).saturating_add(large);
    Ok(
        recovered
            .saturating_add(written)
            .saturating_add(polled)
            .saturating_add(files),
    )
}

/// The whole meter on one heap.
fn run_whole<R: Print + AllocGlobal>(rt: &R) -> Result<bool> {
    let alone = suffices(rt.alloc(), HEAP)?;
    let both = suffices_with_pages(rt.alloc(), HEAP_WITH_PAGES)?;
    println!(rt; "a meter on a heap of {HEAP} bytes: {alone}")?;
    println!(rt; "a meter and its pages on a heap of {HEAP_WITH_PAGES} bytes: {both}")?;
    Ok(alone && both)
}

/// Runs all of it, and returns whether every outcome is one that it may be.
pub fn run<R: Print + AllocGlobal>(rt: &R) -> Result<bool> {
    let public = run_talk(rt, "public", &PUBLIC)?;
    let management = run_talk(rt, "management", &MANAGEMENT)?;
    let requests = run_requests(rt)?;
    let arenas = run_arenas(rt)?;
    let others = run_others(rt)?;
    let whole = run_whole(rt)?;
    let differ = public
        .saturating_add(management)
        .saturating_add(requests)
        .saturating_add(arenas)
        .saturating_add(others);
    Ok(differ == 0 && whole)
}
