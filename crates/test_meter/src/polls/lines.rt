//! Polls over lines in memory that lose frames, cut them, send them twice and give their bytes in other pieces.

use crate::polls::site::{Ended, ended_by};
use crate::polls::wire::{Fate, Pieces};
use crate::tally::Tally;
use anyhow::Result;
use std::alloc::Global;
use std::io;

/// The rows of the meter whose line loses frames.
const ROWS: u32 = 40;

/// More than the frames of its poll.
const FRAMES: u32 = 40;

/// Polls in which each frame of the run in turn is lost, with this many after it.
fn losses(alloc: Global, count: u32, expected: Ended) -> Result<Tally> {
    let mut tally = Tally::new();
    for first in 0..FRAMES {
        let ended = ended_by(alloc, ROWS, Fate::Lost(first, count), Pieces::Joined)?;
        if let Some(ended) = ended {
            tally.add(ended == expected);
        }
    }
    Ok(tally)
}

/// Polls on which each frame in turn is cut short, or comes twice, with bytes that come joined and one by one.
fn each(alloc: Global, is_cut: bool) -> Result<Tally> {
    let mut tally = Tally::new();
    for number in 0..FRAMES {
        let fate = if is_cut {
            Fate::Cut(number)
        } else {
            Fate::Twice(number)
        };
        for pieces in [Pieces::Joined, Pieces::Single] {
            if let Some(ended) = ended_by(alloc, ROWS, fate, pieces)? {
                tally.add(ended == Ended::Done);
            }
        }
    }
    Ok(tally)
}

/// Polls of no rows, of one, of forty, and of a full buffer, on lines that lose nothing.
fn wholes(alloc: Global) -> Result<Tally> {
    let mut tally = Tally::new();
    for rows in [0, 1, ROWS, 960, 1000] {
        for pieces in [Pieces::Joined, Pieces::Single] {
            let ended = ended_by(alloc, rows, Fate::Whole, pieces)?;
            tally.add(ended == Some(Ended::Done));
        }
    }
    Ok(tally)
}

fn report<R: Print>(rt: &R, what: &str, tally: Tally) -> io::Result<u32> {
    let Tally { cases, differ, .. } = tally;
    println!(rt;
        "{what}: {} as expected, {differ} not",
        cases.saturating_sub(differ)
    )?;
    Ok(differ)
}

/// Says of each kind of line how many polls were as expected; how many were not comes back.
pub fn run<R: Print + AllocGlobal>(rt: &R) -> Result<u32> {
    let alloc = rt.alloc();
    let mut wrong = report(rt, "whole lines", wholes(alloc)?)?;
    for count in 1..=3u32 {
        let tally = losses(alloc, count, Ended::Done)?;
        wrong = wrong.saturating_add(report(rt, "frames lost, and repeated", tally)?);
    }
    let tally = losses(alloc, 4, Ended::Line)?;
    wrong = wrong.saturating_add(report(rt, "four frames lost in a row", tally)?);
    let tally = each(alloc, true)?;
    wrong = wrong.saturating_add(report(rt, "frames cut short", tally)?);
    let tally = each(alloc, false)?;
    Ok(wrong.saturating_add(report(rt, "frames that come twice", tally)?))
}
