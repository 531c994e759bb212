//! Whether the answers are those that are written.

use crate::bench::Room;
use crate::fault::RowFault;
use crate::hexadecimal::{bytes_of, put_hex};
use crate::scenario::Line;
use crate::sizes::{Heaps, Sizes};
use crate::subject::Subject;
use anyhow::Result;
use linked_list_allocator::LocalHeap;
use std::alloc::Global;

/// How many rows there were, and how many came out otherwise.
#[derive(Clone, Copy)]
pub struct Counts {
    pub rows: u32,
    pub differing: u32,
}

impl Counts {
    pub fn new() -> Self {
        Counts {
            rows: 0,
            differing: 0,
        }
    }
}

/// The actual answer, compared with the written ones.
#[derive(Clone, Copy)]
enum Match {
    /// The written answer.
    Same,
    /// The answer after a `|`: memory was refused.
    Other,
    /// Neither.
    Differs,
}

/// The text of a written answer: a word with `*` or `~` is written out as bytes.
fn written_out(answer: &str, text: &mut String) -> Result<(), RowFault> {
    let mut is_first = true;
    for word in answer.trim().split(" ") {
        if !is_first {
            text.push(' ')?;
        }
        is_first = false;
        if word.contains('*') || word.contains('~') || word.contains('+') {
            let bytes = bytes_of(*text.allocator(), word)?;
            put_hex(text, &bytes)?;
        } else {
            text.push_str(word)?;
        }
    }
    Ok(())
}

/// Whether a written answer means this one.
fn is_written(alloc: Global, written: &str, answer: &str) -> Result<bool, RowFault> {
    let mut text = String::new(alloc);
    written_out(written, &mut text)?;
    Ok(text.as_str() == answer)
}

/// The actual answer, compared with its line.
fn match_of(alloc: Global, line: &Line<'_>, answer: &str) -> Result<Match, RowFault> {
    let Some(wanted) = line.wanted else {
        return Ok(if answer.is_empty() {
            Match::Same
        } else {
            Match::Differs
        });
    };
    let mut found = Match::Same;
    for written in wanted.split("|") {
        if is_written(alloc, written, answer)? {
            return Ok(found);
        }
        found = Match::Other;
    }
    Ok(Match::Differs)
}

/// Says that a line came out otherwise than it is written.
fn tell<R: Print>(
    rt: &R,
    subject: Subject,
    number: u32,
    answer: &str,
    counts: &mut Counts,
) -> Result<()> {
    counts.differing = counts.differing.saturating_add(1);
    println!(rt; "{} {number}: {answer}", subject.file())?;
    Ok(())
}

/// Says which lines came out otherwise, and whether memory was refused in one of them.
fn compared<R: Print + AllocGlobal>(
    rt: &R,
    subject: Subject,
    lines: &[Line<'_>],
    answers: &str,
    counts: &mut Counts,
) -> Result<bool> {
    let mut told = answers.lines();
    let mut is_refused = false;
    for line in lines {
        let answer = told.next().unwrap_or("").trim();
        match match_of(rt.alloc(), line, answer)? {
            Match::Same => {}
            Match::Other => is_refused = true,
            Match::Differs => tell(rt, subject, line.number, answer, counts)?,
        }
    }
    Ok(is_refused)
}

/// Plays a scenario in a heap, and says whether memory was refused. What it took is given back.
fn played<R: Print + AllocGlobal>(
    rt: &R,
    subject: Subject,
    room: Room<'_>,
    lines: &[Line<'_>],
    counts: &mut Counts,
) -> Result<bool> {
    let mut answers = String::new(rt.alloc());
    subject.play(room, lines, &mut answers)?;
    if room.heap.used() != 0 || room.ample.used() != 0 {
        tell(rt, subject, 0, "memory stays behind", counts)?;
    }
    compared(rt, subject, lines, answers.as_str(), counts)
}

/// Plays a scenario on a heap of each size.
fn played_on_each<R: Print + AllocGlobal>(
    rt: &R,
    subject: Subject,
    ample: &LocalHeap,
    sizes: Sizes,
    lines: &[Line<'_>],
    counts: &mut Counts,
) -> Result<()> {
    let mut refused = 0u32;
    let mut is_refused = true;
    let mut size = sizes.first as usize;
    for _ in 0..sizes.count {
        let heap = LocalHeap::new(rt.alloc(), size)?;
        let room = Room { ample, heap: &heap };
        is_refused = played(rt, subject, room, lines, counts)?;
        refused = refused.saturating_add(u32::from(is_refused));
        size = size.saturating_add(sizes.step as usize);
    }
    match sizes.least {
        Some(least) if is_refused || refused <= least => {
            tell(rt, subject, sizes.first, "the sizes don't part", counts)
        }
        _ => Ok(()),
    }
}

/// Plays a scenario, and counts its rows and those that came out otherwise.
pub fn judge<R: Print + AllocGlobal>(
    rt: &R,
    subject: Subject,
    ample: &LocalHeap,
    heaps: Heaps,
    lines: &[Line<'_>],
    counts: &mut Counts,
) -> Result<()> {
    for line in lines {
        counts.rows = counts.rows.saturating_add(u32::from(line.wanted.is_some()));
    }
    match heaps {
        Heaps::Ample => {
            let room = Room { ample, heap: ample };
            let is_refused = played(rt, subject, room, lines, counts)?;
            if is_refused {
                tell(rt, subject, 0, "ample memory was refused", counts)?;
            }
            Ok(())
        }
        Heaps::Each(sizes) => played_on_each(rt, subject, ample, sizes, lines, counts),
    }
}
