//! Plays the rows that lie here, and says which come out otherwise than they are written.
//!
//! `data/` has a file for each crate, and its head says which calls its lines name. A line is a call with its arguments, `->`, and
//! the expected answer; a line without `->` has no answer. The result of one line stays for the next, up to an empty line, where
//! everything is dropped. `#` begins a comment.
//!
//! A line `heaps FIRST STEP COUNT` plays the lines up to the next empty one on a heap of each of these sizes, `FIRST` bytes and
//! `STEP` more each time. Answers after `|` may then replace the first, when memory runs out; with a further number `LEAST` they do
//! at more than this many sizes, and not at the last one. However a scenario ends, its heap is empty then.
#![tactic(auto)]

mod acse;
mod answers;
mod apdu;
mod bench;
mod blocks;
mod carrier;
mod checkpoint;
mod classes;
mod data;
mod events;
mod fault;
mod frame;
mod headend;
mod hexadecimal;
mod journal;
mod link;
mod profile;
mod rows;
mod scenario;
mod security;
mod sizes;
mod state;
mod subject;
mod talk;
mod verdict;
mod words;

use crate::scenario::{Line, Reader};
use crate::subject::{SUBJECTS, Subject};
use crate::verdict::{Counts, judge};
use anyhow::Result;
use linked_list_allocator::LocalHeap;
use std::fs;
use std::process::ExitCode;
use std::rt::Files;

/// The heap on which a row runs that names no other: ample for every one.
const AMPLE: usize = 4_194_304;

/// Plays the rows of a file.
fn play_file<R: Files + Print + AllocGlobal>(
    rt: &R,
    subject: Subject,
    counts: &mut Counts,
) -> Result<()> {
    let text = fs::read_to_string(rt, subject.file())?;
    let ample = LocalHeap::new(rt.alloc(), AMPLE)?;
    let mut reader = Reader::new(rt.alloc(), text.as_str());
    let mut lines: Vec<Line> = Vec::new(rt.alloc());
    'scenarios: for _ in 0..u32::MAX {
        let Some(heaps) = reader.next_scenario(&mut lines)? else {
            break 'scenarios;
        };
        judge(rt, subject, &ample, heaps, &lines, counts)?;
    }
    Ok(())
}

fn main(rt: HostRuntime) -> Result<ExitCode> {
    let mut counts = Counts::new();
    for subject in SUBJECTS {
        play_file(&rt, subject, &mut counts)?;
    }
    println!(rt; "{} rows, {} differ", counts.rows, counts.differing)?;
    if counts.differing == 0 {
        Ok(ExitCode::SUCCESS)
    } else {
        Ok(ExitCode::from(1))
    }
}
