//! The job that the command line asks for.
ghost use Rattle.std.specs.Prelude.{◌≡◌, ◌⊎◌, [], OnOk, IfErr, IfOk, map};
ghost use Rattle.clap.specs.Values.{kind_of};
ghost use Rattle.clap.specs.Words.{fault_of, FailsBy, HasKind, subcommand_rows_of, subcommand_of};
ghost use Rattle.dlms_words.specs.Grammar.{dlms};
ghost use Rattle.dlms_words.specs.Words.{Asks, IsClear, IsUnclear};

use crate::commands::Job;
use crate::conflicts::{conflict, invalid_value};
use crate::grammar::program;
use crate::jobs::{meter_job, other_job, poll_job};
use crate::requests::request_job;
use clap::error::ErrorKind;
use clap::{ArgMatches, Error};
use std::alloc::{AllocError, Global};

/// The matches of the command line.
fn parsed<'a>(alloc: Global, words: &'a [&'a str]) -> Result<ArgMatches<'a>, Error>
    ensures kinds { FailsBy (fault_of dlms (map (λ word. word.now) words.entry.now)) result }
    ensures matches { IfOk result
        (λ m. subcommand_rows_of m ≡ subcommand_of dlms (map (λ word. word.now) words.entry.now)) }
{
    program(alloc)?.try_get_matches_from(words)
}

/// The error of words that clap takes, and that ask for nothing all the same.
fn complaint(alloc: Global, kind: ErrorKind, message: &str) -> Result<Error, AllocError>
    ensures { IfOk result (λ e. kind_of e ≡ kind) }
{
    let mut program = program(alloc)?;
    program.error(kind, message)
}

/// The matches of the command line, if it asks for something.
fn clear<'a>(alloc: Global, words: &'a [&'a str]) -> Result<ArgMatches<'a>, Error>
    ensures none { OnOk result (fault_of dlms (map (λ word. word.now) words.entry.now) ≡ []) }
    ensures clear { OnOk result (IsClear
        (subcommand_of dlms (map (λ word. word.now) words.entry.now))) }
    ensures matches { IfOk result
        (λ m. subcommand_rows_of m ≡ subcommand_of dlms (map (λ word. word.now) words.entry.now)) }
    ensures fault { IfErr result (λ e. HasKind
        (fault_of dlms (map (λ word. word.now) words.entry.now)) e
        ⊎ IsUnclear (subcommand_of dlms (map (λ word. word.now) words.entry.now)) e) }
{
    let matches = parsed(alloc, words)?;
    if let Some(message) = conflict(&matches) {
        return Err(complaint(alloc, ErrorKind::ArgumentConflict, message)?);
    }
    if let Some(message) = invalid_value(&matches) {
        return Err(complaint(alloc, ErrorKind::InvalidValue, message)?);
    }
    Ok(matches)
}

/// The job of this command line, whose first word is the program's own name: its command and its values are those that `clap`
/// finds. A fault is `clap`'s, or out of memory, or that two options are given that exclude each other, or that an address is
/// invalid; if there is none of these, it is out of memory.
#[inline(never)]
pub fn job<'a>(alloc: Global, words: &'a [&'a str]) -> Result<Job<'a>, Error>
    ensures ok { IfOk result (Asks (subcommand_of dlms (map (λ word. word.now) words.entry.now))) }
    ensures clear { OnOk result (IsClear
        (subcommand_of dlms (map (λ word. word.now) words.entry.now))) }
    ensures only_ok { OnOk result (fault_of dlms (map (λ word. word.now) words.entry.now) ≡ []) }
    ensures fault { IfErr result (λ e. HasKind
        (fault_of dlms (map (λ word. word.now) words.entry.now)) e
        ⊎ IsUnclear (subcommand_of dlms (map (λ word. word.now) words.entry.now)) e) }
{
    let matches = clear(alloc, words)?;
    match meter_job(&matches) {
        Some(job) => return Ok(job),
        None => {}
    }
    match request_job(&matches) {
        Some(job) => return Ok(job),
        None => {}
    }
    match other_job(&matches) {
        Some(job) => return Ok(job),
        None => {}
    }
    Ok(poll_job(&matches))
}
