//! The whole report on a file.

use crate::fault::ShowFault;
use crate::file::MOST_BYTES;
use crate::journal::write_journal;
use crate::pages::{has_pages, write_pages};
use crate::profile::{plotted_columns, samples_of, write_rows};
use crate::state::write_state;
use dlms_checkpoint::Version;
use dlms_plot::{Quantity, Sample, Series, write_text};
use dlms_state::State;
use dlms_store::{Edition, Found, OpenFault, Slot};
use dlms_survey::{Image, Judge, Recovery, Survey};
use std::alloc::Allocator;
use std::io;
use std::io::Write;

/// Whether the load profile's curve is drawn too.
#[derive(Clone, Copy, PartialEq, Eq)]
pub enum Curve {
    /// It is not.
    None,
    /// In the terminal, after everything else.
    Text,
}

/// Writes how long the file is, and what its length says.
fn write_length<W: Write>(length: u64, output: &mut W) -> io::Result<()> {
    let pages = MOST_BYTES as u64;
    if length < pages {
        let missing = pages - length;
        return writeln!(
            output,
            "file: {length} bytes, {missing} fewer than 62 pages have"
        );
    }
    let behind = length - pages;
    if behind == 0 {
        return writeln!(output, "file: {length} bytes, those of 62 pages");
    }
    writeln!(
        output,
        "file: {length} bytes, of which {behind} after the pages are ignored"
    )
}

/// Writes which slot counts, and the state of the other gate.
fn write_slot<W: Write>(
    slot: Slot,
    edition: Edition,
    other: Option<Edition>,
    output: &mut W,
) -> io::Result<()> {
    let slot = slot.index();
    let version = edition.version.number();
    let generation = edition.generation;
    write!(
        output,
        "slot {slot} counts, of version {version} and generation {generation}: "
    )?;
    match other {
        Some(Edition { generation, .. }) => {
            writeln!(output, "the other gate has generation {generation}")
        }
        None => output.write_all(b"the other gate is not open\n"),
    }
}

/// Writes which slot counts, and why.
fn write_active<A: Allocator + Copy, W: Write>(
    survey: &Survey<A>,
    output: &mut W,
) -> io::Result<()> {
    match survey.active {
        Ok((Slot::First, edition)) => write_slot(Slot::First, edition, survey.second, output),
        Ok((Slot::Second, edition)) => write_slot(Slot::Second, edition, survey.first, output),
        Err(OpenFault::Corrupt(_)) => {
            output.write_all(b"no slot counts: both gates are open, with one generation\n")
        }
        Err(_) => output.write_all(
            b"no slot counts: neither gate is whole, open and of version 1 or 2\n",
        ),
    }
}

/// Why a checkpoint is due.
pub fn why_due<A: Allocator + Copy>(survey: &Survey<A>) -> &'static str {
    match &survey.found {
        Ok(Found { journal, .. }) if journal.pages > 0 => "the journal holds records",
        Ok(Found { journal, .. }) if journal.torn => "the journal's first page is damaged",
        Ok(Found { edition, .. }) if edition.version == Version::Rings =>
            "the pages are of version 1",
        _ => "a checkpoint is due",
    }
}

/// Writes why a recovery would refuse.
fn write_refusal<A: Allocator + Copy, W: Write>(
    judge: &Judge<A>,
    fault: OpenFault,
    output: &mut W,
) -> io::Result<()> {
    match fault {
        OpenFault::Corrupt(page) => {
            let verdict = judge.verdict(page);
            writeln!(output, "recovery: refused, {fault}: page {page} {verdict}")
        }
        OpenFault::NoCheckpoint => {
            writeln!(output, "recovery: refused, {fault}: no slot counts")
        }
        OpenFault::Exhausted => {
            writeln!(
                output,
                "recovery: refused, {fault}: a checkpoint is due, and this generation is the last"
            )
        }
        _ => writeln!(output, "recovery: refused, {fault}"),
    }
}

/// Writes what a recovery would do.
fn write_recovery<A: Allocator + Copy, W: Write>(
    judge: &Judge<A>,
    survey: &Survey<A>,
    output: &mut W,
) -> io::Result<()> {
    match survey.recovery() {
        Recovery::Nothing => output.write_all(b"recovery: the store opens without changes\n"),
        Recovery::Checkpoint(slot, generation) => {
            let slot = slot.index();
            let why = why_due(survey);
            writeln!(
                output,
                "recovery: a checkpoint of generation {generation} into slot {slot}: {why}"
            )
        }
        Recovery::Refused(fault) => write_refusal(judge, fault, output),
    }
}

/// Writes the curve of a quantity, of these samples.
fn write_series<A: Allocator + Copy, W: Write>(
    alloc: A,
    quantity: Quantity,
    samples: &[Sample],
    output: &mut W,
) -> Result<(), ShowFault> {
    match Series::of(alloc, samples)? {
        Some(series) => {
            let written = write_text(quantity, &series, output);
            drop(series);
            written?;
        }
        None => output.write_all(b"no curve: there are no two rows between which time goes on\n")?,
    }
    Ok(())
}

/// Writes the curve of the first register among the columns.
fn write_curve<A: Allocator + Copy, W: Write>(
    alloc: A,
    state: &State<A>,
    output: &mut W,
) -> Result<(), ShowFault> {
    let Some((quantity, clock, place)) = plotted_columns(state.columns()) else {
        output.write_all(b"no curve: the columns lack the clock or a register\n")?;
        return Ok(());
    };
    let samples = samples_of(alloc, state, clock, place)?;
    let written = write_series(alloc, quantity, samples.as_slice(), output);
    drop(samples);
    written
}

/// Writes what a recovery finds: the state and its rows, and the curve if it is requested.
fn write_found<A: Allocator + Copy, W: Write>(
    alloc: A,
    state: &State<A>,
    curve: Curve,
    output: &mut W,
) -> Result<(), ShowFault> {
    output.write_all(b"\nstate\n")?;
    write_state(state, output)?;
    output.write_all(b"\nload profile\n")?;
    write_rows(state, output)?;
    match curve {
        Curve::None => Ok(()),
        Curve::Text => {
            output.write_all(b"\n")?;
            write_curve(alloc, state, output)
        }
    }
}

/// Writes which slot counts, the journal's events, and what a recovery would do.
fn write_slots<A: Allocator + Copy, W: Write>(
    image: &Image<A>,
    survey: &Survey<A>,
    judge: &Judge<'_, A>,
    output: &mut W,
) -> io::Result<()> {
    output.write_all(b"\n")?;
    write_active(survey, output)?;
    output.write_all(b"\njournal\n")?;
    write_journal(image, judge, output)?;
    output.write_all(b"\n")?;
    write_recovery(judge, survey, output)
}

/// Writes how long a file is, and its pages.
fn write_file<A: Allocator + Copy, W: Write>(
    image: &Image<A>,
    judge: &Judge<'_, A>,
    length: u64,
    output: &mut W,
) -> io::Result<()> {
    write_length(length, output)?;
    if !has_pages(image) {
        output.write_all(b"no meter's file: no page of it is whole\n")?;
    }
    output.write_all(b"\npages\n")?;
    write_pages(image, judge, output)
}

/// Writes the whole report on an image, by its survey.
fn write_survey<A: Allocator + Copy, W: Write>(
    alloc: A,
    image: &Image<A>,
    survey: &Survey<A>,
    length: u64,
    curve: Curve,
    output: &mut W,
) -> Result<(), ShowFault> {
    let judge = Judge::new(image, survey);
    write_file(image, &judge, length, output)?;
    write_slots(image, survey, &judge, output)?;
    match survey.state() {
        Some(state) => write_found(alloc, state, curve, output),
        None => Ok(()),
    }
}

/// Writes the whole report on an image, of a file with this many bytes: its pages, which slot counts, the journal's events, what a
/// recovery would do, and if it would open the store, the state and the rows.
pub fn write_report<A: Allocator + Copy, W: Write>(
    alloc: A,
    image: &mut Image<A>,
    length: u64,
    curve: Curve,
    output: &mut W,
) -> Result<(), ShowFault> {
    let survey = Survey::of(alloc, image)?;
    let written = write_survey(alloc, image, &survey, length, curve, output);
    drop(survey);
    written
}
