//! The readings file of a poll.

ghost use Rattle.std.specs.Prelude.{◌≡◌, option_map, string_bytes, IfErr, IfOk};
ghost use Rattle.dlms_headend.specs.Rows.{AreReadings};
ghost use Rattle.dlms_polling.specs.Keeping.{FilesNone, FilesPolled, HoldsFile, OpensFile, PrintsLine, ReportsCount, left_out_line, TellsFiling, TellsOpening, TellsPlace};
ghost use Rattle.dlms_polling.specs.Risers.{risers};

use crate::rising::{first_left_out, left_out, risers};
use dlms_ends::RunFault;
use dlms_filing::{Filing, FilingFault, Holding, OpeningFault, Output, file_rows, open_rows};
use dlms_headend::{Readings, Row};
use dlms_lines::FieldFault;
use std::alloc::{AllocError, Global};
use std::io;

/// Holds the file, if one is given. Nobody else has it then.
pub fn hold_file<'a, F: Holding>(place: &mut F, file: Option<&'a str>) -> Result<(), FieldFault<'a>>
    ensures { HoldsFile (option_map (λ x. x.now) file.entry) (F.asked place.old)
        (F.asked place.new) result }
{
    match file {
        Some(file) => match place.hold(file) {
            Ok(()) => Ok(()),
            Err(error) => Err(FieldFault::System(file, error)),
        },
        None => Ok(()),
    }
}

/// The fault for an error of the place, if this file is given.
fn fault_at<'a>(file: Option<&'a str>, error: io::Error) -> FieldFault<'a>
    ensures { TellsPlace (option_map (λ x. x.now) file.entry) error result }
{
    match file {
        Some(file) => FieldFault::System(file, error),
        None => FieldFault::Other(RunFault::Io),
    }
}

/// Why the readings were not opened, if this file is given.
fn opening_fault<'a>(file: Option<&'a str>, fault: OpeningFault) -> FieldFault<'a>
    ensures { TellsOpening (option_map (λ x. x.now) file.entry) fault result }
{
    match fault {
        OpeningFault::Place(error) => fault_at(file, error),
        OpeningFault::Readings(fault) => FieldFault::Other(RunFault::Readings(fault)),
    }
}

/// The readings in the file.
pub fn open_readings<'a, F: Filing>(
    alloc: Global,
    file: Option<&'a str>,
    place: &mut F,
) -> Result<Readings, FieldFault<'a>>
    ensures { OpensFile (option_map (λ x. x.now) file.entry) (F.asked place.old)
        (F.asked place.new) result }
{
    match open_rows(alloc, place) {
        Ok(readings) => Ok(readings),
        Err(fault) => Err(opening_fault(file, fault)),
    }
}

/// Why the rows were not filed, if this file is given.
fn filing_fault<'a>(file: Option<&'a str>, fault: FilingFault) -> FieldFault<'a>
    ensures { TellsFiling (option_map (λ x. x.now) file.entry) fault result }
{
    match fault {
        FilingFault::Place(error) => fault_at(file, error),
        FilingFault::Memory => FieldFault::Other(RunFault::Memory),
        FilingFault::Output => FieldFault::Other(RunFault::Io),
    }
}

/// The line that reports how many rows are left out, and the clock of the first of them.
fn left_out_line(alloc: Global, count: usize, first: u32) -> Result<String, AllocError>
    ensures { IfOk result (λ line. string_bytes line ≡ left_out_line count first) }
{
    format!(in alloc;
        "left out {count}, the first with clock {first}: not later than the row filed before it\n"
    )
}

/// Reports how many rows are left out, and the clock of the first of them.
fn report<E: Output>(
    alloc: Global,
    errors: &mut E,
    count: usize,
    first: u32,
) -> Result<(), RunFault>
    ensures { PrintsLine (left_out_line count first) (E.printed errors.old) (E.printed errors.new)
        result }
{
    let line = left_out_line(alloc, count, first)?;
    errors.print(line.as_bytes())?;
    Ok(())
}

/// Reports the rows that are left out, if there are any.
fn report_any<E: Output>(
    alloc: Global,
    errors: &mut E,
    count: usize,
    first: Option<u32>,
) -> Result<(), RunFault>
    ensures { ReportsCount count (E.printed errors.old) (E.printed errors.new) result }
{
    if count == 0 {
        return Ok(());
    }
    report(alloc, errors, count, first.unwrap_or(0))
}

/// Files the rows of a poll that is done, of which `kept` are later than every row before them: these are merged into the readings. How
/// many rows are left out is reported first.
fn file_kept<'a, F: Filing, O: Output, E: Output>(
    alloc: Global,
    place: &mut F,
    readings: &mut Readings,
    rows: &[Row],
    kept: &[Row],
    file: Option<&'a str>,
    output: &mut O,
    errors: &mut E,
) -> Result<(), FieldFault<'a>>
    requires are { AreReadings rows.now }
    requires kept { kept.now ≡ risers rows.now }
    ensures files { IfOk result (λ _. FilesPolled (F.asked place.old) (F.asked place.new)
        (O.printed output.old) (O.printed output.new)
        (E.printed errors.old) (E.printed errors.new) readings.old rows.now) }
    ensures fails { IfErr result (FilesNone (option_map (λ x. x.now) file.entry) (F.asked place.old)
        (F.asked place.new) (O.printed output.old) (O.printed output.new)
        (E.printed errors.old) (E.printed errors.new) readings.old rows.now) }
{
    let count = left_out(readings.rows(), rows, kept);
    let first = first_left_out(readings.rows(), rows);
    match report_any(alloc, errors, count, first) {
        Ok(()) => {}
        Err(fault) => return Err(FieldFault::Other(fault)),
    }
    match file_rows(place, readings, kept, output) {
        Ok(()) => Ok(()),
        Err(fault) => Err(filing_fault(file, fault)),
    }
}

/// Files the rows of a poll that is done, in the file if one is named: each row that is later than the one filed before it, in their
/// order. How many rows are left out is reported on the errors first.
#[inline(never)]
pub fn file_readings<'a, F: Filing, O: Output, E: Output>(
    alloc: Global,
    place: &mut F,
    readings: &mut Readings,
    rows: &[Row],
    file: Option<&'a str>,
    output: &mut O,
    errors: &mut E,
) -> Result<(), FieldFault<'a>>
    requires { AreReadings rows.now }
    ensures files { IfOk result (λ _. FilesPolled (F.asked place.old) (F.asked place.new)
        (O.printed output.old) (O.printed output.new)
        (E.printed errors.old) (E.printed errors.new) readings.old rows.now) }
    ensures fails { IfErr result (FilesNone (option_map (λ x. x.now) file.entry) (F.asked place.old)
        (F.asked place.new) (O.printed output.old) (O.printed output.new)
        (E.printed errors.old) (E.printed errors.new) readings.old rows.now) }
{
    let Ok(kept) = risers(alloc, rows) else {
        return Err(FieldFault::Other(RunFault::Memory));
    };
    file_kept(
        alloc,
        place,
        readings,
        rows,
        kept.as_slice(),
        file,
        output,
        errors,
    )
}
