//! What is reported of a round.

ghost use Rattle.std.specs.Prelude.{◌≡◌, nat_eq};

use crate::collecting::{Collection, Purpose};
use crate::fault::{FailedMeter, FaultText, MeterFault, MeterNames};
use crate::list::Meter;
use crate::meter_file::path_of;
use std::alloc::{AllocError, Global};
use std::io::Write;

/// How many meters of a round are done, how many failed, and how many rows are new, or values came.
#[derive(Clone, Copy)]
pub struct Tally {
    pub done: usize,
    pub failed: usize,
    pub rows: u64,
}

impl Tally {
    /// Nothing yet.
    pub fn new() -> Self {
        Tally {
            done: 0,
            failed: 0,
            rows: 0,
        }
    }

    /// Whether no meter failed.
    pub fn is_done(&self) -> bool
        ensures { result ≡ nat_eq self.now.failed 0 }
    {
        self.failed == 0
    }
}

/// A meter that failed: its number in the list, and why.
pub type Failure = (usize, MeterFault);

/// The line about a meter that failed.
fn failure_line<T: FaultText>(
    alloc: Global,
    texts: &T,
    collection: &Collection<'_>,
    meter: &Meter<'_>,
    fault: &MeterFault,
) -> Result<Vec<u8>, AllocError> {
    let path = match collection.purpose.folder() {
        Some(folder) => path_of(alloc, folder, meter.name)?,
        None => String::new(alloc),
    };
    let secret_file = meter.secret_file.unwrap_or("");
    let names = MeterNames {
        place: meter.place,
        file: path.as_str(),
        secret_file,
        expected: meter.expected,
        attributes: collection.purpose.names(),
        deadline: collection.deadline,
    };
    let failed = FailedMeter {
        name: meter.name,
        place: meter.place,
        file: path.as_str(),
        secret_file,
        security: meter.security.unwrap_or(""),
        fault: fault.of_meter(&names),
    };
    let mut line = Vec::new(alloc);
    texts.append_fault(&mut line, &failed)?;
    Ok(line)
}

/// Prints a line for each failure of a meter. Errors in writing are ignored.
pub fn print_failures<T: FaultText, E: Write>(
    alloc: Global,
    texts: &T,
    collection: &Collection<'_>,
    meters: &[Meter<'_>],
    failures: &[Failure],
    errors: &mut E,
) -> Result<(), AllocError> {
    for (number, fault) in failures {
        if let Some(meter) = meters.get(*number) {
            let line = failure_line(alloc, texts, collection, meter, fault)?;
            let _written = errors.write_all(line.as_slice());
        }
    }
    Ok(())
}

/// The lines of the list that the failed meters have. The failures of a meter follow one another.
pub fn failed_lines(
    alloc: Global,
    meters: &[Meter<'_>],
    failures: &[Failure],
) -> Result<String, AllocError> {
    let mut text = String::new(alloc);
    let mut last = None;
    for (number, _) in failures {
        if last == Some(*number) {
            continue;
        }
        last = Some(*number);
        if let Some(meter) = meters.get(*number) {
            text.push_str(meter.line)?;
            text.push_str("\n")?;
        }
    }
    Ok(text)
}

/// Prints the closing line. Errors in writing are ignored.
pub fn print_tally<E: Write>(tally: &Tally, purpose: Purpose<'_>, errors: &mut E) {
    let Tally { done, failed, rows } = *tally;
    let what = match purpose {
        Purpose::Poll(_) => "new rows",
        Purpose::Get(..) | Purpose::Clock(_) => "values",
    };
    let _written = writeln!(errors, "{done} done, {failed} failed, {rows} {what}");
}
