//! A poll in parts, for a slow line: each part asks for some rows and files them, so that a poll that is cut off has gained these.

use crate::Fault;
use crate::introduced::is_new;
use crate::polled::poll_until;
use dlms_asking::{CountsOctets, Pace, ask_for_pace, now, passed};
use dlms_filing::{FilePlace, Output};
use dlms_polling::{HostPollInputs, PollInputs, hold_file, open_readings};
use dlms_words::PollOptions;
use std::cell::RefCell;
use std::fs;
use std::fs::{File, Files};
use std::io::Write;
use std::net::Net;
use std::random::RandomSource;
use std::time::Clock;

/// The clock of the last row of a readings file; none if there is no row or no file.
fn last_filed<'a, H: Files<File = File> + AllocGlobal>(
    host: &H,
    options: &PollOptions<'a>,
    file: &'a str,
) -> Result<Option<u32>, Fault<'a>> {
    if is_new(host, file) {
        return Ok(None);
    }
    let alloc = host.alloc();
    let mut place = FilePlace::of(host);
    let opened = match hold_file(&mut place, Some(file)) {
        Ok(()) => open_readings(alloc, Some(file), &mut place),
        Err(fault) => Err(fault),
    };
    drop(place);
    match opened {
        Ok(readings) => Ok(readings.last()),
        Err(fault) => Err(Fault::of_field(alloc, options.meter.place, Some(file), None, fault)),
    }
}

/// The seconds from the first row of a part to its last one.
fn length_of(rows: u32, period: u32) -> u32 {
    rows.saturating_sub(1).saturating_mul(period)
}

/// The options of the next part, which has the seconds that are left of the deadline.
fn in_time<'a, D: PollInputs>(
    options: &PollOptions<'a>,
    inputs: &mut D,
) -> Result<PollOptions<'a>, Fault<'a>> {
    let left = options.deadline.saturating_sub(passed(inputs.seconds()));
    if left == 0 {
        return Err(Fault::Overdue(options.meter.place, options.deadline));
    }
    let mut part = *options;
    part.deadline = left;
    Ok(part)
}

/// How many bytes a file of readings has.
fn size_of_file<H: Files<File = File>>(host: &H, file: &str) -> u64 {
    match fs::metadata(host, file) {
        Ok(metadata) => metadata.len(),
        Err(_) => 0,
    }
}

/// Polls the meter in parts that end `length` seconds after each other, the first so long after this second, up to the system's clock.
/// The last part asks for all rows that are left. After a part without a new row the next one is twice as long, so that a gap of years,
/// or a meter whose clock is years late, does not take thousands of requests.
fn poll_from<
    'a,
    H: Net + Files<File = File> + Clock + AllocGlobal + RandomSource,
    D: PollInputs,
    O: Output,
    P: Write + CountsOctets + Drop,
>(
    host: &H,
    options: &PollOptions<'a>,
    file: &str,
    inputs: &mut D,
    first: u32,
    length: u32,
    output: &mut O,
    progress: &RefCell<P>,
) -> Result<(), Fault<'a>> {
    let now = now(host)?;
    let mut until = first.saturating_add(length);
    let mut step = length;
    'parts: for _part in 0..now {
        if until >= now {
            break;
        }
        let part = in_time(options, inputs)?;
        let size = size_of_file(host, file);
        poll_until(host, &part, Some(until), output, progress)?;
        step = if size_of_file(host, file) > size {
            length
        } else {
            step.saturating_mul(2)
        };
        until = until.saturating_add(step);
    }
    let part = in_time(options, inputs)?;
    poll_until(host, &part, None, output, progress)
}

/// Polls the meter in parts of N rows (more after a gap), from the last row of the file on, or from the meter's first one. How often the
/// meter captures rows is asked for first.
#[inline(never)]
pub fn poll_in_parts<
    'a,
    H: Net + Files<File = File> + Clock + AllocGlobal + RandomSource,
    O: Output,
    P: Write + CountsOctets + Drop,
>(
    host: &H,
    options: &PollOptions<'a>,
    rows: u32,
    output: &mut O,
    progress: &RefCell<P>,
) -> Result<(), Fault<'a>> {
    let place = options.meter.place;
    let Some(file) = options.readings else {
        return Err(Fault::Unfiled);
    };
    let mut inputs = HostPollInputs::new(host);
    if let Err(error) = inputs.start() {
        return Err(Fault::of_system(host.alloc(), place, &error));
    }
    let filed = last_filed(host, options, file)?;
    let Pace { period, first } = ask_for_pace(host, options, filed.is_none())?;
    if period == 0 {
        return Err(Fault::NoPeriod(place));
    }
    let Some(first) = filed.or(first) else {
        return poll_until(host, options, None, output, progress);
    };
    let length = length_of(rows, period);
    poll_from(
        host,
        options,
        file,
        &mut inputs,
        first,
        length,
        output,
        progress,
    )
}
