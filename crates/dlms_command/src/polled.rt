//! A meter that is polled once.

ghost use Rattle.std.specs.Prelude.{◌≤◌, IfSome};
ghost use Rattle.dlms_carrier.specs.Any.{IsRoute};
ghost use Rattle.dlms_data.specs.declared.date_time.TheConstants.{LAST_SECOND};

use crate::expected::expected_of;
use crate::introduced::{introduce, is_new};
use crate::meters::row_format;
use crate::outcome::showing_for;
use crate::parts::poll_in_parts;
use crate::{Fault, Terminals};
use dlms_asking::{
    CountsOctets, OctetProgress, PollGuards, PollLine, SharedErrors, WatchedLine, guards_of,
    poll_line, poll_secret, public_route,
};
use dlms_collecting::{Named, append_second};
use dlms_data::LAST_SECOND;
use dlms_filing::{FilePlace, HostDisk, Output};
use dlms_lines::MeterLine;
use dlms_polling::{HostPollInputs, MOST_RETRIES, PollSetup, Polling, poll};
use dlms_printing::{Showing, append_closing};
use dlms_words::PollOptions;
use std::alloc::{AllocError, Global};
use std::cell::RefCell;
use std::fs::{File, Files};
use std::io::Write;
use std::net::Net;
use std::random::RandomSource;
use std::time::Clock;
use std::{fs, io};

/// Removes the lock of a readings file that a failed poll did not make, while it is held: another program that opened it meanwhile is refused.
fn remove_lock<H: Files<File = File> + AllocGlobal>(host: &H, file: &str) {
    if fs::metadata(host, file).is_ok() {
        return;
    }
    if let Ok(lock) = format!(in host.alloc(); "{file}.lock") {
        let _removed = fs::remove_file(host, lock.as_str());
    }
}

/// The parts of a head end for a poll, whose line is watched. In a frame of its own: what it moves is large.
#[inline(never)]
fn setup_of<'r, 'p, H: Net + Files<File = File> + Clock, G, P>(
    host: &'r H,
    guards: G,
    timeout: u32,
    progress: &'p RefCell<P>,
) -> PollSetup<
    HostPollInputs<'r, H>,
    G,
    FilePlace<HostDisk<'r, H>>,
    WatchedLine<'p, MeterLine<'r, H>, P>,
> {
    PollSetup {
        inputs: HostPollInputs::new(host),
        guards,
        place: FilePlace::of(host),
        line: WatchedLine {
            line: MeterLine::until(host).waiting(timeout),
            progress,
        },
    }
}

/// Polls the meter at an address once. A new file of readings begins with the name of the meter, among the errors; not if the poll is
/// protected, since the name is asked for in clear. A poll that fails before there is a file leaves no lock either.
#[inline(never)]
fn run_poll_of<
    'a,
    H: Net + Files<File = File> + Clock + AllocGlobal + RandomSource,
    O: Output,
    P: Write + CountsOctets + Drop,
>(
    host: &H,
    polling: &Polling<'a, '_>,
    guards: PollGuards<'a, '_, H>,
    timeout: u32,
    output: &mut O,
    progress: &RefCell<P>,
) -> Result<(), Fault<'a>>
    requires route { IfSome polling.now.route IsRoute }
    requires until { IfSome polling.now.until (λ second. second ≤ LAST_SECOND) }
{
    let new_file = polling.readings.filter(|file| is_new(host, *file));
    let errors = &mut SharedErrors(progress);
    let mut setup = setup_of(host, guards, timeout, progress);
    let told = match poll(host.alloc(), &mut setup, polling, output, errors) {
        Ok(()) => Ok(()),
        Err(fault) => match setup.guards.told(&fault) {
            Some(own) => Err(own),
            None => Err(Fault::of_field(
                host.alloc(),
                polling.address,
                polling.readings,
                polling.secret_file,
                fault,
            )),
        },
    };
    let is_introduced = polling.expected.is_empty() && !polling.is_protected;
    match new_file {
        Some(file) if told.is_ok() && is_introduced => {
            let route = public_route(polling.route);
            let line = &mut setup.line;
            let _told = introduce(host.alloc(), line, route, polling.address, file, errors);
        }
        Some(file) if told.is_err() => remove_lock(host, file),
        _ => {}
    }
    drop(setup);
    told
}

/// The second, or the last one of a meter's clock if it is past that.
fn within_clock(second: Option<u32>) -> Option<u32>
    ensures { IfSome result (λ second. second ≤ LAST_SECOND) }
{
    match second {
        Some(second) => Some(second.min(LAST_SECOND)),
        None => None,
    }
}

/// Polls the meter at an address once for the rows until this second, if it shows the texts of `--expect`; with `--security` in a
/// protected association.
#[inline(never)]
pub fn poll_until<
    'a,
    H: Net + Files<File = File> + Clock + AllocGlobal + RandomSource,
    O: Output,
    P: Write + CountsOctets + Drop,
>(
    host: &H,
    options: &PollOptions<'a>,
    until: Option<u32>,
    output: &mut O,
    progress: &RefCell<P>,
) -> Result<(), Fault<'a>> {
    let PollLine { address, route } = poll_line(options)?;
    let (guards, left) = guards_of(host, options)?;
    let expected = match expected_of(host.alloc(), &options.expecting) {
        Ok(expected) => expected,
        Err(fault) => {
            drop(guards);
            return Err(fault);
        }
    };
    let polling = Polling {
        address,
        route,
        readings: options.readings,
        secret_file: poll_secret(options, route),
        client: options.client,
        deadline: left,
        retries: options.meter.retries.unwrap_or(MOST_RETRIES),
        until: within_clock(until),
        ahead: options.ahead,
        strict: options.strict,
        expected: expected.as_slice(),
        is_protected: options.meter.security.is_some(),
    };
    let timeout = options.meter.timeout;
    let told = run_poll_of(host, &polling, guards, timeout, output, progress);
    drop(expected);
    told
}

/// Polls the meter, in parts if that is asked for.
fn poll_by<
    'a,
    H: Net + Files<File = File> + Clock + AllocGlobal + RandomSource,
    O: Output,
    P: Write + CountsOctets + Drop,
>(
    host: &H,
    options: &PollOptions<'a>,
    output: &mut O,
    progress: &RefCell<P>,
) -> Result<(), Fault<'a>> {
    let told = match options.rows {
        Some(rows) => poll_in_parts(host, options, rows, output, progress),
        None => poll_until(host, options, None, output, progress),
    };
    match told {
        Err(Fault::Overdue(place, _)) => Err(Fault::Overdue(place, options.deadline)),
        told => told,
    }
}

/// Polls the meter, and shows on the errors how many octets have come.
#[inline(never)]
fn poll_watched<
    'a,
    H: Net + Files<File = File> + Clock + AllocGlobal + RandomSource,
    O: Output,
    E: Write,
>(
    host: &H,
    options: &PollOptions<'a>,
    showing: Showing,
    output: &mut O,
    errors: &mut E,
) -> Result<(), Fault<'a>> {
    let progress = RefCell::new(OctetProgress::new(host, host.alloc(), errors, showing));
    let told = poll_by(host, options, output, &progress);
    if let Ok(mut progress) = progress.try_borrow_mut() {
        progress.end();
    }
    drop(progress);
    told
}

/// Appends a second of a meter's clock to the minute, as `2026-11-26 00:15`.
fn append_minute(text: &mut Vec<u8>, second: u32) -> Result<(), AllocError> {
    append_second(text, second)?;
    text.truncate(16);
    if let Some(separator) = text.get_mut(10) {
        *separator = b' ';
    }
    Ok(())
}

/// Appends the closing line: how many rows are new, and from when to when.
fn append_news(
    alloc: Global,
    line: &mut Vec<u8>,
    count: u64,
    clocks: Option<(u32, u32)>,
) -> Result<(), AllocError> {
    let word: &[u8] = if count == 1 {
        b" new row"
    } else {
        b" new rows"
    };
    let mut first = Vec::new(alloc);
    let mut last = Vec::new(alloc);
    if let Some((begin, end)) = clocks {
        append_minute(&mut first, begin)?;
        append_minute(&mut last, end)?;
    }
    append_closing(line, count, word, first.as_slice(), last.as_slice())
}

/// Prints the closing line. Errors in writing are ignored.
#[inline(never)]
fn put_news<E: Write>(alloc: Global, count: u64, clocks: Option<(u32, u32)>, errors: &mut E) {
    let mut line = Vec::new(alloc);
    if append_news(alloc, &mut line, count, clocks).is_ok() {
        let _written = errors.write_all(line.as_slice());
    }
}

/// Polls a meter, and prints its new rows in the wanted format. If somebody watches the errors, a closing line says how many they are.
/// With `--quiet` nothing goes to the errors except a fault.
#[inline(never)]
pub fn run_poll<
    'a,
    H: Net + Files<File = File> + Clock + AllocGlobal + RandomSource,
    W: Write,
    E: Write,
>(
    host: &H,
    options: &PollOptions<'a>,
    terminals: Terminals,
    output: &mut W,
    errors: &mut E,
) -> Result<(), Fault<'a>> {
    let mut rows = Named::nameless(host.alloc(), row_format(options.format), output);
    let showing = showing_for(terminals, options.quiet);
    let told = if options.quiet {
        poll_watched(host, options, showing, &mut rows, &mut io::sink())
    } else {
        poll_watched(host, options, showing, &mut rows, errors)
    };
    let (count, clocks) = (rows.lines(), rows.clocks());
    drop(rows);
    let has_parts = count > 0 && options.rows.is_some();
    if (told.is_ok() || has_parts) && terminals.errors && !options.quiet {
        put_news(host.alloc(), count, clocks, errors);
    }
    told
}
