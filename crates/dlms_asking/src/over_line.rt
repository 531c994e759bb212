//! A request over the line to a meter: its octets explained, or its progress shown.

use crate::asking::{Attempt, Request, exchange};
use crate::explained_stream::{ExplainedStream, Explanation};
use crate::watched_line::{CountsOctets, OctetProgress, WatchedLine};
use dlms_call::CallFault;
use dlms_client::Route;
use dlms_faults::Fault;
use dlms_lines::{Dialling, MeterLine};
use dlms_printing::{Following, Progress, Showing, Unfollowed};
use std::alloc::Global;
use std::cell::RefCell;
use std::fs::File;
use std::io;
use std::io::{Read, Write};
use std::net::Net;
use std::rt::Files;
use std::time::Clock;

/// How the octets of a line of this route are explained, if that is asked for.
fn explanation(is_verbose: bool, route: Route) -> Explanation {
    match route {
        _ if !is_verbose => Explanation::Nothing,
        Route::Hdlc(..) => Explanation::Frames,
        Route::Tcp(..) => Explanation::Messages,
    }
}

/// Whether the line failed in an exchange.
fn is_of_line(talked: &Result<(), Fault<'_>>) -> bool {
    matches!(talked, Err(Fault::Call(_, CallFault::Io)))
}

/// The result of an exchange; if the line failed, with the system's message, if it has one.
fn with_system_error<'a>(
    alloc: Global,
    place: &'a str,
    talked: Result<(), Fault<'a>>,
    failure: Option<io::Error>,
) -> Result<(), Fault<'a>> {
    match failure {
        Some(error) if is_of_line(&talked) => {
            drop(talked);
            Err(Fault::of_system(alloc, place, &error))
        }
        _ => talked,
    }
}

/// Drops a line, in a frame of its own: what explains its bytes is large, and would be on the stack during the whole session.
#[inline(never)]
fn close<S: Drop, E>(line: ExplainedStream<'_, S, E>) {
    drop(line);
}

/// A line that keeps the system's error if it failed.
pub trait Failing {
    /// The error, if the line failed.
    fn error(&self) -> Option<io::Error>;
}

impl<H: Net + Files<File = File> + Clock + AllocGlobal> Failing for MeterLine<'_, H> {
    fn error(&self) -> Option<io::Error> {
        self.failure()
    }
}

impl<L: Failing, P> Failing for WatchedLine<'_, L, P> {
    fn error(&self) -> Option<io::Error> {
        self.line.error()
    }
}

/// Asks a meter over the line to it. What passes is explained on `explained` if that is asked for.
fn ask_over<
    'a,
    H: Clock + AllocGlobal,
    L: Read + Write + Failing + Drop,
    W: Write,
    X: Write,
    P: Following,
>(
    host: &H,
    attempt: Attempt<'_, 'a>,
    line: L,
    output: &mut W,
    explained: &mut X,
    progress: &mut P,
) -> Result<(), Fault<'a>> {
    let alloc = host.alloc();
    let asking = attempt.asking;
    let explanation = explanation(asking.verbose, attempt.plan.route);
    let mut line = match ExplainedStream::new(alloc, line, explanation, explained) {
        Ok(line) => line,
        Err(_) => {
            drop(attempt);
            return Err(Fault::MEMORY);
        }
    };
    let talked = exchange(host, attempt, &mut line, output, progress);
    let told = with_system_error(alloc, asking.meter.place, talked, line.stream.error());
    close(line);
    told
}

impl Attempt<'_, '_> {
    /// Whether the progress of the request is shown.
    fn showing(&self) -> Showing {
        match &*self.waiting {
            Some(Request::Profile(profile)) => profile.showing(),
            Some(Request::List { showing, .. }) => *showing,
            _ => Showing::Nothing,
        }
    }

    /// Whether the progress of the request is that of its octets.
    fn counts_octets(&self) -> bool {
        matches!(&*self.waiting, Some(Request::List { .. }))
    }
}

/// Asks a meter over the line to it, whose octets are counted.
fn ask_counted<
    'a,
    H: Clock + AllocGlobal,
    L: Read + Write + Failing + Drop,
    W: Write,
    P: CountsOctets + Drop,
>(
    host: &H,
    attempt: Attempt<'_, 'a>,
    line: L,
    output: &mut W,
    progress: &RefCell<P>,
) -> Result<(), Fault<'a>> {
    let line = WatchedLine { line, progress };
    ask_over(
        host,
        attempt,
        line,
        output,
        &mut io::sink(),
        &mut Unfollowed,
    )
}

/// Asks a meter over the line to it, and shows on standard error how many octets have come.
fn ask_with_octets<
    'a,
    H: Clock + AllocGlobal,
    L: Read + Write + Failing + Drop,
    W: Write,
    E: Write,
>(
    host: &H,
    attempt: Attempt<'_, 'a>,
    line: L,
    output: &mut W,
    errors: &mut E,
) -> Result<(), Fault<'a>> {
    let showing = attempt.showing();
    let progress = RefCell::new(OctetProgress::new(host, host.alloc(), errors, showing));
    let told = ask_counted(host, attempt, line, output, &progress);
    if let Ok(mut progress) = progress.try_borrow_mut() {
        progress.end();
    }
    drop(progress);
    told
}

/// Asks a meter over the line to it, and shows the progress on standard error.
fn ask_with_progress<
    'a,
    H: Clock + AllocGlobal,
    L: Read + Write + Failing + Drop,
    W: Write,
    E: Write,
>(
    host: &H,
    attempt: Attempt<'_, 'a>,
    line: L,
    output: &mut W,
    errors: &mut E,
) -> Result<(), Fault<'a>> {
    let mut progress = Progress::new(host, host.alloc(), errors, attempt.showing());
    let told = ask_over(host, attempt, line, output, &mut io::sink(), &mut progress);
    drop(progress);
    told
}

/// Asks a meter over the line to it. The octets that pass are explained on standard error if that is asked for; otherwise the progress
/// is shown there.
pub fn ask_on<'a, H: Clock + AllocGlobal, L: Read + Write + Failing + Drop, W: Write, E: Write>(
    host: &H,
    attempt: Attempt<'_, 'a>,
    line: L,
    output: &mut W,
    errors: &mut E,
) -> Result<(), Fault<'a>> {
    if attempt.asking.verbose {
        ask_over(host, attempt, line, output, errors, &mut Unfollowed)
    } else if attempt.counts_octets() {
        ask_with_octets(host, attempt, line, output, errors)
    } else {
        ask_with_progress(host, attempt, line, output, errors)
    }
}
