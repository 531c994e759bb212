//! Polls the meters of a list, or requests attributes of them, or compares and corrects their clocks, side by side, once or again and
//! again.

ghost use Rattle.std.specs.Prelude.{◌≡◌, ◌≤◌, ◌<◌, ℤ, Option};
ghost use Rattle.dlms_collecting.specs.Clocks.{corrects};
ghost use Rattle.dlms_inquiries.specs.Clocks.{IsAhead};

use crate::descriptors::{open_files, polls_within};
use crate::fault::{CollectFault, FaultText};
use crate::list::{Defaults, Meter, read_list};
use crate::meter_file::path_of;
use crate::named::RowFormat;
use crate::report::{Tally, failed_lines, print_failures, print_tally};
use crate::round::{Round, RoundSetup, moment};
use crate::values::ValueText;
use dlms_filing::{FilePlace, Filing, Holding, Output};
use dlms_inquiries::{Comparison, is_off};
use dlms_pages::sync_folder;
use dlms_text::Name;
use std::fs::{File, Files};
use std::io::Write;
use std::net::Net;
use std::random::RandomSource;
use std::thread;
use std::time::{Clock, Duration, Instant};

/// The name of a path in the folder of the readings files; no file of this path is opened.
const PROBE: &str = "collect";

/// The name of a clock in a refusal.
const CLOCK_NAME: &str = "clock";

/// What is wanted of each meter.
#[derive(Clone, Copy)]
pub enum Purpose<'a> {
    /// Its new rows, which are filed in this folder, which has to exist.
    Poll(&'a str),
    /// The attributes of these names, which are written so, with commas between them.
    Get(&'a str, &'a [Name]),
    /// Its clock, beside the system's. One that is off by more than this many seconds is corrected, and then read again; without a number
    /// none is.
    Clock(Option<u32>),
}

impl<'a> Purpose<'a> {
    /// The folder of the readings files, if meters are polled.
    pub fn folder(&self) -> Option<&'a str> {
        match self {
            Purpose::Poll(folder) => Some(*folder),
            Purpose::Get(..) | Purpose::Clock(_) => None,
        }
    }

    /// Whether a clock that was found so is corrected.
    pub fn corrects(&self, found: &Comparison) -> bool
        ensures { (ahead : Option ℤ) × IsAhead found.now ahead
            × (result ≡ corrects self.now ahead) }
    {
        let ahead = found.ahead();
        match self {
            Purpose::Clock(Some(threshold)) => is_off(ahead, *threshold),
            _ => false,
        }
    }

    /// The names of the attributes, if some are requested.
    pub fn names(&self) -> &'a str {
        match self {
            Purpose::Poll(_) => "",
            Purpose::Get(names, _) => *names,
            Purpose::Clock(_) => CLOCK_NAME,
        }
    }
}

/// The meters of a collection, and whether they are polled or asked for attributes.
#[derive(Clone, Copy)]
pub struct Collection<'a> {
    /// The text of the list.
    pub list: &'a str,
    /// What is wanted of each.
    pub purpose: Purpose<'a>,
    /// The client of the meters whose lines name none.
    pub defaults: Defaults<'a>,
    /// How a row is printed, if meters are polled.
    pub format: RowFormat,
    /// How many polls may run at once; at least one does. Fewer do if the system does not allow that many open files.
    pub at_once: usize,
    /// For how many seconds a meter is talked to at most.
    pub deadline: u32,
    /// A new round begins this many seconds after the one before it began, or at its end if that is later. At 0 there is one round.
    pub every: u32,
    /// How many times a meter is polled again in a round whose connection was refused or lost, or that did not answer.
    pub retries: u32,
    /// Whether no progress and no closing line is printed.
    pub quiet: bool,
    /// The file for the list's lines of the meters that failed. It is replaced after each round.
    pub failed: Option<&'a str>,
}

/// The number of seats for this many meters.
fn seats_for(at_once: usize, meters: usize, files: Option<u64>) -> usize
    ensures few { result ≤ meters }
    ensures some { 0 < meters → 0 < result }
{
    let wanted = at_once.max(1).min(meters);
    match files {
        Some(files) => wanted.min(polls_within(files)),
        None => wanted,
    }
}

/// The seats of a collection. If the system does not allow as many as were wanted, a line says so. Errors in writing are ignored.
fn seats<E: Write>(collection: &Collection<'_>, meters: usize, errors: &mut E) -> usize {
    let files = open_files();
    let wanted = seats_for(collection.at_once, meters, None);
    let seats = seats_for(collection.at_once, meters, files);
    if seats < wanted {
        let files = files.unwrap_or(0);
        let _written = writeln!(
            errors,
            "{seats} at once: the system allows {files} open files (ulimit -n)"
        );
    }
    seats
}

/// Holds the file of the meters that failed, if one is wanted.
fn hold_failed<'a, F: Holding>(
    place: &mut F,
    collection: &Collection<'a>,
) -> Result<(), CollectFault<'a>> {
    let Some(file) = collection.failed else {
        return Ok(());
    };
    match place.hold(file) {
        Ok(()) => Ok(()),
        Err(error) => Err(CollectFault::System(file, error)),
    }
}

/// Puts the lines of the meters that failed into their file, if one is wanted.
fn put_failed<'a, F: Filing>(
    place: &mut F,
    collection: &Collection<'a>,
    text: &str,
) -> Result<(), CollectFault<'a>> {
    let file = collection.failed.unwrap_or("");
    if let Err(error) = place.lay(text) {
        return Err(CollectFault::System(file, error));
    }
    match place.put() {
        Ok(()) => Ok(()),
        Err(error) => Err(CollectFault::System(file, error)),
    }
}

/// Waits until the next round begins.
fn wait_for_round<R: Clock>(rt: &R, start: Instant, now: Instant, every: u32) {
    let passed = now.duration_since(start).as_secs();
    let left = u64::from(every).saturating_sub(passed);
    if left > 0 {
        thread::sleep(rt, Duration::from_secs(left));
    }
}

/// A path in the folder of the readings files, which is synced once; empty if there is no such folder.
fn probe_of<'a, R: Files<File = File> + AllocGlobal>(
    rt: &R,
    purpose: Purpose<'a>,
) -> Result<String, CollectFault<'a>> {
    let Some(folder) = purpose.folder() else {
        return Ok(String::new(rt.alloc()));
    };
    let probe = path_of(rt.alloc(), folder, PROBE)?;
    match sync_folder(rt, probe.as_str()) {
        Ok(()) => Ok(probe),
        Err(error) => Err(CollectFault::System(folder, error)),
    }
}

/// Runs a round, and reports its result.
fn run_round<
    'a,
    R: Net + Files<File = File> + Clock + AllocGlobal + RandomSource,
    O: Output,
    E: Write,
    T: FaultText + ValueText,
    F: Filing,
>(
    rt: &R,
    setup: &RoundSetup<'a, '_, T>,
    failed: &mut F,
    output: &mut O,
    errors: &mut E,
) -> Result<Tally, CollectFault<'a>> {
    let alloc = rt.alloc();
    let mut round = Round::new(rt, setup, output, errors)?;
    let ended = round.run();
    let tally = round.tally();
    let failures = round.into_failures();
    ended?;
    print_failures(
        alloc,
        setup.texts,
        setup.collection,
        setup.meters,
        failures.as_slice(),
        errors,
    )?;
    if !setup.collection.quiet {
        print_tally(&tally, setup.collection.purpose, errors);
    }
    let text = failed_lines(alloc, setup.meters, failures.as_slice())?;
    put_failed(failed, setup.collection, text.as_str())?;
    Ok(tally)
}

/// Runs one round, or one after the other, and returns the result of the last one.
fn run_rounds<
    'a,
    R: Net + Files<File = File> + Clock + AllocGlobal + RandomSource,
    O: Output,
    E: Write,
    T: FaultText + ValueText,
    F: Filing,
>(
    rt: &R,
    setup: &RoundSetup<'a, '_, T>,
    failed: &mut F,
    output: &mut O,
    errors: &mut E,
) -> Result<Tally, CollectFault<'a>> {
    let every = setup.collection.every;
    let mut tally = Tally::new();
    'rounds: for _ in 0..u64::MAX {
        let start = moment(rt)?;
        tally = run_round(rt, setup, failed, output, errors)?;
        if every == 0 {
            break;
        }
        wait_for_round(rt, start, moment(rt)?, every);
    }
    Ok(tally)
}

/// Polls the meters of a list side by side, and files the rows of each into `FOLDER/NAME.csv` by the rules of `poll`: the new rows are
/// printed in the wanted format before their file is put. Or requests attributes of them, or compares and corrects their clocks, and
/// prints the values or clocks as `texts` has them. A meter of which a text is expected shows it before. After a round a line on the
/// errors reports each meter that failed, with the text that `texts` has for it. Progress is shown on the errors if `is_terminal`: they
/// are a terminal, and the rows do not go to it. Returns the result of the last round.
pub fn collect<
    'a,
    R: Net + Files<File = File> + Clock + AllocGlobal + RandomSource,
    O: Output,
    E: Write,
    T: FaultText + ValueText,
>(
    rt: &R,
    collection: &Collection<'a>,
    texts: &T,
    output: &mut O,
    errors: &mut E,
    is_terminal: bool,
) -> Result<Tally, CollectFault<'a>> {
    let alloc = rt.alloc();
    let meters = match read_list(alloc, collection.list, &collection.defaults) {
        Ok(meters) => meters,
        Err(fault) => return Err(CollectFault::List(fault)),
    };
    let probe = probe_of(rt, collection.purpose)?;
    let mut failed = FilePlace::of(rt);
    hold_failed(&mut failed, collection)?;
    let seats = seats(collection, meters.len(), errors);
    let setup = RoundSetup {
        collection,
        texts,
        meters: meters.as_slice(),
        probe: probe.as_str(),
        seats,
        shows: is_terminal && !collection.quiet,
    };
    run_rounds(rt, &setup, &mut failed, output, errors)
}
