//! The program's jobs, by its arguments, over any three streams.
#![tactic(auto)]

ghost use Rattle.std.specs.Prelude.{◌≡◌, ◌≢◌, ◌⊎◌, [], map, IfOk, MatchResult, is_some, true};
ghost use Rattle.clap.specs.Words.{fault_of, subcommand_of};
ghost use Rattle.dlms_words.specs.Grammar.{dlms};
ghost use Rattle.dlms_words.specs.Words.{AsksBoth, IsClear, IsInvalid};

use clap::error::ErrorKind;
use dlms_asking::{
    ask_for_clock, ask_for_profile, ask_to_act, ask_to_get, ask_to_list, ask_to_set, run_keys,
};
use dlms_filing::FilePlace;
use dlms_loopback::{loopback, sockets};
use dlms_meter::Meter;
use dlms_pages::{FilePages, MemoryPages, Pages};
use dlms_printing::put_fault;
use dlms_program::{Buffered, Sink, Source, replay};
use dlms_serving::{Carrier, Serving, Times, serve, serve_line};
use dlms_store::{AddFault, OpenFault, PAGES};
use dlms_words::{FormatOptions, Job, LoopbackOptions, ServeOptions, job};
use std::alloc::Global;
use std::cell::RefCell;
use std::fs::File;
use std::io::{BufReader, BufWriter, Read, Write};
use std::net::Net;
use std::os::fd::RawFd;
use std::random::RandomSource;
use std::rt::Files;
use std::time::Clock;
use std::{fs, io};

mod callers;
mod demo;
mod expected;
mod filed;
mod hearing;
mod introduced;
mod listening;
mod looking;
mod meters;
mod named;
mod occupant;
mod outcome;
mod parts;
mod polled;
mod report;
mod skipped;
mod streams;
mod telegrams;
mod watched;

pub use dlms_faults::Fault;
use listening::run_listen;
use looking::{run_explain, run_plot, run_show};
use meters::run_collect;
use named::{print_completions, print_manual, print_names};
use occupant::refuse_occupied;
use outcome::{outcome, prints_json, showing_for};
use polled::run_poll;
use streams::{Input, Output, flush};
use watched::Watched;

/// How many bytes are read or written at a time.
const BUFFER: usize = 65_536;

/// The address that a meter listens on by default.
const LISTEN: &str = "127.0.0.1:4059";

/// The place of the meter that a loopback polls.
const LOOPBACK: &str = "the loopback";

/// The name of the output in messages.
const OUTPUT: &str = "standard output";

/// The descriptor of standard error (POSIX, STDERR_FILENO).
const STANDARD_ERROR: RawFd = 2;

/// Which of the streams are terminals.
#[derive(Clone, Copy, PartialEq, Eq)]
pub struct Terminals {
    pub output: bool,
    pub errors: bool,
    /// Whether the user wants no colors on them (the environment variable NO_COLOR is set and not empty).
    pub is_plain: bool,
}

/// The status of a run that came to its end.
pub const DONE: u8 = 0;

/// The status of a run that a fault ended.
pub const FAULT: u8 = 1;

/// The status of a run whose words ask for nothing that the program does, and of one that asks for help.
pub const USAGE: u8 = 2;

/// Says what was made.
fn report_format<W: Write>(output: &mut W, day: Option<u32>) -> io::Result<()> {
    writeln!(output, "formatted {PAGES} pages")?;
    if let Some(begins) = day {
        let rows = demo::rows_of(begins);
        writeln!(output, "captured {rows} rows")?;
    }
    Ok(())
}

/// Lets a day pass on a new meter in a file.
fn pass_a_day<'a, P: Pages>(
    meter: &mut Meter<P>,
    file: &'a str,
    begins: u32,
) -> Result<(), Fault<'a>> {
    match demo::pass(meter, begins) {
        Ok(()) => Ok(()),
        Err(AddFault::Exhausted) => Err(Fault::Open(Some(file), OpenFault::Exhausted)),
        Err(_) => Err(Fault::Open(Some(file), OpenFault::Device)),
    }
}

/// Lets a day pass on a new meter if that is asked for, and says why there is no meter if none was made.
fn pass_where_asked<'a, P: Pages>(
    made: &mut Result<Meter<P>, (P, OpenFault)>,
    file: &'a str,
    day: Option<u32>,
) -> Result<(), Fault<'a>> {
    match made {
        Ok(meter) => match day {
            Some(begins) => pass_a_day(meter, file, begins),
            None => Ok(()),
        },
        Err(failed) => Err(Fault::Open(Some(file), failed.1)),
    }
}

/// Closes a meter that was made or recovered, and says whether its device has failed.
#[inline(never)]
fn has_failed<P: Pages + Drop>(made: Result<Meter<P>, (P, OpenFault)>) -> bool {
    match made {
        Ok(meter) => meter.close().faults() > 0,
        Err((pages, _)) => {
            drop(pages);
            false
        }
    }
}

/// Makes a new meter in a file, with a day of captures if one is asked for. A file that holds something is refused, unless it is a meter
/// and `force` is set.
#[inline(never)]
fn run_format<'a, H: Files<File = File> + Clock + AllocGlobal, W: Write>(
    host: &H,
    options: &FormatOptions<'a>,
    output: &mut W,
) -> Result<(), Fault<'a>> {
    let file = options.file;
    let day = demo::day_of(host, options)?;
    if let Err(error) = refuse_occupied(host, file, options.force) {
        return Err(Fault::of_system(host.alloc(), file, &error));
    }
    let pages = match FilePages::create(host, file, PAGES) {
        Ok(pages) => pages,
        Err(error) => return Err(Fault::of_system(host.alloc(), file, &error)),
    };
    let mut formatted = Meter::format(host.alloc(), pages);
    match pass_where_asked(&mut formatted, file, day) {
        Ok(()) => {}
        Err(fault) => return Err(fault),
    }
    if has_failed(formatted) {
        return Err(Fault::Open(Some(file), OpenFault::Device));
    }
    match report_format(output, day) {
        Ok(()) => Ok(()),
        Err(_) => Err(Fault::Output),
    }
}

/// Closes the meter that a replay has left, if it has left one, and says whether its device has failed.
#[inline(never)]
fn leaves_a_fault<P: Pages + Drop>(meter: &mut Option<Meter<P>>) -> bool {
    match meter.take() {
        Some(meter) => meter.close().faults() > 0,
        None => false,
    }
}

/// Replays the input on a meter, and closes it.
fn replayed_on<'f, H: AllocGlobal, R: Source, W: Sink, P: Pages + Drop>(
    host: &H,
    file: Option<&'f str>,
    input: &mut R,
    output: &mut W,
    meter: &mut Option<Meter<P>>,
) -> Result<(), Fault<'f>>
    requires { is_some meter.old ≡ true }
{
    let replayed = replay(host.alloc(), input, output, meter);
    let has_failed = leaves_a_fault(meter);
    if let Err(fault) = replayed {
        return Err(Fault::Replay(fault));
    }
    if has_failed {
        return Err(Fault::Open(file, OpenFault::Device));
    }
    Ok(())
}

/// Replays the input on the meter that was made or recovered, and closes it.
#[inline(never)]
fn run_on<'f, H: AllocGlobal, R: Source, W: Sink, P: Pages + Drop>(
    host: &H,
    file: Option<&'f str>,
    input: &mut R,
    output: &mut W,
    made: Result<Meter<P>, (P, OpenFault)>,
) -> Result<(), Fault<'f>> {
    let mut meter = match made {
        Ok(meter) => Some(meter),
        Err((pages, fault)) => {
            drop(pages);
            return Err(Fault::Open(file, fault));
        }
    };
    replayed_on(host, file, input, output, &mut meter)
}

/// The end of a run, and that of its output.
fn result_with_flush<'a>(
    run: Result<(), Fault<'a>>,
    flushed: io::Result<()>,
) -> Result<(), Fault<'a>> {
    run?;
    match flushed {
        Ok(()) => Ok(()),
        Err(_) => Err(Fault::Output),
    }
}

/// The input, through a buffer.
fn buffer_input<R: Read + Drop>(alloc: Global, input: R) -> Result<BufReader<R>, Fault<'static>> {
    match BufReader::with_capacity(alloc, BUFFER, input) {
        Ok(reader) => Ok(reader),
        Err(_) => Err(Fault::MEMORY),
    }
}

/// The output, through a buffer.
fn buffer_output<W: Write + Drop>(
    alloc: Global,
    output: W,
) -> Result<BufWriter<W>, Fault<'static>> {
    match BufWriter::with_capacity(alloc, BUFFER, output) {
        Ok(writer) => Ok(writer),
        Err(_) => Err(Fault::MEMORY),
    }
}

/// The input through a buffer, if a meter was recovered to replay it on.
fn buffer_input_for<'a, P: Pages, R: Read + Drop>(
    alloc: Global,
    recovered: &Result<Meter<P>, (P, OpenFault)>,
    file: &'a str,
    input: R,
) -> Result<BufReader<R>, Fault<'a>> {
    match recovered {
        Ok(_) => buffer_input(alloc, input),
        Err(failed) => {
            drop(input);
            Err(Fault::Open(Some(file), failed.1))
        }
    }
}

/// Replays the input on the meter in a file. Each answer goes out as soon as it is made.
#[inline(never)]
fn run_replay_file<'a, H: Files<File = File> + AllocGlobal, R: Read + Drop, W: Write>(
    host: &H,
    file: &'a str,
    input: R,
    output: &mut W,
) -> Result<(), Fault<'a>> {
    let pages = match FilePages::open(host, file, PAGES) {
        Ok(pages) => pages,
        Err(error) => return Err(Fault::of_system(host.alloc(), file, &error)),
    };
    let recovered = Meter::recover(host.alloc(), pages);
    let reader = match buffer_input_for(host.alloc(), &recovered, file, input) {
        Ok(reader) => reader,
        Err(fault) => return Err(fault),
    };
    let mut input = Buffered { reader };
    let replayed = run_on(host, Some(file), &mut input, output, recovered);
    result_with_flush(replayed, output.flush())
}

/// Replays the input on a new meter in memory. The answers go out through a buffer, before more input is waited for.
#[inline(never)]
fn run_replay_memory<H: AllocGlobal, R: Read + Drop, W: Write + Drop>(
    host: &H,
    input: R,
    output: W,
) -> Result<(), Fault<'static>> {
    let reader = buffer_input(host.alloc(), input)?;
    let writer = buffer_output(host.alloc(), output)?;
    let output = RefCell::new(writer);
    let Ok(pages) = MemoryPages::new(host.alloc(), PAGES) else {
        return Err(Fault::MEMORY);
    };
    let formatted = Meter::format(host.alloc(), pages);
    let mut input = Input::new(reader, &output);
    let replayed = run_on(host, None, &mut input, &mut Output(&output), formatted);
    result_with_flush(replayed, flush(&output))
}

/// Polls a meter in memory over a socket, into the file if one is given.
#[inline(never)]
fn run_loopback<'a, H: Net + Files<File = File> + AllocGlobal, W: Write>(
    host: &H,
    options: &LoopbackOptions<'a>,
    output: &mut W,
) -> Result<(), Fault<'a>> {
    let file = options.readings;
    let mut told = None;
    let mut place = FilePlace::of(host);
    let mut line = sockets(host);
    let looped = loopback(
        host.alloc(),
        &mut place,
        &mut line,
        file,
        options.stops,
        output,
        &mut told,
    );
    drop(line);
    drop(place);
    match (looped, file, told) {
        (Ok(()), _, _) => Ok(()),
        (Err(_), Some(file), Some(error)) => Err(Fault::of_system(host.alloc(), file, &error)),
        (Err(fault), file, _) => Err(Fault::of_poll(LOOPBACK, file, fault)),
    }
}

/// Serves a meter on a TCP port, or on a serial line if `on_line` is set.
#[inline(never)]
fn run_meter<'a, H: Net + Files<File = File> + Clock + AllocGlobal, P: Pages, W: Write, E: Write>(
    host: &H,
    file: &'a str,
    meter: &mut Meter<P>,
    serving: &Serving<'a>,
    on_line: bool,
    output: &mut W,
    errors: &mut E,
) -> Result<(), Fault<'a>> {
    let second = meter.state().last();
    if !serving.quiet {
        let _said = writeln!(errors, "recovered {file} at second {second}");
    }
    let served = if on_line {
        serve_line(host, meter, serving, output, errors)
    } else {
        serve(host, meter, serving, output, errors)
    };
    match served {
        Ok(()) => Ok(()),
        Err(fault) => Err(Fault::of_serve(host.alloc(), file, fault)),
    }
}

/// The place, the carrier and the limits that these options give a meter.
fn serving_by<'a>(options: &ServeOptions<'a>) -> Serving<'a> {
    Serving {
        address: options.line.unwrap_or(options.listen.unwrap_or(LISTEN)),
        carrier: if options.wrapper {
            Carrier::Wrapper
        } else {
            Carrier::Hdlc
        },
        load: options.load,
        tick: options.tick,
        times: Times {
            inactivity: options.inactivity,
            idle: options.idle,
            longest: options.turn,
        },
        quiet: options.quiet,
        errors: Some(STANDARD_ERROR),
    }
}

/// Recovers the meter in a file, and serves it on a TCP port, or on a serial line if `on_line` is set.
#[inline(never)]
fn run_serve<'a, H: Net + Files<File = File> + Clock + AllocGlobal, W: Write, E: Write>(
    host: &H,
    options: &ServeOptions<'a>,
    output: &mut W,
    errors: &mut E,
) -> Result<(), Fault<'a>> {
    let file = options.file;
    let serving = serving_by(options);
    let on_line = options.line.is_some();
    let pages = match FilePages::open(host, file, PAGES) {
        Ok(pages) => pages,
        Err(error) => return Err(Fault::of_system(host.alloc(), file, &error)),
    };
    let mut recovered = Meter::recover(host.alloc(), pages);
    let served = match &mut recovered {
        Ok(meter) => run_meter(host, file, meter, &serving, on_line, output, errors),
        Err(failed) => Err(Fault::Open(Some(file), failed.1)),
    };
    let _has_failed = has_failed(recovered);
    served
}

/// The status of a run that has ended; a fault is reported among the errors, as JSON if `is_json` is set.
#[inline(never)]
pub fn finish<E: Write>(
    alloc: Global,
    is_json: bool,
    ended: Result<(), Fault<'_>>,
    errors: &mut E,
) -> io::Result<u8>
    ensures { IfOk result (λ status. MatchResult ended.entry (λ _. status ≡ DONE)
        (λ _. status ≡ FAULT)) }
{
    match ended {
        Ok(()) => Ok(DONE),
        Err(fault) => {
            let told = put_fault(alloc, &fault, is_json, errors);
            drop(fault);
            told?;
            Ok(FAULT)
        }
    }
}

/// How a job ended that reads no input.
fn unread<'a, R: Drop>(ended: Result<(), Fault<'a>>, input: R) -> Result<(), Fault<'a>> {
    drop(input);
    ended
}

/// Does a job.
#[inline(never)]
fn run_job<
    'a,
    H: Net + Files<File = File> + Clock + AllocGlobal + RandomSource,
    R: Read + Drop,
    W: Write,
    E: Write,
>(
    host: &H,
    job: Job<'a>,
    input: R,
    output: &mut W,
    errors: &mut E,
    terminals: Terminals,
) -> Result<(), Fault<'a>> {
    match job {
        Job::Format(options) => unread(run_format(host, &options, output), input),
        Job::Replay(Some(file)) => run_replay_file(host, file, input, output),
        Job::Replay(None) => run_replay_memory(host, input, output),
        Job::Loopback(options) => unread(run_loopback(host, &options, output), input),
        Job::Serve(options) => unread(run_serve(host, &options, output, errors), input),
        Job::Listen(options) => run_listen(host, &options, input, output, errors),
        Job::Poll(options) => { unread(run_poll(host, &options, terminals, output, errors), input) }
        Job::Collect(options) => {
            let is_terminal = terminals.errors && !terminals.output;
            unread(
                run_collect(host, &options, is_terminal, output, errors),
                input,
            )
        }
        Job::Explain(options) => run_explain(host, &options, input, output, errors, terminals),
        Job::Get(options) => unread(ask_to_get(host, &options, output, errors), input),
        Job::List(options) => {
            let showing = showing_for(terminals, options.quiet);
            unread(ask_to_list(host, &options, showing, output, errors), input)
        }
        Job::Profile(options) => {
            let showing = showing_for(terminals, options.quiet);
            unread(
                ask_for_profile(host, &options, showing, output, errors),
                input,
            )
        }
        Job::Clock(options) => unread(ask_for_clock(host, &options, output, errors), input),
        Job::Set(options) => unread(ask_to_set(host, &options, output, errors), input),
        Job::Act(options) => unread(ask_to_act(host, &options, output, errors), input),
        Job::Show(options) => unread(run_show(host, &options, output), input),
        Job::Plot(options) => run_plot(host, &options, input, output),
        Job::Keys(options) => unread(run_keys(host, &options, output), input),
        Job::Names(word) => unread(print_names(host.alloc(), word, output), input),
        Job::Man => unread(print_manual(host.alloc(), output), input),
        Job::Completions(shell) => { unread(print_completions(host.alloc(), shell, output), input) }
    }
}

/// Does the job that the arguments name (the first is the program's own name), and returns its status. A replay reads the input,
/// output is printed on the output, and a fault's name and the help go to the errors, with the progress if they are a terminal. An Err
/// comes if the errors can't be written.
pub fn run<
    H: Net + Files<File = File> + Clock + AllocGlobal + RandomSource,
    R: Read + Drop,
    W: Write,
    E: Write,
>(
    host: &H,
    words: &[&str],
    input: R,
    output: &mut W,
    errors: &mut E,
    terminals: Terminals,
) -> io::Result<u8>
    // Arguments that ask for nothing give the status 2 (or 1 if memory runs out), and no others give 2: those that clap refuses, those with
    // two options that exclude each other, and those with an invalid address or word.
    ensures done { IfOk result (λ status. status ≡ DONE
        → (fault_of dlms (map (λ word. word.now) words.now) ≡ [])
        × IsClear (subcommand_of dlms (map (λ word. word.now) words.now))) }
    ensures usage { IfOk result (λ status. status ≡ USAGE
        → (fault_of dlms (map (λ word. word.now) words.now) ≢ [])
        ⊎ AsksBoth (subcommand_of dlms (map (λ word. word.now) words.now))
        ⊎ IsInvalid (subcommand_of dlms (map (λ word. word.now) words.now))) }
{
    match job(host.alloc(), words) {
        Ok(job) => {
            let mut output = Watched::new(output);
            let ended = run_job(host, job, input, &mut output, errors, terminals);
            let ended = outcome(host.alloc(), &job, ended, output.failure());
            finish(host.alloc(), prints_json(&job), ended, errors)
        }
        Err(error) if error.kind() == ErrorKind::OutOfMemory => {
            finish(host.alloc(), false, Err(Fault::MEMORY), errors)
        }
        Err(error) => {
            write!(errors, "{error}")?;
            Ok(USAGE)
        }
    }
}
