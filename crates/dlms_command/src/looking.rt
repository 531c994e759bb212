//! What only looks: at frames, at a meter's file, at a curve of readings.

use crate::outcome::showing_for;
use crate::report::run_report;
use crate::telegrams::{explain_telegrams, receiver_for};
use crate::{Fault, Terminals, buffer_input, buffer_output, result_with_flush};
use dlms_asking::{LAST_OF_DAY, MIDNIGHT, second_in, stations_of};
use dlms_data::LAST_SECOND;
use dlms_explain::{ExplainFault, Form as ExplainForm, Layout, Painted, explain_with};
use dlms_keys::Stations;
use dlms_plot::{Choice, Form, Quantity, plot_chosen};
use dlms_printing::{BytesSeen, Progress, Showing};
use dlms_security::NoKeys;
use dlms_show::{Curve, ShowFault, show_file, show_file_as_json};
use dlms_words::{ColorChoice, ExplainOptions, OutputFormat, PlotOptions, ShowOptions};
use std::alloc::Global;
use std::fs::File;
use std::io::{BufRead, Read, Write};
use std::net::Net;
use std::rt::Files;
use std::time::Clock;
use std::{fs, io};

/// The name of the input in messages, and the file name that means the input.
pub const INPUT: &str = "standard input";

const INPUT_NAME: &str = "-";

/// The fewest bytes of a file whose progress is shown.
const LEAST_SHOWN: u64 = 1_048_576;

/// The file's name, unless it is the one that means standard input.
pub fn named_file(file: Option<&str>) -> Option<&str> {
    file.filter(|name| *name != INPUT_NAME)
}

/// How an explanation is written, who looks at it, and the keys that open ciphered APDUs.
#[derive(Clone, Copy)]
struct Looking<'k> {
    form: ExplainForm,
    is_colored: bool,
    showing: Showing,
    keys: Option<&'k Stations>,
}

/// How these options want an explanation written for these terminals.
fn looking_by<'k>(
    options: &ExplainOptions<'_>,
    terminals: Terminals,
    keys: Option<&'k Stations>,
) -> Looking<'k> {
    Looking {
        form: ExplainForm {
            layout: match (options.format, options.short) {
                (OutputFormat::Json, _) => Layout::Json,
                (OutputFormat::Text, true) => Layout::Short,
                (OutputFormat::Text, false) => Layout::Full,
            },
            raw: options.raw,
            hex: options.hex,
        },
        is_colored: match options.color {
            ColorChoice::Auto => terminals.output && !terminals.is_plain,
            ColorChoice::Always => true,
            ColorChoice::Never => false,
        },
        showing: showing_for(terminals, options.quiet),
        keys,
    }
}

/// Explains the frames or the telegrams in a file, or on the input if no file is given; or makes a report of it.
#[inline(never)]
pub fn run_explain<
    'a,
    H: Net + Files<File = File> + Clock + AllocGlobal,
    R: Read + Drop,
    W: Write,
    E: Write,
>(
    host: &H,
    options: &ExplainOptions<'a>,
    input: R,
    output: &mut W,
    errors: &mut E,
    terminals: Terminals,
) -> Result<(), Fault<'a>> {
    if let Some(report) = options.html {
        return run_report(host, options, report, input, errors);
    }
    let file = options.file;
    let Some(keys) = options.keys else {
        let looking = looking_by(options, terminals, None);
        return explain_file(host, looking, file, input, output, errors);
    };
    let stations = stations_of(host, keys)?;
    let looking = looking_by(options, terminals, Some(&stations));
    let told = explain_file(host, looking, file, input, output, errors);
    drop(stations);
    told
}

/// The same, with the keys.
#[inline(never)]
fn explain_file<
    'a,
    H: Net + Files<File = File> + Clock + AllocGlobal,
    R: Read + Drop,
    W: Write,
    E: Write,
>(
    host: &H,
    looking: Looking<'_>,
    file: Option<&'a str>,
    input: R,
    output: &mut W,
    errors: &mut E,
) -> Result<(), Fault<'a>> {
    let Some(file) = named_file(file) else {
        let source = Source {
            place: INPUT,
            all: 0,
            reader: input,
        };
        return explain_source(host, looking, source, output, errors);
    };
    match fs::open(host, file) {
        Ok(opened) => {
            let all = match opened.metadata() {
                Ok(metadata) => metadata.len(),
                Err(_) => 0,
            };
            let source = Source {
                place: file,
                all,
                reader: opened,
            };
            explain_source(host, looking, source, output, errors)
        }
        Err(error) => Err(Fault::of_system(host.alloc(), file, &error)),
    }
}

/// An input to explain: its name for messages, its number of bytes if that is known, and its reader.
#[derive(Drop)]
struct Source<'a, R> {
    place: &'a str,
    all: u64,
    reader: R,
}

/// Explains what a source has: telegrams if it begins with some, otherwise frames.
fn explain_source<
    'a,
    H: Net + Files<File = File> + Clock + AllocGlobal,
    R: Read + Drop,
    W: Write,
    E: Write,
>(
    host: &H,
    looking: Looking<'_>,
    source: Source<'a, R>,
    output: &mut W,
    errors: &mut E,
) -> Result<(), Fault<'a>> {
    let alloc = host.alloc();
    let Source { place, all, reader } = source;
    let mut reader = buffer_input(alloc, reader)?;
    let receiver = match reader.fill_buf() {
        Ok(front) => receiver_for(looking.keys, front),
        Err(_) => None,
    };
    if let Some(receiver) = receiver {
        let format = match looking.form.layout {
            Layout::Json => OutputFormat::Json,
            Layout::Short | Layout::Full => OutputFormat::Text,
        };
        let told = explain_telegrams(host, receiver, format, place, &mut reader, output, errors);
        drop(reader);
        return told;
    }
    let showing = if all < LEAST_SHOWN {
        Showing::Nothing
    } else {
        looking.showing
    };
    let mut followed = Followed {
        reader,
        seen: BytesSeen { done: 0, all },
        progress: Progress::new(host, alloc, errors, showing),
    };
    let told = explain_frames(alloc, looking, place, &mut followed, output);
    drop(followed);
    told
}

/// A reader whose progress is shown until its end.
#[derive(Drop)]
struct Followed<'e, R: Drop, H, E> {
    reader: R,
    seen: BytesSeen,
    progress: Progress<'e, H, E>,
}

impl<R: Read + Drop, H: Clock, E: Write> Read for Followed<'_, R, H, E> {
    fn read(&mut self, buf: &mut [u8]) -> io::Result<usize> {
        let count = self.reader.read(buf)?;
        if count == 0 {
            self.progress.clear();
            return Ok(0);
        }
        self.seen.done = self.seen.done.saturating_add(count as u64);
        self.progress.show(&self.seen);
        Ok(count)
    }
}

/// Explains the frames of a reader. The explanation of a line is written before the next line is waited for.
fn explain_frames<'a, R: Read, W: Write>(
    alloc: Global,
    looking: Looking<'_>,
    place: &'a str,
    reader: &mut R,
    output: &mut W,
) -> Result<(), Fault<'a>> {
    let form = looking.form;
    let mut painted = Painted::new(alloc, output, form.layout, looking.is_colored);
    let explained = match looking.keys {
        None => explain_with(alloc, form, NoKeys, reader, &mut painted),
        Some(stations) => explain_with(alloc, form, stations, reader, &mut painted),
    };
    let explained = match explained {
        Ok(()) => Ok(()),
        Err(ExplainFault::Memory) => Err(Fault::MEMORY),
        Err(ExplainFault::Input) => Err(Fault::Input(place)),
        Err(ExplainFault::Output) => Err(Fault::Output),
    };
    let told = result_with_flush(explained, painted.flush());
    drop(painted);
    told
}

/// Shows the contents of a meter's file, and the curve of its load profile if it is asked for.
#[inline(never)]
pub fn run_show<'a, H: Files<File = File> + AllocGlobal, W: Write + Drop>(
    host: &H,
    options: &ShowOptions<'a>,
    output: W,
) -> Result<(), Fault<'a>> {
    let file = options.file;
    let mut writer = buffer_output(host.alloc(), output)?;
    let curve = if options.plot {
        Curve::Text
    } else {
        Curve::None
    };
    let shown = match options.format {
        OutputFormat::Json => show_file_as_json(host, file, &mut writer),
        OutputFormat::Text => show_file(host, file, curve, &mut writer),
    };
    let shown = match shown {
        Ok(()) => Ok(()),
        Err(ShowFault::File(error)) => Err(Fault::of_system(host.alloc(), file, &error)),
        Err(ShowFault::Memory) => Err(Fault::MEMORY),
        Err(ShowFault::Output) => Err(Fault::Output),
    };
    result_with_flush(shown, writer.flush())
}

/// The text that was read at a place.
fn text_at<'a>(
    alloc: Global,
    place: &'a str,
    read: io::Result<String>,
) -> Result<(&'a str, String), Fault<'a>> {
    match read {
        Ok(text) => Ok((place, text)),
        Err(error) => Err(Fault::of_system(alloc, place, &error)),
    }
}

/// The text of a readings file, or of the input if its name says so, and its name for messages.
fn readings_text<'a, H: Files + AllocGlobal, R: Read + Drop>(
    host: &H,
    readings: &'a str,
    input: R,
) -> Result<(&'a str, String), Fault<'a>> {
    match named_file(Some(readings)) {
        Some(file) => {
            let text = text_at(host.alloc(), file, fs::read_to_string(host, file));
            drop(input);
            text
        }
        None => text_at(host.alloc(), INPUT, io::read_to_string(host.alloc(), input)),
    }
}

/// The second of the clock that a text names, or this one if there is no text.
fn second_or<'a>(text: Option<&'a str>, time: &str, other: u32) -> Result<u32, Fault<'a>> {
    match text {
        Some(text) => second_in(text, time).ok_or(Fault::Time(text)),
        None => Ok(other),
    }
}

/// The register and the rows that these options choose.
fn choice_by<'a>(options: &PlotOptions<'a>) -> Result<Choice, Fault<'a>> {
    let quantity = match options.register {
        Some(register) => Some(Quantity::named(register).ok_or(Fault::Register(register))?),
        None => None,
    };
    Ok(Choice {
        quantity,
        from: second_or(options.from, MIDNIGHT, 0)?,
        to: second_or(options.to, LAST_OF_DAY, LAST_SECOND)?,
    })
}

/// Plots the load profile of the readings in a text, which comes from this place.
fn plot_text<'a, W: Write + Drop>(
    alloc: Global,
    place: &'a str,
    text: &str,
    choice: &Choice,
    form: Form,
    output: W,
) -> Result<(), Fault<'a>> {
    let mut writer = buffer_output(alloc, output)?;
    let plotted = match plot_chosen(alloc, text, choice, form, &mut writer) {
        Ok(()) => Ok(()),
        Err(fault) => Err(Fault::of_plot(place, fault)),
    };
    result_with_flush(plotted, writer.flush())
}

/// Plots the load profile of a readings file.
#[inline(never)]
pub fn run_plot<'a, H: Files + AllocGlobal, R: Read + Drop, W: Write + Drop>(
    host: &H,
    options: &PlotOptions<'a>,
    input: R,
    output: W,
) -> Result<(), Fault<'a>> {
    let choice = choice_by(options)?;
    let (place, text) = readings_text(host, options.readings, input)?;
    let form = match (options.format, options.svg) {
        (OutputFormat::Json, _) => Form::Json,
        (OutputFormat::Text, true) => Form::Svg,
        (OutputFormat::Text, false) => Form::Text,
    };
    plot_text(host.alloc(), place, text.as_str(), &choice, form, output)
}
