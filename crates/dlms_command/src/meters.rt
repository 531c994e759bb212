//! Many meters, by a list.

use crate::Fault;
use dlms_asking::{append_correction, append_csv, correction_word};
use dlms_collecting::{
    CollectFault, Collection, Defaults, FailedMeter, FaultText, ListFault, MeterClock,
    MeterFailure, MeterValue, Purpose, Refusal, RowFormat, ValueText, collect,
};
use dlms_printing::{Teller, append_fault_json};
use dlms_text::{Name, written_name};
use dlms_words::{CollectOptions, OutputFormat, ValueFormat};
use std::alloc::{AllocError, Global};
use std::fs;
use std::fs::{File, Files};
use std::io::Write;
use std::net::Net;
use std::random::RandomSource;
use std::time::Clock;

/// The most attributes that are requested of a meter.
const MOST_NAMES: usize = 16;

/// The messages of `poll` and `get`, and values or clocks, as text or as JSON.
#[derive(Drop)]
struct MeterTexts {
    alloc: Global,
    format: OutputFormat,
    /// Whether clocks are corrected.
    corrects: bool,
}

/// Appends a message after a meter's name, its lines joined to one.
fn append_joined(line: &mut Vec<u8>, name: &str, message: &str) -> Result<(), AllocError> {
    line.extend_from_slice(name.as_bytes())?;
    for part in message.lines() {
        line.extend_from_slice(b": ")?;
        line.extend_from_slice(part.trim().as_bytes())?;
    }
    line.extend_from_slice(b"\n")
}

/// Appends the line about a meter that failed by this fault.
fn append_failure(
    alloc: Global,
    line: &mut Vec<u8>,
    format: OutputFormat,
    name: &str,
    fault: &Fault<'_>,
) -> Result<(), AllocError> {
    if format == OutputFormat::Json {
        return append_fault_json(alloc, line, name, fault);
    }
    let message = format!(in alloc; "{fault}")?;
    append_joined(line, name, message.as_str())
}

/// The fault of a meter whose poll failed.
fn fault_of_meter<'a>(alloc: Global, failed: &FailedMeter<'a>) -> Fault<'a> {
    let file = Some(failed.file);
    let secret_file = Some(failed.secret_file);
    match failed.fault {
        MeterFailure::Poll(fault) => Fault::of_field(alloc, failed.place, file, secret_file, fault),
        MeterFailure::Guard(fault) => Fault::of_guard(alloc, failed.place, failed.security, fault),
        MeterFailure::Attribute(name, Refusal::Class) => Fault::Class(name),
        MeterFailure::Attribute(name, Refusal::Result(code)) => Fault::Result(name, code, false),
        MeterFailure::Attribute(name, Refusal::Denied(denial)) => Fault::Denied(name, denial),
    }
}

impl FaultText for MeterTexts {
    fn append_fault(&self, line: &mut Vec<u8>, failed: &FailedMeter<'_>) -> Result<(), AllocError> {
        let fault = fault_of_meter(self.alloc, failed);
        let appended = append_failure(self.alloc, line, self.format, failed.name, &fault);
        drop(fault);
        appended
    }
}

/// A line of JSON without the brace that opens it and the line feed at its end.
fn without_brace(line: &[u8]) -> &[u8] {
    line.strip_prefix(b"{").unwrap_or(line)
}

/// Appends a text as a field of CSV: between quotes if it has a comma, a quote or a line feed (RFC 4180).
fn append_field(text: &mut Vec<u8>, field: &[u8]) -> Result<(), AllocError> {
    let is_plain = !field
        .iter()
        .any(|octet| matches!(*octet, b',' | b'"' | b'\n' | b'\r'));
    if is_plain {
        return text.extend_from_slice(field);
    }
    text.extend_from_slice(b"\"")?;
    for octet in field {
        if *octet == b'"' {
            text.extend_from_slice(b"\"")?;
        }
        text.extend_from_slice(&[*octet])?;
    }
    text.extend_from_slice(b"\"")
}

/// Appends the line of a value that is printed so by `get`.
fn append_told(
    text: &mut Vec<u8>,
    format: OutputFormat,
    value: &MeterValue<'_>,
    told: &[u8],
) -> Result<(), AllocError> {
    if format == OutputFormat::Json {
        text.extend_from_slice(b"{\"meter\":\"")?;
        text.extend_from_slice(value.meter.as_bytes())?;
        text.extend_from_slice(b"\",")?;
        return text.extend_from_slice(without_brace(told));
    }
    text.extend_from_slice(value.meter.as_bytes())?;
    text.extend_from_slice(b",")?;
    append_field(text, value.name.as_bytes())?;
    text.extend_from_slice(b",")?;
    append_field(text, told.strip_suffix(b"\n").unwrap_or(told))?;
    text.extend_from_slice(b"\n")
}

impl MeterTexts {
    /// What `get` prints of a value; none if the encoding is no value.
    fn told(&self, value: &MeterValue<'_>) -> Result<Option<Vec<u8>>, AllocError> {
        let format = match self.format {
            OutputFormat::Text => ValueFormat::Text,
            OutputFormat::Json => ValueFormat::Json,
        };
        let mut told = Vec::new(self.alloc);
        let mut teller = Teller::new(self.alloc, "", &mut told);
        let put = teller.put_value(value.attribute, value.value, format, value.scale);
        drop(teller);
        match put {
            Ok(()) => Ok(Some(told)),
            Err(Fault::Call(..)) => Ok(None),
            Err(fault) => {
                drop(fault);
                Err(AllocError)
            }
        }
    }
}

/// Appends the correction of a clock, and its time and difference after it, as three fields of CSV. The last two are empty if they are
/// not known.
fn append_done(text: &mut Vec<u8>, clock: &MeterClock<'_>) -> Result<(), AllocError> {
    text.extend_from_slice(b",")?;
    text.extend_from_slice(correction_word(clock.done).as_bytes())?;
    text.extend_from_slice(b",")?;
    match clock.after {
        Some(after) => append_csv(text, &after),
        None => text.extend_from_slice(b","),
    }
}

/// Appends the line of a meter's clock, compared with the system's. If clocks are corrected, it also has the correction.
fn append_line(
    text: &mut Vec<u8>,
    clock: &MeterClock<'_>,
    corrects: bool,
) -> Result<(), AllocError> {
    text.extend_from_slice(clock.meter.as_bytes())?;
    text.extend_from_slice(b",")?;
    append_csv(text, &clock.found)?;
    if corrects {
        append_done(text, clock)?;
    }
    text.extend_from_slice(b"\n")
}

impl ValueText for MeterTexts {
    fn append_value(&self, text: &mut Vec<u8>, value: &MeterValue<'_>) -> Result<bool, AllocError> {
        let Some(told) = self.told(value)? else {
            return Ok(false);
        };
        append_told(text, self.format, value, told.as_slice())?;
        Ok(true)
    }

    fn append_clock(&self, text: &mut Vec<u8>, clock: &MeterClock<'_>) -> Result<(), AllocError> {
        if self.format == OutputFormat::Text {
            return append_line(text, clock, self.corrects);
        }
        text.extend_from_slice(b"{\"name\":\"")?;
        text.extend_from_slice(clock.meter.as_bytes())?;
        text.extend_from_slice(b"\",")?;
        append_correction(text, &clock.found, clock.done, clock.after)
    }
}

/// How rows are printed.
pub fn row_format(format: OutputFormat) -> RowFormat {
    match format {
        OutputFormat::Text => RowFormat::Csv,
        OutputFormat::Json => RowFormat::Json,
    }
}

/// The fault of a collection. The list's words are those of its text, so they are written out here.
fn fault_of<'a>(alloc: Global, options: &CollectOptions<'a>, fault: CollectFault<'_>) -> Fault<'a> {
    match fault {
        CollectFault::List(ListFault::Line(number, word, fault)) => {
            let why = fault.text();
            match format!(in alloc; "{word}: {why}") {
                Ok(words) => Fault::List(options.list, number, words),
                Err(_) => Fault::MEMORY,
            }
        }
        CollectFault::System(place, error) if Some(place) == options.readings => {
            Fault::of_system(alloc, options.readings.unwrap_or(""), &error)
        }
        CollectFault::System(_, error) => {
            Fault::of_system(alloc, options.failed.unwrap_or(options.list), &error)
        }
        CollectFault::Wait(error) => Fault::of_system(alloc, options.list, &error),
        CollectFault::Output => Fault::Output,
        CollectFault::List(ListFault::Memory) | CollectFault::Memory => Fault::MEMORY,
    }
}

/// The names of attributes in a text, with commas between them; none without a text.
fn names_of<'a>(alloc: Global, text: Option<&'a str>) -> Result<Vec<Name>, Fault<'a>> {
    let mut names = Vec::new(alloc);
    let Some(text) = text else {
        return Ok(names);
    };
    for word in text.split(',') {
        let Some(name) = written_name(word) else {
            return Err(Fault::Name(word));
        };
        if names.len() >= MOST_NAMES {
            return Err(Fault::Names(text));
        }
        names.push(name)?;
    }
    Ok(names)
}

/// Polls the meters of a list, whose text this is, or requests these attributes of them, or compares and corrects their clocks.
fn collect_text<
    'a,
    H: Net + Files<File = File> + Clock + AllocGlobal + RandomSource,
    W: Write,
    E: Write,
>(
    host: &H,
    options: &CollectOptions<'a>,
    text: &str,
    names: &[Name],
    is_terminal: bool,
    output: &mut W,
    errors: &mut E,
) -> Result<(), Fault<'a>> {
    let collection = Collection {
        list: text,
        purpose: match (options.clock, options.get) {
            (true, _) => Purpose::Clock(options.set.then_some(options.threshold)),
            (false, Some(written)) => Purpose::Get(written, names),
            (false, None) => Purpose::Poll(options.readings.unwrap_or("")),
        },
        defaults: Defaults {
            client: options.client.and_then(|sap| u8::try_from(sap).ok()),
            secret_file: options.secret_file,
        },
        format: row_format(options.format),
        at_once: options.at_once as usize,
        deadline: options.deadline,
        every: options.every.unwrap_or(0),
        retries: options.retries,
        quiet: options.quiet,
        failed: options.failed,
    };
    let texts = MeterTexts {
        alloc: host.alloc(),
        format: options.format,
        corrects: options.set,
    };
    match collect(host, &collection, &texts, output, errors, is_terminal) {
        Ok(tally) if tally.is_done() => Ok(()),
        Ok(tally) => Err(Fault::Failed(tally.failed)),
        Err(fault) => Err(fault_of(host.alloc(), options, fault)),
    }
}

/// Polls the meters of the list in a file, many at once, or requests attributes of them, or compares and corrects their clocks.
#[inline(never)]
pub fn run_collect<
    'a,
    H: Net + Files<File = File> + Clock + AllocGlobal + RandomSource,
    W: Write,
    E: Write,
>(
    host: &H,
    options: &CollectOptions<'a>,
    is_terminal: bool,
    output: &mut W,
    errors: &mut E,
) -> Result<(), Fault<'a>> {
    let names = names_of(host.alloc(), options.get)?;
    match fs::read_to_string(host, options.list) {
        Ok(text) => {
            let told = collect_text(
                host,
                options,
                text.as_str(),
                names.as_slice(),
                is_terminal,
                output,
                errors,
            );
            drop(text);
            told
        }
        Err(error) => Err(Fault::of_system(host.alloc(), options.list, &error)),
    }
}
