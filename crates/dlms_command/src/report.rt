//! A report: a copy of the page that explains frames, with a log in it. The page explains the log when it is opened.

use crate::looking::{INPUT, named_file};
use crate::watched::Watched;
use crate::{Fault, buffer_output};
use base64::engine::general_purpose::STANDARD;
use base64::write::EncoderWriter;
use dlms_pages::refuse_standard;
use dlms_words::ExplainOptions;
use std::fs::{File, Files, OpenOptions};
use std::io::{Read, Write};
use std::os::fd::AsRawFd;
use std::{fs, io};

/// The page, if none is named.
const PAGE: &str = "dlms-explain.html";

/// The element of the page that is for a log.
const ELEMENT: &str =
    "<script type=\"application/octet-stream\" id=\"log\" data-name=\"\"></script>";

/// The element with a log: before the log's name, between its name and its octets, and after them.
const BEFORE_NAME: &[u8] = b"<script type=\"application/octet-stream\" id=\"log\" data-name=\"";

const BEFORE_OCTETS: &[u8] = b"\">";

const AFTER_OCTETS: &[u8] = b"</script>";

/// The name of a log from the input.
const UNNAMED: &str = "standard-input";

/// The page before and after its element for a log.
#[derive(Clone, Copy)]
struct Page<'p> {
    before: &'p str,
    after: &'p str,
}

/// A page that has one element for a log.
fn split_page(text: &str) -> Option<Page<'_>> {
    let (before, after) = text.split_once(ELEMENT)?;
    match after.split_once(ELEMENT) {
        Some(_) => None,
        None => Some(Page { before, after }),
    }
}

/// The name of a file, without its folder.
fn name_of(file: Option<&str>) -> &str {
    let Some(file) = file else {
        return UNNAMED;
    };
    match file.rsplit_once('/') {
        Some((_, name)) => name,
        None => file,
    }
}

/// Whether an octet of a name is kept in the page: it cannot end an attribute.
fn is_kept(octet: u8) -> bool {
    octet.is_ascii_alphanumeric() || octet == b'.' || octet == b'_' || octet == b'-'
}

/// Writes the letters, digits, dots, `_` and `-` of a name.
fn put_name<W: Write>(name: &str, report: &mut W) -> io::Result<()> {
    for octet in name.as_bytes() {
        if is_kept(*octet) {
            report.write_all(&[*octet])?;
        }
    }
    Ok(())
}

/// Writes a log as Base64 (RFC 4648), and returns how many octets it has.
fn put_log<R: Read, W: Write>(log: &mut R, report: &mut W) -> io::Result<u64> {
    let mut encoder = EncoderWriter::new(report, &STANDARD);
    let count = io::copy(log, &mut encoder)?;
    let _report = encoder.finish()?;
    Ok(count)
}

/// Writes the page with a log of this name, and returns how many octets the log has.
fn put_report<R: Read, W: Write>(
    page: Page<'_>,
    name: &str,
    log: &mut R,
    report: &mut W,
) -> io::Result<u64> {
    report.write_all(page.before.as_bytes())?;
    report.write_all(BEFORE_NAME)?;
    put_name(name, report)?;
    report.write_all(BEFORE_OCTETS)?;
    let count = put_log(log, report)?;
    report.write_all(AFTER_OCTETS)?;
    report.write_all(page.after.as_bytes())?;
    report.flush()?;
    Ok(count)
}

/// A log: what it is called in messages and in the page, and its octets.
#[derive(Drop)]
struct Log<'a, 'r, R> {
    place: &'a str,
    name: &'a str,
    reader: &'r mut R,
}

/// Fills the file of a report, which is new.
fn fill<'a, H: AllocGlobal, R: Read>(
    host: &H,
    page: Page<'_>,
    log: Log<'a, '_, R>,
    report: &'a str,
    file: File,
) -> Result<u64, Fault<'a>> {
    let alloc = host.alloc();
    if let Err(error) = refuse_standard(file.as_raw_fd()) {
        return Err(Fault::of_system(alloc, report, &error));
    }
    let mut writer = buffer_output(alloc, file)?;
    let mut watched = Watched::new(&mut writer);
    let written = put_report(page, log.name, log.reader, &mut watched);
    let failure = watched.failure();
    drop(watched);
    drop(writer);
    match (written, failure) {
        (Ok(count), _) => Ok(count),
        (Err(_), Some(error)) => Err(Fault::of_system(alloc, report, &error)),
        (Err(error), None) => Err(Fault::of_system(alloc, log.place, &error)),
    }
}

/// Makes a report. A file that exists stays as it is; one that cannot be filled is removed.
fn make<'a, H: Files<File = File> + AllocGlobal, R: Read>(
    host: &H,
    page: Page<'_>,
    log: Log<'a, '_, R>,
    report: &'a str,
) -> Result<u64, Fault<'a>> {
    let created = OpenOptions::new()
        .write(true)
        .create_new(true)
        .open(host, report);
    let file = match created {
        Ok(file) => file,
        Err(error) => return Err(Fault::of_system(host.alloc(), report, &error)),
    };
    let filled = fill(host, page, log, report, file);
    if filled.is_err() {
        let _removed = fs::remove_file(host, report);
    }
    filled
}

/// Makes the report of a file, or of the input if none is named.
fn make_of<'a, H: Files<File = File> + AllocGlobal, R: Read + Drop>(
    host: &H,
    page: Page<'_>,
    file: Option<&'a str>,
    mut input: R,
    report: &'a str,
) -> Result<u64, Fault<'a>> {
    let name = name_of(file);
    let Some(place) = file else {
        let log = Log {
            place: INPUT,
            name,
            reader: &mut input,
        };
        return make(host, page, log, report);
    };
    drop(input);
    match fs::open(host, place) {
        Ok(mut opened) => {
            let log = Log {
                place,
                name,
                reader: &mut opened,
            };
            make(host, page, log, report)
        }
        Err(error) => Err(Fault::of_system(host.alloc(), place, &error)),
    }
}

/// Writes the log of these options into a copy of the page, a new file of this name, and reports it.
#[inline(never)]
pub fn run_report<'a, H: Files<File = File> + AllocGlobal, R: Read + Drop, E: Write>(
    host: &H,
    options: &ExplainOptions<'a>,
    report: &'a str,
    input: R,
    errors: &mut E,
) -> Result<(), Fault<'a>> {
    let page = options.page.unwrap_or(PAGE);
    let text = match fs::read_to_string(host, page) {
        Ok(text) => text,
        Err(error) => return Err(Fault::of_page(host.alloc(), page, &error)),
    };
    let file = named_file(options.file);
    let made = match split_page(text.as_str()) {
        Some(page) => make_of(host, page, file, input, report),
        None => Err(Fault::Page(page)),
    };
    drop(text);
    let count = made?;
    if !options.quiet {
        let place = file.unwrap_or(INPUT);
        let _said = writeln!(errors, "made {report}: {count} octets of {place}");
    }
    Ok(())
}
