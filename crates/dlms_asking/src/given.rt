//! Values that the arguments give: as a text, in a file, or the system's clock.

ghost use Rattle.std.specs.Prelude.{◌≤◌, IfOk};
ghost use Rattle.dlms_data.specs.declared.date_time.TheConstants.{LAST_SECOND};

use crate::requests::read_value;
use dlms_data::{Data, octet_string_of};
use dlms_ends::RunFault;
use dlms_faults::Fault;
use dlms_inquiries::second_of;
use std::alloc::Global;
use std::io::{ErrorKind, Read};
use std::rt::Files;
use std::time::Clock;
use std::{fs, io};

/// The most bytes of a file with a value: as many as the longest octet-string that is sent in blocks.
const MOST_IN_FILE: usize = 65_536;

/// How many bytes are read at a time.
const PIECE: usize = 512;

/// The second of the system's clock, if a meter's clock can show it.
pub fn now<'a, H: Clock>(host: &H) -> Result<u32, Fault<'a>>
    ensures { IfOk result (λ second. second ≤ LAST_SECOND) }
{
    match host.since_1970() {
        Ok(since) => match second_of(since.as_secs()) {
            Some(second) => Ok(second),
            None => Err(Fault::Now),
        },
        Err(_) => Err(Fault::Run(RunFault::Io)),
    }
}

/// The text of a file without one line feed at its end, or a carriage return and a line feed.
fn without_line_end(bytes: &[u8]) -> &[u8] {
    match bytes {
        [text @ .., b'\r', b'\n'] => text,
        [text @ .., b'\n'] => text,
        _ => bytes,
    }
}

/// Takes a piece of a file; whether there was one.
fn take_piece<R: Read>(file: &mut R, bytes: &mut Vec<u8>) -> io::Result<bool> {
    let mut piece = [0u8; PIECE];
    match file.read(&mut piece) {
        Ok(count) => {
            bytes.extend_from_slice(&piece[..count])?;
            Ok(count > 0)
        }
        Err(error) if error.kind() == ErrorKind::Interrupted => Ok(true),
        Err(error) => Err(error),
    }
}

/// The bytes of a file, up to one piece more than a value may have.
fn read_file<R: Read>(alloc: Global, file: &mut R) -> io::Result<Vec<u8>> {
    let mut bytes = Vec::new(alloc);
    for _ in 0..u64::MAX {
        if !take_piece(file, &mut bytes)? || bytes.len() > MOST_IN_FILE {
            break;
        }
    }
    Ok(bytes)
}

/// The bytes of the file at a path.
fn bytes_at<'a, H: Files + AllocGlobal>(host: &H, path: &'a str) -> Result<Vec<u8>, Fault<'a>> {
    let read = match fs::open(host, path) {
        Ok(mut file) => read_file(host.alloc(), &mut file),
        Err(error) => Err(error),
    };
    match read {
        Ok(bytes) if bytes.len() > MOST_IN_FILE => Err(Fault::File(path)),
        Ok(bytes) => Ok(bytes),
        Err(error) => Err(Fault::of_system(host.alloc(), path, &error)),
    }
}

/// The octet-string of a file's bytes, of a text without the end of its last line.
fn from_file<'a, H: Files + AllocGlobal>(
    host: &H,
    path: &'a str,
    is_text: bool,
) -> Result<Data<Global>, Fault<'a>> {
    let bytes = bytes_at(host, path)?;
    let octets = if is_text {
        without_line_end(bytes.as_slice())
    } else {
        bytes.as_slice()
    };
    Ok(octet_string_of(host.alloc(), octets)?)
}

/// The value that a text gives.
#[inline(never)]
pub fn value_given<'a, H: Files + Clock + AllocGlobal>(
    host: &H,
    text: &'a str,
) -> Result<Data<Global>, Fault<'a>> {
    if let Some(path) = text.strip_prefix("text-file:") {
        return from_file(host, path, true);
    }
    if let Some(path) = text.strip_prefix("octets-file:") {
        return from_file(host, path, false);
    }
    let second = if text == "now" { now(host)? } else { 0 };
    read_value(host.alloc(), text, second)
}
