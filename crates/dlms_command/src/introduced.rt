//! Which meter a new file of readings begins with.

use dlms_call::CallFault;
use dlms_client::{Plan, Route};
use dlms_data::Bytes;
use dlms_ends::End;
use dlms_identity::shown_text;
use dlms_lines::Dialling;
use std::alloc::Global;
use std::fs::{File, Files};
use std::io::Write;
use std::{fs, io, str};

/// The logical device name, which every meter shows to the public client (IEC 62056-6-2, COSEM logical device name).
const DEVICE: [u8; 6] = [0, 0, 42, 0, 0, 255];

/// The most bytes of an APDU.
const SIZE: u16 = 1_024;

/// For how many seconds a connection is waited for.
const CONNECT_SECONDS: u32 = 8;

/// Whether this file contains no readings yet.
pub fn is_new<H: Files<File = File>>(host: &H, file: &str) -> bool {
    match fs::metadata(host, file) {
        Ok(metadata) => metadata.len() == 0,
        Err(_) => true,
    }
}

/// The name that the meter at the other end of a line gives to the client of this route; `None` if it is no route.
#[inline(never)]
fn name_over<S: End>(
    alloc: Global,
    line: &mut S,
    route: Route,
) -> Result<Option<Bytes<Global>>, CallFault> {
    let plan = Plan {
        route,
        secret: None,
        size: SIZE,
    };
    if !plan.is_lawful() {
        return Ok(None);
    }
    shown_text(alloc, line, plan, DEVICE)
}

/// Whether an association can begin over a line that a poll has left. Over the wrapper it is connected again, since an association ends
/// with its connection there.
fn is_ready<L: Dialling>(line: &mut L, route: Route, address: &str) -> bool {
    match route {
        Route::Hdlc(..) => true,
        Route::Tcp(..) => matches!(line.connect(address, CONNECT_SECONDS), Ok(true)),
    }
}

/// Whether octets are letters, digits and signs of ASCII alone.
fn is_plain(octets: &[u8]) -> bool {
    octets.iter().all(|octet| octet.is_ascii_graphic())
}

/// Says which meter a new file begins with, by the public client's route. Nothing is said if the meter does not send its name, or sends
/// one that is no plain text.
pub fn introduce<L: Dialling, E: Write>(
    alloc: Global,
    line: &mut L,
    route: Route,
    address: &str,
    file: &str,
    errors: &mut E,
) -> io::Result<()> {
    if !is_ready(line, route, address) {
        return Ok(());
    }
    match name_over(alloc, line, route) {
        Ok(Some(name)) => {
            let written = write_name(name.as_slice(), address, file, errors);
            drop(name);
            written
        }
        Ok(None) => Ok(()),
        Err(_) => Ok(()),
    }
}

/// The line that says it.
fn write_name<E: Write>(name: &[u8], place: &str, file: &str, errors: &mut E) -> io::Result<()> {
    if !is_plain(name) {
        return Ok(());
    }
    match str::from_utf8(name) {
        Ok(name) => writeln!(
            errors,
            "{file} is new: the meter at {place} calls itself {name}"
        ),
        Err(_) => Ok(()),
    }
}
