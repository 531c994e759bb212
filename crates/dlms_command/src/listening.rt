//! What meters send by themselves: notifications and telegrams, from a serial line, a port or the input.

use crate::callers::{listen_for_datagrams, listen_on};
use crate::hearing::{Ear, Hearing, Printing, Tally};
use crate::{Fault, LISTEN};
use dlms_asking::stations_of;
use dlms_keys::Stations;
use dlms_lines::Serial;
use dlms_listen::{Carrier, Receiver};
use dlms_printing::Teller;
use dlms_pushes::PIECE;
use dlms_text::written_name;
use dlms_words::ListenOptions;
use std::alloc::Global;
use std::fs::{File, Files};
use std::io;
use std::io::{ErrorKind, Read, Write};
use std::net::Net;
use std::time::{Clock, Duration};

/// The name of the input in messages, and the line that means the input.
const INPUT: &str = "standard input";

const INPUT_NAME: &str = "-";

/// The prefix of a UDP port's address.
const UDP: &str = "udp:";

/// For how many seconds a read of a line waits.
const WAKE_SECONDS: u64 = 1;

/// The names that a text has, with commas between them.
fn names_in<'a>(alloc: Global, text: Option<&'a str>) -> Result<Vec<[u8; 6]>, Fault<'a>> {
    let mut names = Vec::new(alloc);
    let Some(text) = text else {
        return Ok(names);
    };
    for word in text.split(',') {
        match written_name(word) {
            Some(name) => names.push(name.code)?,
            None => return Err(Fault::Name(word)),
        }
    }
    Ok(names)
}

/// Hears a reader to its end, or until it has sent as many notifications as are wanted. A time without octets is not its end.
pub fn hear_reader<'f, H: Net + Files<File = File> + AllocGlobal, R: Read, W: Write, E: Write>(
    hearing: &mut Hearing<'f, '_, '_, H, W, E>,
    place: &'f str,
    carrier: Option<Carrier>,
    reader: &mut R,
) -> Result<(), Fault<'f>> {
    let alloc = hearing.alloc;
    let mut ear = Ear::new(alloc, carrier)?;
    let mut piece = [0u8; PIECE];
    for _ in 0..u64::MAX {
        if !hearing.goes_on() {
            return Ok(());
        }
        match reader.read(&mut piece) {
            Ok(0) => break,
            Ok(count) => {
                let octets = piece.get(..count).unwrap_or(&[]);
                hearing.hear(place, place, &mut ear, octets)?;
            }
            Err(error) => match error.kind() {
                ErrorKind::TimedOut | ErrorKind::Interrupted | ErrorKind::WouldBlock => {}
                _ => {
                    hearing.close(place, &mut ear);
                    return Err(Fault::of_system(alloc, place, &error));
                }
            },
        }
    }
    hearing.close(place, &mut ear);
    Ok(())
}

/// Prints the place that it listens on.
fn announce<W: Write>(output: &mut W, place: &str) -> io::Result<()> {
    writeln!(output, "listening on {place}")?;
    output.flush()
}

/// Hears a serial line, which may begin within a frame or a telegram.
fn hear_line<'f, H: Net + Files<File = File> + AllocGlobal, W: Write, E: Write>(
    host: &H,
    hearing: &mut Hearing<'f, '_, '_, H, W, E>,
    device: &'f str,
) -> Result<(), Fault<'f>> {
    let mut line = match Serial::open(host, device) {
        Ok(line) => line,
        Err(error) => return Err(Fault::of_system(host.alloc(), device, &error)),
    };
    line.waits(Duration::from_secs(WAKE_SECONDS));
    let _said = announce(hearing.errors, device);
    hear_reader(hearing, device, Some(Carrier::Hdlc), &mut line)
}

/// Listens on a port: a UDP port if the address begins with `udp:`, otherwise a TCP port.
fn listen_at<'f, H: Net + Files<File = File> + AllocGlobal, W: Write, E: Write>(
    host: &H,
    hearing: &mut Hearing<'f, '_, '_, H, W, E>,
    place: &'f str,
) -> Result<(), Fault<'f>> {
    match place.strip_prefix(UDP) {
        Some(place) => listen_for_datagrams(host, hearing, place),
        None => listen_on(host, hearing, place),
    }
}

/// Hears the place that the options name.
fn hear_place<'a, H: Net + Files<File = File> + Clock + AllocGlobal, R: Read, W: Write, E: Write>(
    host: &H,
    hearing: &mut Hearing<'a, '_, '_, H, W, E>,
    options: &ListenOptions<'a>,
    input: &mut R,
) -> Result<(), Fault<'a>> {
    match (options.line, options.listen) {
        (Some(line), Some(_)) => Err(Fault::Place(line)),
        (Some(INPUT_NAME), None) => hear_reader(hearing, INPUT, None, input),
        (Some(line), None) => hear_line(host, hearing, line),
        (None, listen) => listen_at(host, hearing, listen.unwrap_or(LISTEN)),
    }
}

/// Listens with these keys.
fn listen_with<
    'a,
    'k,
    'o,
    H: Net + Files<File = File> + Clock + AllocGlobal,
    R: Read,
    W: Write,
    E: Write,
>(
    host: &'o H,
    options: &ListenOptions<'a>,
    keys: Option<&'k Stations>,
    input: &mut R,
    output: &'o mut W,
    errors: &'o mut E,
) -> Result<(), Fault<'a>> {
    let alloc = host.alloc();
    let names = names_in(alloc, options.csv)?;
    if !names.is_empty() {
        Teller::new(alloc, INPUT, output).put_notified_names(names.as_slice())?;
    }
    let mut hearing = Hearing {
        host,
        alloc,
        folder: options.readings,
        receiver: Receiver::new(keys),
        printing: Printing {
            format: options.format,
            names,
        },
        is_quiet: options.quiet,
        tally: Tally::new(options.count),
        output,
        errors,
    };
    let heard = hear_place(host, &mut hearing, options, input);
    if heard.is_ok() || hearing.tally.has_any() {
        hearing.tell_tally();
    }
    drop(hearing);
    heard
}

/// Prints what meters send by themselves, until the line ends or as many notifications came as are wanted.
#[inline(never)]
pub fn run_listen<
    'a,
    H: Net + Files<File = File> + Clock + AllocGlobal,
    R: Read + Drop,
    W: Write,
    E: Write,
>(
    host: &H,
    options: &ListenOptions<'a>,
    input: R,
    output: &mut W,
    errors: &mut E,
) -> Result<(), Fault<'a>> {
    let mut input = input;
    let Some(keys) = options.keys else {
        return listen_with(host, options, None, &mut input, output, errors);
    };
    let stations = stations_of(host, keys)?;
    let heard = listen_with(host, options, Some(&stations), &mut input, output, errors);
    drop(stations);
    heard
}
