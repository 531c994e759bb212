//! Telegrams of customer ports in an input that is explained.

use crate::Fault;
use crate::hearing::{Hearing, Printing, Tally};
use crate::listening::hear_reader;
use arrayvec::ArrayVec;
use dlms_keys::Stations;
use dlms_listen::{Carrier, Receiver};
use dlms_telegram::{Found, MOST_TELEGRAM, TelegramReader, read_telegram};
use dlms_words::OutputFormat;
use std::fs::{File, Files};
use std::io::{Read, Write};
use std::net::Net;

/// The first octet of a telegram in clear, and the end of its lines.
const SLASH: u8 = b'/';

const RETURN: u8 = b'\r';

const LINE_FEED: u8 = b'\n';

/// The first octets of a ciphered telegram: general-glo-ciphering, and the length of a title (IEC 62056-5-3).
const CIPHERED: [u8; 2] = [0xdb, 0x08];

/// The number of octets by which text is distinguished from captures and frames.
const FRONT: usize = 8;

/// Whether an octet is in text.
fn is_text(octet: u8) -> bool {
    octet >= b' ' || octet.is_ascii_whitespace()
}

/// Whether these octets are a ciphered telegram that the keys open.
fn is_opened(keys: Option<&Stations>, octets: &[u8]) -> bool {
    let mut plain: ArrayVec<u8, MOST_TELEGRAM> = ArrayVec::new();
    Receiver::new(keys)
        .receive_telegram(octets, &mut plain)
        .is_ok()
}

/// Whether the first line of these octets is whole, and ends with a carriage return.
fn ends_with_return(octets: &[u8]) -> bool {
    let before = octets.iter().position(|octet| *octet == LINE_FEED);
    match before {
        Some(at) => octets.get(..at).unwrap_or(&[]).last() == Some(&RETURN),
        None => false,
    }
}

/// Whether octets begin with the first line of a telegram: a slash, three letters of the maker, a digit for the rate, a text, and the end
/// of the line (IEC 62056-21, 6.3.2).
fn begins_telegram(octets: &[u8]) -> bool {
    match octets {
        [SLASH, first, second, third, rate, text @ ..] => {
            first.is_ascii_alphabetic()
                && second.is_ascii_alphabetic()
                && third.is_ascii_alphabetic()
                && rate.is_ascii_digit()
                && ends_with_return(text)
        }
        _ => false,
    }
}

/// Whether a whole telegram is among these octets: one with a check, or a ciphered one that the keys open.
fn finds_telegram(keys: Option<&Stations>, octets: &[u8]) -> bool {
    let mut reader = TelegramReader::new();
    let mut rest = octets;
    for _ in 0..octets.len() {
        let count = reader.feed(rest);
        rest = rest.get(count..).unwrap_or(&[]);
        let is_found = match reader.found() {
            Found::Telegram => match read_telegram(reader.octets()) {
                Some(telegram) => telegram.is_checked,
                None => false,
            },
            Found::Sealed => is_opened(keys, reader.octets()),
            Found::Nothing | Found::WrongCheck | Found::Long => false,
        };
        if is_found || rest.is_empty() {
            return is_found;
        }
    }
    false
}

/// What receives the telegrams of an input that begins with these octets, if it is one of telegrams. Those in clear need no keys.
#[inline(never)]
pub fn receiver_for<'k>(keys: Option<&'k Stations>, front: &[u8]) -> Option<Receiver<'k>> {
    if front.starts_with(&CIPHERED) {
        return if finds_telegram(keys, front) {
            Some(Receiver::new(keys))
        } else {
            None
        };
    }
    let is_text = front.iter().take(FRONT).all(|octet| is_text(*octet));
    if is_text && (begins_telegram(front) || finds_telegram(None, front)) {
        Some(Receiver::new(None))
    } else {
        None
    }
}

/// Prints the telegrams of a reader as `listen` does.
#[inline(never)]
pub fn explain_telegrams<
    'a,
    'o,
    H: Net + Files<File = File> + AllocGlobal,
    R: Read,
    W: Write,
    E: Write,
>(
    host: &'o H,
    receiver: Receiver<'_>,
    format: OutputFormat,
    place: &'a str,
    reader: &mut R,
    output: &'o mut W,
    errors: &'o mut E,
) -> Result<(), Fault<'a>> {
    let alloc = host.alloc();
    let mut hearing = Hearing {
        host,
        alloc,
        folder: None,
        receiver,
        printing: Printing {
            format,
            names: Vec::new(alloc),
        },
        is_quiet: false,
        tally: Tally::new(None),
        output,
        errors,
    };
    let heard = hear_reader(&mut hearing, place, Some(Carrier::Telegrams), reader);
    drop(hearing);
    heard
}
