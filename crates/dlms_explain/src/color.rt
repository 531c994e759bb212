//! Colors for a terminal, around the labels of lines: one for each direction, and one for errors.

use crate::layout::Layout;
use crate::words::Text;
use std::alloc::Allocator;
use std::io::{ErrorKind, Write};
use std::{io, str};

/// What begins a color, and what ends it (ECMA-48, SGR): cyan to the meter, green from it, red for an error.
const TO_METER: &str = "\u{1b}[36m";

const FROM_METER: &str = "\u{1b}[32m";

const ERROR: &str = "\u{1b}[31m";

const PLAIN: &str = "\u{1b}[0m";

/// Words that only the lines of errors have.
const ERRORS: [&str; 17] = [
    "no frame",
    "not readable",
    ": not taken",
    "tag wrong",
    "not of this form",
    "no value: ",
    "not the next block",
    "too long to be joined",
    "state-error ",
    "refused",
    "(no pairs of ",
    "(a line that is no text",
    "(a line of more than ",
    "(octets that ",
    "(the last APDU is not whole",
    "(the capture ends ",
    "(what follows is no capture",
];

/// Whether a line reports an error of the octets, or a result other than success.
fn is_error(line: &str) -> bool {
    ERRORS.iter().any(|words| line.contains(*words))
        || line.contains("-result ") && !line.contains("success")
}

/// Whether a word of digits and commas ends or begins at this octet.
fn is_of_address(octet: u8) -> bool {
    octet.is_ascii_digit() || octet == b','
}

/// The number of octets up to the end of the meter's address in a line with this sign between the two ends.
fn ends_len(line: &str, sign: &str) -> Option<usize> {
    let (front, behind) = line.split_once(sign)?;
    let is_address = front.ends_with("APDU")
        || front
            .as_bytes()
            .last()
            .is_some_and(|octet| is_of_address(*octet));
    if !is_address {
        return None;
    }
    let len = behind
        .as_bytes()
        .iter()
        .position(|octet| !is_of_address(*octet))
        .unwrap_or(behind.len());
    Some(front.len().saturating_add(sign.len()).saturating_add(len))
}

/// The color of a line's label and the length of the label, if the line has one; `is_short` says that a line is a frame.
fn label_of(is_short: bool, line: &str) -> Option<(&'static str, usize)> {
    let words = line.trim_end();
    let label = words
        .as_bytes()
        .iter()
        .position(|octet| matches!(*octet, b':' | b';'))
        .unwrap_or(words.len());
    let (color, len) = if is_short {
        match (ends_len(words, " > "), ends_len(words, " < ")) {
            (Some(len), _) => (Some(TO_METER), len),
            (None, Some(len)) => (Some(FROM_METER), len),
            (None, None) => (None, label),
        }
    } else if words.starts_with("> ") {
        (Some(TO_METER), label)
    } else if words.starts_with("< ") {
        (Some(FROM_METER), label)
    } else {
        (None, label)
    };
    if is_error(words) {
        return Some((ERROR, len));
    }
    Some((color?, len))
}

/// A line with its label in color.
fn paint<A: Allocator>(text: &mut Text<A>, is_short: bool, line: &str) {
    let blanks = line.len().saturating_sub(line.trim_start().len());
    let painted = label_of(is_short, line).and_then(|(color, len)| Some((
        color,
        line.get(blanks..len)?,
        line.get(len..)?,
    )));
    match painted {
        Some((color, label, rest)) => {
            text.push(line.get(..blanks).unwrap_or(""));
            text.push(color);
            text.push(label);
            text.push(PLAIN);
            text.push(rest);
        }
        None => text.push(line),
    }
}

/// An output that colors the lines of an explanation if this is wanted. JSON has no colors.
#[derive(Drop)]
pub struct Painted<'o, A, W> {
    alloc: A,
    output: &'o mut W,
    layout: Layout,
    is_wanted: bool,
}

impl<'o, A: Allocator + Copy, W> Painted<'o, A, W> {
    /// Over this output, for lines of this layout.
    pub fn new(alloc: A, output: &'o mut W, layout: Layout, is_wanted: bool) -> Self {
        Painted {
            alloc,
            output,
            layout,
            is_wanted: is_wanted && !layout.is_json(),
        }
    }

    /// The lines in color.
    fn in_color(&self, lines: &str) -> Text<A> {
        let mut text = Text::new(String::new(self.alloc));
        for line in lines.split_inclusive('\n') {
            paint(&mut text, self.layout.is_one_line(), line);
        }
        text
    }
}

impl<A: Allocator + Copy, W: Write> Write for Painted<'_, A, W> {
    fn write(&mut self, octets: &[u8]) -> io::Result<usize> {
        match str::from_utf8(octets) {
            Ok(lines) if self.is_wanted => {
                let text = self.in_color(lines);
                if text.check_memory().is_err() {
                    return Err(ErrorKind::OutOfMemory.into());
                }
                self.output.write_all(text.as_str().as_bytes())?;
                Ok(octets.len())
            }
            _ => self.output.write(octets),
        }
    }

    fn flush(&mut self) -> io::Result<()> {
        self.output.flush()
    }
}
