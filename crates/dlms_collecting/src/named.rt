//! An output for the lines of a meter: its rows as CSV or JSON, and messages about it.

use dlms_buffer::append_clock;
use dlms_data::{LAST_SECOND, octets};
use dlms_filing::Output;
use std::alloc::{AllocError, Global};
use std::{io, str};

/// The first octet of a deviation that is left open.
const OPEN_DEVIATION: u8 = 0x80;

/// How a row is printed.
#[derive(Clone, Copy)]
pub enum RowFormat {
    /// As `NAME,clock,register,register,register`; without a name as it is in its file.
    Csv,
    /// As an object of JSON with `meter` if it has a name, `clock` in seconds, its `time` by ISO 8601, and `registers`.
    Json,
}

/// How a line is written.
#[derive(Clone, Copy)]
enum Form {
    Row(RowFormat),
    Message,
}

/// An output that writes the lines of a meter in another form, with its name if it has one, and counts them. An empty line is left out.
#[derive(Drop)]
pub struct Named<'a, O> {
    alloc: Global,
    name: Option<&'a str>,
    form: Form,
    output: &'a mut O,
    lines: u64,
    first: Option<u32>,
    last: Option<u32>,
    has_failed: bool,
}

/// The number that a field of a row writes.
fn number_of(field: &[u8]) -> Option<u32> {
    match str::from_utf8(field) {
        Ok(text) => text.parse::<u32>().ok(),
        Err(_) => None,
    }
}

/// The clock of a row, in seconds from 2000-01-01 on.
fn clock_of(line: &[u8]) -> Option<u32> {
    match line.split(|byte| *byte == b',').next() {
        Some(field) => number_of(field),
        None => None,
    }
}

/// Appends a second of a meter's clock, counted from 2000-01-01 on, as ISO 8601.
pub fn append_second(text: &mut Vec<u8>, second: u32) -> Result<(), AllocError> {
    let mut clock = octets(second.min(LAST_SECOND));
    clock[9] = OPEN_DEVIATION;
    let _is_time = append_clock(text, &clock, 0)?;
    Ok(())
}

/// Appends a row as an object: the clock, its time, and the registers. A name has no character that JSON writes otherwise, and clock and
/// registers are numbers.
fn append_object(text: &mut Vec<u8>, name: Option<&str>, line: &[u8]) -> Result<(), AllocError> {
    text.extend_from_slice(b"{")?;
    if let Some(name) = name {
        text.extend_from_slice(b"\"meter\":\"")?;
        text.extend_from_slice(name.as_bytes())?;
        text.extend_from_slice(b"\",")?;
    }
    let comma = line.iter().position(|byte| *byte == b',');
    let (clock, registers) = line.split_at(comma.unwrap_or(line.len()));
    text.extend_from_slice(b"\"clock\":")?;
    text.extend_from_slice(clock)?;
    text.extend_from_slice(b",\"time\":\"")?;
    append_second(text, number_of(clock).unwrap_or(0))?;
    text.extend_from_slice(b"\",\"registers\":[")?;
    text.extend_from_slice(registers.get(1..).unwrap_or(&[]))?;
    text.extend_from_slice(b"]}\n")
}

/// Appends a line after the name and a separator.
fn append_prefixed(
    text: &mut Vec<u8>,
    name: Option<&str>,
    separator: &[u8],
    line: &[u8],
) -> Result<(), AllocError> {
    if let Some(name) = name {
        text.extend_from_slice(name.as_bytes())?;
        text.extend_from_slice(separator)?;
    }
    text.extend_from_slice(line)?;
    text.extend_from_slice(b"\n")
}

/// Appends a line in a form.
fn append_line(
    text: &mut Vec<u8>,
    name: Option<&str>,
    form: Form,
    line: &[u8],
) -> Result<(), AllocError> {
    match form {
        Form::Row(RowFormat::Csv) => append_prefixed(text, name, b",", line),
        Form::Row(RowFormat::Json) => append_object(text, name, line),
        Form::Message => append_prefixed(text, name, b": ", line),
    }
}

impl<'a, O> Named<'a, O> {
    /// Lines of the meter with this name in a form.
    fn new(alloc: Global, name: Option<&'a str>, form: Form, output: &'a mut O) -> Self {
        Named {
            alloc,
            name,
            form,
            output,
            lines: 0,
            first: None,
            last: None,
            has_failed: false,
        }
    }

    /// Rows of the meter with this name, in this format.
    pub fn rows(alloc: Global, name: &'a str, format: RowFormat, output: &'a mut O) -> Self {
        Named::new(alloc, Some(name), Form::Row(format), output)
    }

    /// Rows of the only meter, in this format.
    pub fn nameless(alloc: Global, format: RowFormat, output: &'a mut O) -> Self {
        Named::new(alloc, None, Form::Row(format), output)
    }

    /// Messages about the meter with this name.
    pub fn messages(alloc: Global, name: &'a str, output: &'a mut O) -> Self {
        Named::new(alloc, Some(name), Form::Message, output)
    }

    /// The clocks of the first and the last row, in seconds from 2000-01-01 on.
    pub fn clocks(&self) -> Option<(u32, u32)> {
        Some((self.first?, self.last?))
    }

    /// Appends these lines, each in its form, and counts them.
    fn append(&mut self, text: &mut Vec<u8>, bytes: &[u8]) -> Result<(), AllocError> {
        for line in bytes.split(|byte| *byte == b'\n') {
            if !line.is_empty() {
                append_line(text, self.name, self.form, line)?;
                self.lines = self.lines.saturating_add(1);
                self.last = clock_of(line);
                self.first = self.first.or(self.last);
            }
        }
        Ok(())
    }

    /// How many lines were written.
    pub fn lines(&self) -> u64 {
        self.lines
    }

    /// Whether the output failed.
    pub fn has_failed(&self) -> bool {
        self.has_failed
    }

    /// Keeps whether the output failed.
    fn keep(&mut self, written: io::Result<()>) -> io::Result<()> {
        self.has_failed = self.has_failed || written.is_err();
        written
    }
}

impl<O: Output> Output for Named<'_, O> {
    fn write_out(&mut self, bytes: &[u8]) -> io::Result<()> {
        let mut text = Vec::new(self.alloc);
        self.append(&mut text, bytes)?;
        let written = self.output.write_out(text.as_slice());
        self.keep(written)
    }

    fn flush_out(&mut self) -> io::Result<()> {
        let flushed = self.output.flush_out();
        self.keep(flushed)
    }
}
