//! Events as words.

use dlms_plot::{Date, Quantity};
use dlms_state::{Event, SecretOf};
use std::fmt;

/// A text in quotes: bytes that are no plain characters are written as hexadecimal digits, as in `\x0a`.
#[derive(Clone, Copy)]
pub struct Quoted<'a>(pub &'a [u8]);

/// The names of columns, by their ids.
#[derive(Clone, Copy)]
pub struct Columns<'a>(pub &'a [u8]);

/// An event as words. Of a secret only its client is shown.
#[derive(Clone, Copy)]
pub struct Words<'a>(pub &'a Event);

/// The name of a column.
pub fn column_name(id: u8) -> &'static str {
    match id {
        0 => "clock",
        _ => channel_name(id.saturating_sub(1)),
    }
}

/// The name of a channel's quantity.
fn channel_name(channel: u8) -> &'static str {
    match Quantity::of_channel(usize::from(channel)) {
        Some(quantity) => quantity.name(),
        None => "unknown",
    }
}

/// The name of a secret's client.
fn owner_name(of: SecretOf) -> &'static str {
    match of {
        SecretOf::Management => "management",
        SecretOf::Reader => "the reader",
    }
}

/// Writes a byte of a text.
fn write_byte<W: fmt::Write>(byte: u8, f: &mut fmt::Formatter<W>) -> fmt::Result {
    if byte == b'"' || byte == b'\\' || byte < 0x20 || byte > 0x7e {
        return write!(f, "\\x{byte:02x}");
    }
    f.write_char(char::from(byte))
}

impl fmt::Display for Quoted<'_> {
    fn fmt<W: fmt::Write>(&self, f: &mut fmt::Formatter<W>) -> fmt::Result {
        f.write_str("\"")?;
        for byte in self.0 {
            write_byte(*byte, f)?;
        }
        f.write_str("\"")
    }
}

impl fmt::Display for Columns<'_> {
    fn fmt<W: fmt::Write>(&self, f: &mut fmt::Formatter<W>) -> fmt::Result {
        let mut parting = "";
        for id in self.0 {
            f.write_str(parting)?;
            f.write_str(column_name(*id))?;
            parting = ", ";
        }
        Ok(())
    }
}

impl Words<'_> {
    /// The words of an event that carries a clock or a number.
    fn write_number<W: fmt::Write>(&self, f: &mut fmt::Formatter<W>) -> fmt::Result {
        match self.0 {
            Event::Pulses(channel, count) => {
                let name = channel_name(*channel);
                write!(f, "{count} pulses on channel {channel}, {name}")
            }
            Event::Moment(second) => write!(f, "moment {second}"),
            Event::SetTime(second) => {
                let date = Date(*second);
                write!(f, "clock set to {date}")
            }
            Event::Shift(by) => write!(f, "clock shifted by {by} s"),
            Event::SetPeriod(seconds) => write!(f, "capture period set to {seconds} s"),
            Event::ResetRegister(channel) => write!(f, "register of channel {channel} reset"),
            _ => Ok(()),
        }
    }
}

impl fmt::Display for Words<'_> {
    fn fmt<W: fmt::Write>(&self, f: &mut fmt::Formatter<W>) -> fmt::Result {
        match self.0 {
            Event::AdjustMinute => f.write_str("clock set to the nearest minute"),
            Event::ResetProfile => f.write_str("load profile emptied"),
            Event::Capture => f.write_str("row captured"),
            Event::SetText(text) => {
                let text = Quoted(text.as_slice());
                write!(f, "text set to {text}")
            }
            Event::SetSecret(of, _) => {
                let owner = owner_name(*of);
                write!(f, "secret of {owner} set: (secret)")
            }
            Event::SetColumns(ids) => {
                let columns = Columns(ids.as_slice());
                write!(f, "columns set to {columns}")
            }
            _ => self.write_number(f),
        }
    }
}
