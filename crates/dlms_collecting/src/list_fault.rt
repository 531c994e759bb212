//! Why a list of meters is refused.

use std::alloc::{AllocError, AllocFailed};
use std::fmt;

/// Why a line is refused, or one of its words.
#[derive(Clone, Copy)]
pub enum LineFault {
    /// The line has no place.
    NoPlace,
    /// The word is not a name of a readings file.
    Name,
    /// An earlier line has the same name.
    NameTwice,
    /// The word is not a place.
    Place,
    /// The word is the device of a serial line.
    Serial,
    /// The word is not a known option.
    Option,
    /// The option was given before.
    OptionTwice,
    /// The option's value is not a text, or an object and its text.
    Expect,
    /// The line names a secret that would be sent in clear, and a file of settings too.
    NoSecret,
    /// An earlier line has the same file of settings.
    SecurityTwice,
    /// The option's value is not a client.
    Client,
    /// The option's value is not a carrier.
    Carrier,
    /// The option's value is not an address of a meter.
    Server,
    /// The option's value is not a wrapper port of a meter.
    Port,
}

impl LineFault {
    /// The fault in words.
    pub fn text(self) -> &'static str {
        match self {
            LineFault::NoPlace => "a name and a place are expected, as m1 10.0.0.1:4059",
            LineFault::Name => {
                "a name of letters, digits, '.', '_' and '-' is expected that does not begin with '.'"
            }
            LineFault::NameTwice => "an earlier line has this name",
            LineFault::Place => "a place is expected, as HOST or HOST:PORT",
            LineFault::Serial => "a serial line cannot be collected from: dlms poll polls it",
            LineFault::Option => {
                "client=, secret-file=, security=, carrier=, server= or expect= is expected, with a value"
            }
            LineFault::OptionTwice => "this option is given twice",
            LineFault::Expect => {
                "the logical device name is expected, or NAME=TEXT, as 0.0.42.0.0.255=RTL0000000000001"
            }
            LineFault::NoSecret => "security= cannot be used with secret-file=",
            LineFault::SecurityTwice => {
                "an earlier line has these settings: each meter needs settings and counters of its own"
            }
            LineFault::Client => "public, reader, management or a number from 1 to 127 is expected",
            LineFault::Carrier => "hdlc or wrapper is expected",
            LineFault::Server => "an address is expected as UPPER or UPPER/LOWER",
            LineFault::Port => "a wrapper port is expected, 0 to 65535",
        }
    }
}

/// Why a list of meters is refused.
#[derive(Clone, Copy)]
pub enum ListFault<'a> {
    /// In the line of this number, counted from 1, this word is refused.
    Line(usize, &'a str, LineFault),
    /// Out of memory.
    Memory,
}

impl fmt::Display for ListFault<'_> {
    fn fmt<W: fmt::Write>(&self, f: &mut fmt::Formatter<W>) -> fmt::Result {
        match self {
            ListFault::Line(number, word, fault) => {
                let number = *number;
                let word = *word;
                let text = fault.text();
                write!(f, "line {number}: {word}: {text}")
            }
            ListFault::Memory => f.write_str("memory"),
        }
    }
}

impl From<AllocError> for ListFault<'_> {
    fn from(_fault: AllocError) -> Self {
        ListFault::Memory
    }
}

impl<T: Drop> From<AllocFailed<T>> for ListFault<'_> {
    fn from(_fault: AllocFailed<T>) -> Self {
        ListFault::Memory
    }
}
