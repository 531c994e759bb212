//! Why a readings file could not be read.

ghost use Rattle.std.specs.Prelude.{◌≡◌};
ghost use Rattle.dlms_headend.specs.ReadingsFault.{number_of};
ghost use Rattle.dlms_headend.specs.declared.readings_fault.ReadingsFault.TheVariants.{Memory};

use std::alloc::AllocError;
use std::fmt;
use thiserror::Error;

/// Why a readings file could not be read. `Memory` comes only after the other. It is shown by its name in lower case, followed by
/// its number, if it has one.
#[derive(Clone, Copy, Debug, PartialEq, Eq, Error)]
pub enum ReadingsFault {
    /// The line of this number, counted from 1, is the first that has not the form of a line.
    Line(usize),
    /// A growth was refused.
    Memory,
}

impl ReadingsFault {
    /// The fault's number: 1 for `Line`, 2 for `Memory`.
    pub fn number(self) -> u8
        ensures { result ≡ number_of self }
    {
        match self {
            ReadingsFault::Line(_) => 1,
            ReadingsFault::Memory => 2,
        }
    }
}

impl fmt::Display for ReadingsFault {
    ghost use Rattle.std.specs.Prelude.{Some};
    ghost use Rattle.dlms_headend.specs.ReadingsFault.{text_of};

    ghost output = { λ fault. Some (text_of fault) };

    fn fmt<W: fmt::Write>(&self, f: &mut fmt::Formatter<W>) -> fmt::Result {
        match self {
            ReadingsFault::Line(number) => write!(f, "line {number}"),
            ReadingsFault::Memory => f.write_str("memory"),
        }
    }
}

impl From<AllocError> for ReadingsFault {
    ghost from_gives = { λ _ fault. fault ≡ Memory };

    fn from(_e: AllocError) -> ReadingsFault {
        ReadingsFault::Memory
    }
}
