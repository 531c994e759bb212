//! Why a tool of the field ended early.
ghost use Rattle.std.specs.Prelude.{◌≡◌};
ghost use Rattle.dlms_lines.specs.declared.fault.FieldFault.TheVariants.{Other as OtherOf};

use dlms_call::CallFault;
use dlms_ends::RunFault;
use dlms_identity::Expected;
use std::io;

/// Why the rows of an answer are refused.
#[derive(Clone, Copy, PartialEq, Eq)]
pub enum ClockFault {
    /// The row of this number, counted from 1, is not later than the one before it.
    Fallen(usize),
    /// The row of this number, counted from 1, is too far past the system's clock.
    Ahead(usize),
}

/// Why a tool of the field ended early.
#[derive(Clone, Copy)]
pub enum FieldFault<'a> {
    /// At this file or address a call of the system failed, for which the system has these words.
    System(&'a str, io::Error),
    /// The secret has more than 16 bytes.
    Secret,
    /// The poll of this address was not done within this many seconds.
    Late(&'a str, u32),
    /// One of the rows from this address or file is refused for its clock.
    Clock(&'a str, ClockFault),
    /// The meter at this address does not show this text.
    Stranger(&'a str, Expected<'a>),
    /// The meter at this address could not be asked for a text.
    Unasked(&'a str, CallFault),
    /// Anything else.
    Other(RunFault),
}

impl<'a> From<RunFault> for FieldFault<'a> {
    ghost from_gives = { λ fault given. given ≡ OtherOf fault };

    fn from(fault: RunFault) -> FieldFault<'a> {
        FieldFault::Other(fault)
    }
}
