//! Why a poll failed.

ghost use Rattle.std.specs.Prelude.{◌≡◌};
ghost use Rattle.dlms_headend.specs.PollFault.{number_of};
ghost use Rattle.dlms_headend.specs.declared.poll_fault.PollFault.TheVariants.{Memory};

use std::alloc::AllocError;
use std::fmt;
use thiserror::Error;

/// Why a poll failed. It is shown by its name in lower case, and by the number that it carries; other columns as `protocol`.
#[derive(Clone, Copy, Debug, PartialEq, Eq, Error)]
pub enum PollFault {
    /// The association was refused, with this diagnostic of the service user.
    Refused(u8),
    /// A request got this result instead of an answer; 250 represents an exception, too.
    Result(u8),
    /// Nobody answers: the fourth time-out in a row.
    Line,
    /// The link went down before the poll asked for that, or an answer had another form than the awaited one.
    Protocol,
    /// The load profile has other columns than the clock and the three registers, in their order.
    Columns,
    /// A growth was refused.
    Memory,
}

impl PollFault {
    /// The fault's number, from 1 for `Refused` to 5 for `Memory`; other columns are a fault of the protocol, 4.
    pub fn number(self) -> u8
        ensures { result ≡ number_of self }
    {
        match self {
            PollFault::Refused(_) => 1,
            PollFault::Result(_) => 2,
            PollFault::Line => 3,
            PollFault::Protocol | PollFault::Columns => 4,
            PollFault::Memory => 5,
        }
    }
}

impl fmt::Display for PollFault {
    ghost use Rattle.std.specs.Prelude.{Some};
    ghost use Rattle.dlms_headend.specs.PollFault.{text_of};

    ghost output = { λ fault. Some (text_of fault) };

    fn fmt<W: fmt::Write>(&self, f: &mut fmt::Formatter<W>) -> fmt::Result {
        match self {
            PollFault::Refused(diagnostic) => write!(f, "refused {diagnostic}"),
            PollFault::Result(result) => write!(f, "result {result}"),
            PollFault::Line => f.write_str("line"),
            PollFault::Protocol | PollFault::Columns => f.write_str("protocol"),
            PollFault::Memory => f.write_str("memory"),
        }
    }
}

impl From<AllocError> for PollFault {
    ghost from_gives = { λ _ fault. fault ≡ Memory };

    fn from(_e: AllocError) -> PollFault {
        PollFault::Memory
    }
}
