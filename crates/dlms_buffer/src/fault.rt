//! Why a profile cannot be shown.

ghost use Rattle.std.specs.Prelude.{◌≡◌};
ghost use Rattle.dlms_buffer.specs.declared.fault.BufferFault.TheVariants.{Memory, Value as Unread};

use dlms_values::ValueFault;
use std::alloc::{AllocError, AllocFailed};
use thiserror::Error;

/// Why the capture objects or the rows cannot be shown.
#[derive(Clone, Copy, Debug, PartialEq, Eq, Error)]
pub enum BufferFault {
    /// The capture objects are not an array of structures of class, name, attribute and data index.
    #[error("the capture objects cannot be read")]
    Columns,
    /// A row is not a structure.
    #[error("a row of the buffer is not a structure")]
    Row,
    /// A row has more or fewer values than there are columns.
    #[error("a row of the buffer does not have one value for each column")]
    Width,
    /// A value of a row cannot be read.
    #[error("{0}")]
    Value(ValueFault),
    /// An allocation failed.
    #[error("out of memory")]
    Memory,
}

impl From<AllocError> for BufferFault {
    ghost from_gives = { λ _ e. e ≡ Memory };

    fn from(_e: AllocError) -> BufferFault {
        BufferFault::Memory
    }
}

impl<T: Drop> From<AllocFailed<T>> for BufferFault {
    ghost from_gives = { λ _ e. e ≡ Memory };

    fn from(_e: AllocFailed<T>) -> BufferFault {
        BufferFault::Memory
    }
}

impl From<ValueFault> for BufferFault {
    ghost from_gives = { λ fault e. e ≡ Unread fault };

    fn from(fault: ValueFault) -> BufferFault {
        BufferFault::Value(fault)
    }
}
