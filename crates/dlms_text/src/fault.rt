//! Why a text or an encoding gives no value.

ghost use Rattle.std.specs.Prelude.{◌≡◌};
ghost use Rattle.dlms_text.specs.Walking.{fault_of};
ghost use Rattle.dlms_text.specs.declared.fault.ValueFault.TheVariants.{Memory};

use dlms_data::DataFault;
use std::alloc::{AllocError, AllocFailed};
use thiserror::Error;

/// Why a text or an encoding gives no value.
#[derive(Clone, Copy, Debug, PartialEq, Eq, Error)]
pub enum ValueFault {
    /// It is not the text or the encoding of a value.
    #[error("a value is wanted as u32:900, text:.., hex:.., raw:.., now or null")]
    Form,
    /// An allocation failed.
    #[error("out of memory")]
    Memory,
}

/// The fault of bytes that could not be read as a value: `Memory` if an allocation failed, otherwise `Form`.
pub fn of_data(fault: DataFault) -> ValueFault
    ensures { result ≡ fault_of fault }
{
    match fault {
        DataFault::Memory => ValueFault::Memory,
        DataFault::Short | DataFault::Tag | DataFault::Length | DataFault::Depth =>
            ValueFault::Form,
    }
}

impl From<AllocError> for ValueFault {
    ghost from_gives = { λ _ fault. fault ≡ Memory };

    fn from(_e: AllocError) -> ValueFault {
        ValueFault::Memory
    }
}

impl From<AllocFailed<u8>> for ValueFault {
    ghost from_gives = { λ _ fault. fault ≡ Memory };

    fn from(_e: AllocFailed<u8>) -> ValueFault {
        ValueFault::Memory
    }
}
