//! Why an APDU could not be read.

ghost use Rattle.std.specs.Prelude.{◌≡◌};
ghost use Rattle.dlms_apdu.specs.Fault.{number_of, fault_of};
ghost use Rattle.dlms_apdu.specs.declared.fault.ApduFault.TheVariants.{Memory};

use std::alloc::AllocError;
use thiserror::Error;

/// Why the bytes could not be read: the first cause from left to right, and `Memory` only if there is no other.
#[derive(Clone, Copy, Debug, PartialEq, Eq, Error)]
pub enum ApduFault {
    /// The bytes end within the APDU, but not within a value.
    #[error("the bytes end within the APDU")]
    Short,
    /// No form has this byte here: it names no service and no form of one, it is an option other than 00
    /// and 01, or no length begins so.
    #[error("no form has this byte here")]
    Choice,
    /// Bytes follow the APDU.
    #[error("bytes follow the APDU")]
    Trailing,
    /// There is no valid value, also if the bytes end within it.
    #[error("a value is missing or invalid")]
    Data,
    /// A growth was refused.
    #[error("out of memory")]
    Memory,
}

impl ApduFault {
    /// The fault's number, from 1 for `Short` to 5 for `Memory`.
    pub fn number(self) -> u8
        ensures { result ≡ number_of self }
    {
        match self {
            ApduFault::Short => 1,
            ApduFault::Choice => 2,
            ApduFault::Trailing => 3,
            ApduFault::Data => 4,
            ApduFault::Memory => 5,
        }
    }
}

/// Why bytes are no APDU. Reporting it takes no memory.
#[derive(Clone, Copy, Debug, PartialEq, Eq)]
pub enum Refusal {
    /// As `ApduFault::Short`.
    Short,
    /// As `ApduFault::Choice`.
    Choice,
    /// As `ApduFault::Trailing`.
    Trailing,
    /// As `ApduFault::Data`.
    Data,
}

impl From<Refusal> for ApduFault {
    ghost from_gives = { λ refusal fault. fault ≡ fault_of refusal };

    fn from(refusal: Refusal) -> ApduFault {
        match refusal {
            Refusal::Short => ApduFault::Short,
            Refusal::Choice => ApduFault::Choice,
            Refusal::Trailing => ApduFault::Trailing,
            Refusal::Data => ApduFault::Data,
        }
    }
}

impl From<AllocError> for ApduFault {
    ghost from_gives = { λ _ fault. fault ≡ Memory };

    fn from(_e: AllocError) -> ApduFault {
        ApduFault::Memory
    }
}
