//! Why a talk with a meter ended early.

ghost use Rattle.std.specs.Prelude.{◌≡◌};
ghost use Rattle.dlms_call.specs.Asking.{told_of};
ghost use Rattle.dlms_call.specs.declared.fault.CallFault.TheVariants.{Talk as TalkOf};

use dlms_client::{AskFault, Fault};
use dlms_secured::SecuredFault;

/// Why a talk with a meter ended early.
#[derive(Clone, Copy, Debug, PartialEq, Eq)]
pub enum CallFault {
    /// The association is over.
    Talk(Fault),
    /// The security layer ended the association for this cause.
    Insecure(SecuredFault),
    /// The request is longer than the meter takes.
    TooLong,
    /// More octets of a value came than may.
    TooLarge,
    /// The line failed.
    Io,
    /// A growth was refused.
    Memory,
}

impl From<Fault> for CallFault {
    ghost from_gives = { λ fault given. given ≡ TalkOf fault };

    fn from(fault: Fault) -> CallFault {
        CallFault::Talk(fault)
    }
}

impl From<AskFault> for CallFault {
    ghost from_gives = { λ fault given. given ≡ told_of fault };

    fn from(fault: AskFault) -> CallFault {
        match fault {
            AskFault::TooLong => CallFault::TooLong,
            AskFault::Memory => CallFault::Memory,
        }
    }
}
