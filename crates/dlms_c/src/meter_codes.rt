//! The codes of a meter's faults.
ghost use Rattle.std.specs.Prelude.{◌≡◌, ◌≢◌};
ghost use Rattle.dlms_c.specs.declared.codes.TheConstants.{DONE};
ghost use Rattle.dlms_c.specs.Codes.{add_code, open_code};

use crate::codes::{
    CORRUPT, DEVICE, DONE, EXHAUSTED, MEMORY, NO_CHECKPOINT, REFUSED, SIZE, STOPPED,
};
use dlms_store::{AddFault, OpenFault};

/// The code of an event's outcome.
pub fn of_event(outcome: &Result<(), AddFault>) -> u32
    ensures { result ≡ add_code outcome.now }
{
    match outcome {
        Ok(()) => DONE,
        Err(AddFault::Refused(refused)) => REFUSED + u32::from(refused.number()),
        Err(AddFault::Device) => DEVICE,
        Err(AddFault::Stopped) => STOPPED,
        Err(AddFault::Exhausted) => EXHAUSTED,
    }
}

/// The code of a meter that was not opened.
pub fn of_opening(fault: OpenFault) -> u32
    ensures code { result ≡ open_code fault }
    ensures fault { result ≢ DONE }
{
    match fault {
        OpenFault::Device => DEVICE,
        OpenFault::NoCheckpoint => NO_CHECKPOINT,
        OpenFault::Corrupt(_) => CORRUPT,
        OpenFault::Memory => MEMORY,
        OpenFault::Exhausted => EXHAUSTED,
        OpenFault::Size => SIZE,
    }
}
