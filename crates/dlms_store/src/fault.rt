//! Why a call was refused.
use dlms_pages::DeviceFault;
use dlms_state::Refused;
use thiserror::Error;

/// Why a store was not made or opened. The device is given back.
#[derive(Clone, Copy, Debug, PartialEq, Eq, Error)]
pub enum OpenFault {
    /// The device failed.
    #[error("device")]
    Device,
    /// No slot has a whole, open gate of a known version.
    #[error("nocheckpoint")]
    NoCheckpoint,
    /// This page of the active slot is damaged, or does not fit.
    #[error("corrupt {0}")]
    Corrupt(u16),
    /// A growth was refused.
    #[error("memory")]
    Memory,
    /// A checkpoint is due, and there is no further generation.
    #[error("exhausted")]
    Exhausted,
    /// The device has too few pages.
    #[error("size")]
    Size,
}

impl From<DeviceFault> for OpenFault {
    ghost use Rattle.std.specs.Prelude.{◌≡◌};
    ghost use Rattle.dlms_store.specs.declared.fault.OpenFault.TheVariants.{Device};

    ghost from_gives = { λ _ fault. fault ≡ Device };

    fn from(_: DeviceFault) -> Self {
        OpenFault::Device
    }
}

/// Why a commit or a checkpoint was not made.
#[derive(Clone, Copy, Debug, PartialEq, Eq, Error)]
pub enum StoreFault {
    /// The device failed. From now on the store is stopped.
    #[error("device")]
    Device,
    /// The device failed in an earlier call. Open it again.
    #[error("stopped")]
    Stopped,
    /// A checkpoint is due, and there is no further generation.
    #[error("exhausted")]
    Exhausted,
}

/// Why an event was not taken.
#[derive(Clone, Copy, Debug, PartialEq, Eq, Error)]
pub enum AddFault {
    /// The event may not come next.
    #[error("refused {}", .0.number())]
    Refused(Refused),
    /// The device failed. From now on the store is stopped, and this event is not in it.
    #[error("device")]
    Device,
    /// The device failed in an earlier call. Open it again.
    #[error("stopped")]
    Stopped,
    /// A checkpoint is due, and there is no further generation; or the event's row would have a number past 64 bits.
    #[error("exhausted")]
    Exhausted,
}

impl From<StoreFault> for AddFault {
    ghost use Rattle.std.specs.Prelude.{◌≡◌};
    ghost use Rattle.dlms_store.specs.Fault.{add_fault};

    ghost from_gives = { λ fault given. given ≡ add_fault fault };

    fn from(fault: StoreFault) -> Self {
        match fault {
            StoreFault::Device => AddFault::Device,
            StoreFault::Stopped => AddFault::Stopped,
            StoreFault::Exhausted => AddFault::Exhausted,
        }
    }
}
