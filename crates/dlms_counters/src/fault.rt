//! Why a call was refused.
use dlms_pages::DeviceFault;
use thiserror::Error;

/// Why a file was not made. The device is given back.
#[derive(Clone, Copy, Debug, PartialEq, Eq, Error)]
pub enum CreateFault {
    /// The device failed.
    #[error("device")]
    Device,
    /// The device does not have [`crate::SLOTS`] pages.
    #[error("size")]
    Size,
    /// A page holds something. Nothing was written.
    #[error("occupied")]
    Occupied,
}

impl From<DeviceFault> for CreateFault {
    ghost use Rattle.std.specs.Prelude.{◌≡◌};
    ghost use Rattle.dlms_counters.specs.declared.fault.CreateFault.TheVariants.{Device};

    ghost from_gives = { λ _ fault. fault ≡ Device };

    fn from(_: DeviceFault) -> Self {
        CreateFault::Device
    }
}

/// Why a file was not opened. The device is given back. No fault means that counters may begin at 0: restore the file, or ask an
/// operator for a value above every counter that was used.
#[derive(Clone, Copy, Debug, PartialEq, Eq, Error)]
pub enum OpenFault {
    /// The device failed.
    #[error("device")]
    Device,
    /// The device does not have [`crate::SLOTS`] pages, as if the file is empty.
    #[error("size")]
    Size,
    /// No slot can be read.
    #[error("damaged")]
    Damaged,
    /// The file is of another own system title.
    #[error("anothertitle")]
    AnotherTitle,
    /// The file is of another key.
    #[error("anotherkey")]
    AnotherKey,
}

impl From<DeviceFault> for OpenFault {
    ghost use Rattle.std.specs.Prelude.{◌≡◌};
    ghost use Rattle.dlms_counters.specs.declared.fault.OpenFault.TheVariants.{Device};

    ghost from_gives = { λ _ fault. fault ≡ Device };

    fn from(_: DeviceFault) -> Self {
        OpenFault::Device
    }
}

/// Why counters were not kept.
#[derive(Clone, Copy, Debug, PartialEq, Eq, Error)]
pub enum CounterFault {
    /// The device failed. From now on the file is stopped: it may have the old contents or the new ones.
    #[error("device")]
    Device,
    /// The device failed in an earlier call. Open it again.
    #[error("stopped")]
    Stopped,
    /// The file has [`crate::MOST_PEERS`] peers, and this is another one. Nothing was written.
    #[error("full")]
    Full,
    /// The slots were written 2^64 - 1 times. Nothing was written.
    #[error("exhausted")]
    Exhausted,
}
