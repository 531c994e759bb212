//! Why a curve was not written.
ghost use Rattle.std.specs.Prelude.{◌≡◌};
ghost use Rattle.dlms_plot.specs.declared.fault.PlotFault.TheVariants.{Readings as ReadingsOf, Memory as MemoryOf, Output as OutputOf};

use dlms_headend::ReadingsFault;
use std::alloc::AllocError;
use std::io;
use thiserror::Error;

/// Why a curve was not written.
#[derive(Clone, Copy, Debug, Error)]
pub enum PlotFault {
    /// The text is not that of a readings file.
    #[error("{0}")]
    Readings(ReadingsFault),
    /// No row is of the chosen time.
    #[error("rows")]
    NoRows,
    /// A growth was refused.
    #[error("memory")]
    Memory,
    /// The output failed.
    #[error("io")]
    Output,
}

impl From<ReadingsFault> for PlotFault {
    ghost from_gives = { λ fault given. given ≡ ReadingsOf fault };

    fn from(fault: ReadingsFault) -> Self {
        PlotFault::Readings(fault)
    }
}

impl From<AllocError> for PlotFault {
    ghost from_gives = { λ _ given. given ≡ MemoryOf };

    fn from(_: AllocError) -> Self {
        PlotFault::Memory
    }
}

impl From<io::Error> for PlotFault {
    ghost from_gives = { λ _ given. given ≡ OutputOf };

    fn from(_: io::Error) -> Self {
        PlotFault::Output
    }
}
