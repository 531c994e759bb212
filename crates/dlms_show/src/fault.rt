//! Why a file was not told.

use std::alloc::AllocError;
use std::io;
use thiserror::Error;

/// Why a file was not shown. Its contents are never a fault.
#[derive(Clone, Copy, Debug, Error)]
pub enum ShowFault {
    /// The file could not be opened or read, for which the system has this error.
    #[error("io")]
    File(io::Error),
    /// A growth was refused.
    #[error("memory")]
    Memory,
    /// The output failed.
    #[error("io")]
    Output,
}

impl From<AllocError> for ShowFault {
    fn from(_: AllocError) -> Self {
        ShowFault::Memory
    }
}

impl From<io::Error> for ShowFault {
    fn from(_: io::Error) -> Self {
        ShowFault::Output
    }
}
