//! Why a row can't be played.

use std::alloc::{AllocError, AllocFailed};
use std::fmt;
use thiserror::Error;

/// Why a line gives no answer of its crate.
#[derive(Clone, Copy, Debug, Error)]
pub enum RowFault {
    /// The line names no call, or not what the call takes.
    #[error("a line is not understood")]
    Form,
    /// The subject of the line was not created.
    #[error("there is none")]
    Missing,
    /// This program itself has no memory.
    #[error("out of memory")]
    Memory,
}

impl From<AllocError> for RowFault {
    fn from(_e: AllocError) -> RowFault {
        RowFault::Memory
    }
}

impl<T: Drop> From<AllocFailed<T>> for RowFault {
    fn from(_e: AllocFailed<T>) -> RowFault {
        RowFault::Memory
    }
}

impl From<fmt::Error> for RowFault {
    fn from(_e: fmt::Error) -> RowFault {
        RowFault::Memory
    }
}
