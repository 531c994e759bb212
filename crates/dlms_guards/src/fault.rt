//! Why there is no guard, or why the counter of a meter was not kept.

use dlms_counters::CounterFault;
use dlms_keys::{CountersFault, FileFault};
use std::alloc::{AllocError, AllocFailed};
use std::io;

/// Why there is no guard, or why the counter of a meter was not kept.
#[derive(Clone, Copy)]
pub enum GuardFault {
    /// The file of settings was not read.
    Settings(FileFault),
    /// The file of frame counters was not opened.
    Counters(CountersFault),
    /// Frame counters were not reserved or kept.
    Stored(CounterFault),
    /// The system gave no random octets.
    Random(io::Error),
    /// A message of the meter is not newer than those of earlier associations.
    Stale,
    /// Out of memory.
    Memory,
}

impl From<AllocError> for GuardFault {
    fn from(_fault: AllocError) -> Self {
        GuardFault::Memory
    }
}

impl<T: Drop> From<AllocFailed<T>> for GuardFault {
    fn from(_fault: AllocFailed<T>) -> Self {
        GuardFault::Memory
    }
}
