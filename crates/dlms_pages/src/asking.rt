//! The calls of a file of slots.
use crate::seal::SLOT_BYTES;

/// The outcome of a read.
#[derive(Clone, Copy)]
pub enum Came {
    /// The slot's octets.
    Slot([u8; SLOT_BYTES]),
    /// The file ends before it has all of the slot.
    Short,
    /// The read failed.
    Failed,
}

/// A call of a file of slots and its outcome; for a write and a sync, whether it succeeded.
#[derive(Clone, Copy)]
pub enum SlotCall {
    /// The slot of this index was read.
    Reads {
        index: u16,
        came: Came,
    },
    /// These octets were written to the slot of this index.
    Writes {
        index: u16,
        slot: [u8; SLOT_BYTES],
        passed: bool,
    },
    /// What was written was to outlast a stop.
    Syncs {
        passed: bool,
    },
}
