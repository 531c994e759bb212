//! Devices of pages of 512 bytes, and what a power failure may leave of them.
#![tactic(auto)]

mod asking;
mod descriptor;
mod device;
mod file;
mod folder;
mod history;
pub mod laws;
mod lock;
mod memory;
mod memory_slots;
mod past;
mod pick;
mod plan;
mod seal;
mod slot_file;
mod tear;

pub use asking::{Came, SlotCall};
pub use descriptor::refuse_standard;
pub use device::{DeviceFault, PAGE_BYTES, PageRead, Pages};
pub use file::FilePages;
pub use folder::sync_folder;
pub use lock::LockFile;
pub use memory::{Call, MemoryPages};
pub use memory_slots::MemorySlots;
pub use pick::{PageChoice, Pick};
pub use seal::{SLOT_BYTES, open_slot};
pub use slot_file::{FileSlots, SlotFile};
pub use tear::{SlotTear, SlotTears};
