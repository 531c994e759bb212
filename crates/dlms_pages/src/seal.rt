//! The bytes of a page in a file.
ghost use Rattle.std.specs.Prelude.{◌≡◌, ◌↔◌, IsTrue};
ghost use Rattle.dlms_pages.specs.Seal.{seal_of, slot_of, ReadsSlot};

use crate::device::{PAGE_BYTES, PageRead};
use sha2::{Digest, Sha256};

/// The bytes that a page takes in a file: its content and its seal.
pub const SLOT_BYTES: usize = 544;

fn seal(index: u16, content: &[u8; PAGE_BYTES]) -> [u8; 32]
    ensures { result ≡ seal_of index content.now }
{
    let mut hasher = Sha256::new();
    hasher.update(index.to_be_bytes());
    hasher.update(content.as_slice());
    hasher.finalize()
}

fn has_seal(index: u16, content: &[u8; PAGE_BYTES], bytes: &[u8]) -> bool
    ensures { IsTrue result ↔ (bytes.now ≡ seal_of index content.now) }
{
    let seal = seal(index, content);
    bytes == seal.as_slice()
}

/// The bytes of a page in the file.
pub fn seal_slot(index: u16, content: &[u8; PAGE_BYTES]) -> [u8; SLOT_BYTES]
    ensures { result ≡ slot_of index content.now }
{
    let seal = seal(index, content);
    let mut slot = [0u8; SLOT_BYTES];
    slot[..PAGE_BYTES].copy_from_slice(content.as_slice());
    slot[PAGE_BYTES..].copy_from_slice(seal.as_slice());
    slot
}

/// The content of a slot of the file.
pub fn open_slot(index: u16, slot: &[u8; SLOT_BYTES]) -> PageRead
    ensures { ReadsSlot index slot.now result }
{
    let mut content = [0u8; PAGE_BYTES];
    content.copy_from_slice(&slot[..PAGE_BYTES]);
    if has_seal(index, &content, &slot[PAGE_BYTES..]) {
        PageRead::Content(content)
    } else {
        PageRead::Damaged
    }
}
