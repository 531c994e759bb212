//! The size of a page in a file.
ghost use Rattle.std.specs.Prelude.{◌≡◌};
ghost use Rattle.dlms_pages.specs.Seal.{slot_of};

use dlms_pages::{PAGE_BYTES, SLOT_BYTES};
use sha2::{Digest, Sha256};

/// The octets of a page in a file: its content, and the SHA-256 of its index and of its content.
pub fn seal_slot(index: u16, content: &[u8; PAGE_BYTES]) -> [u8; SLOT_BYTES]
    ensures { result ≡ slot_of index content.now }
{
    let mut hasher = Sha256::new();
    hasher.update(index.to_be_bytes());
    hasher.update(content.as_slice());
    let seal = hasher.finalize();
    let mut slot = [0u8; SLOT_BYTES];
    slot[..PAGE_BYTES].copy_from_slice(content.as_slice());
    slot[PAGE_BYTES..].copy_from_slice(seal.as_slice());
    slot
}
