//! What identifies a key in a file.
ghost use Rattle.std.specs.Prelude.{◌≡◌};
ghost use Rattle.dlms_counters.specs.Fingerprint.{fingerprint_of};

use sha2::{Digest, Sha256};

/// The label in front of a key: "dlms counters 1".
const LABEL: [u8; 15] = [
    0x64, 0x6C, 0x6D, 0x73, 0x20, 0x63, 0x6F, 0x75, 0x6E, 0x74, 0x65, 0x72, 0x73, 0x20, 0x31,
];

/// The first 16 bytes of the SHA-256 of the label, the key and the own system title.
pub fn fingerprint_of(own: &[u8; 8], key: &[u8; 16]) -> [u8; 16]
    ensures { result ≡ fingerprint_of own.now key.now }
{
    let mut hasher = Sha256::new();
    hasher.update(LABEL.as_slice());
    hasher.update(key.as_slice());
    hasher.update(own.as_slice());
    let digest = hasher.finalize();
    let mut fingerprint = [0u8; 16];
    fingerprint.copy_from_slice(&digest[..16]);
    fingerprint
}
