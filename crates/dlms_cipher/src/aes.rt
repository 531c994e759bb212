//! AES with a key of 128 bits (FIPS 197). GCM never decrypts a block, so only encryption is here.
ghost use Rattle.std.specs.Prelude.{◌≡◌};
ghost use Rattle.dlms_cipher.specs.Aes.{aes};
ghost use Rattle.dlms_cipher.specs.Columns.{octets_of, IsExpanded};

use crate::columns::Columns;
use crate::tables::round_constant;

/// A key with its eleven round keys.
#[derive(Drop)]
pub(crate) struct Aes {
    pub(crate) key: [u8; 16],
    round_keys: [Columns; 11],
    ghost expanded: { IsExpanded key round_keys },
}

impl Aes {
    /// Expands a key.
    pub(crate) fn new(key: [u8; 16]) -> Aes
        ensures { result.key ≡ key }
    {
        let mut round_keys = [Columns::load(&key); 11];
        for i in 0..10 {
            round_keys[i + 1] = round_keys[i].next_key(round_constant(i));
        }
        Aes { key, round_keys }
    }

    /// Encrypts a block.
    pub(crate) fn encrypt(&self, block: Columns) -> Columns
        ensures { octets_of result ≡ aes self.now.key (octets_of block) }
    {
        let mut state = block.plus(self.round_keys[0]);
        for i in 1..10 {
            state = state.round(self.round_keys[i]);
        }
        state.last_round(self.round_keys[10])
    }
}
