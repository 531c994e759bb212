//! GCM with AES-128, a nonce of 96 bits and a tag of 96 bits (NIST SP 800-38D).
ghost use Rattle.std.specs.Prelude.{◌≡◌, ◌≤◌, ◌↔◌, [], ◌∷◌, ◌++◌, length, take, IsTrue};
ghost use Rattle.std.specs.Int.{w32, to_be_bytes};
ghost use Rattle.dlms_cipher.specs.Aes.{xor_octets, aes};
ghost use Rattle.dlms_cipher.specs.Columns.{octets_of};
ghost use Rattle.dlms_cipher.specs.Gcm.{ghash_from, blocks, block_of, ctr, ghash, hash_key, lengths, poly_of, tag_of};

use crate::aes::Aes;
use crate::columns::Columns;
use crate::ghash::{HashKey, load, store};

/// A GCM key: an AES key with its hash key.
#[derive(Drop)]
pub(crate) struct Gcm {
    pub(crate) cipher: Aes,
    pub(crate) hash: HashKey,
    ghost tied: { hash.h ≡ hash_key cipher.key },
}

/// The block of a nonce and a counter, as columns.
fn counter_block(nonce: &[u8; 12], counter: u32) -> Columns
    ensures { octets_of result ≡ nonce.now ++ to_be_bytes w32 counter }
{
    Columns {
        first: u32::from_be_bytes([nonce[0], nonce[1], nonce[2], nonce[3]]),
        second: u32::from_be_bytes([nonce[4], nonce[5], nonce[6], nonce[7]]),
        third: u32::from_be_bytes([nonce[8], nonce[9], nonce[10], nonce[11]]),
        fourth: counter,
    }
}

/// Adds as much of a pad as is needed to a part of a text.
fn add(part: &mut [u8], pad: &[u8; 16])
    requires { length part.old ≤ 16 }
    ensures { part.new ≡ xor_octets part.old pad.now }
{
    for i in 0..part.len() {
        part[i] ^= pad[i];
    }
}

/// Whether two tags are equal. The source looks at every octet before it decides.
pub(crate) fn same_tag(left: &[u8; 12], right: &[u8; 12]) -> bool
    ensures { IsTrue result ↔ (left.now ≡ right.now) }
{
    let mut difference: u8 = 0;
    for i in 0..12 {
        difference |= left[i] ^ right[i];
    }
    difference == 0
}

impl Gcm {
    /// Expands a key and computes its hash key.
    pub(crate) fn new(key: [u8; 16]) -> Gcm
        ensures { result.cipher.key ≡ key }
    {
        let cipher = Aes::new(key);
        let zero = Columns {
            first: 0,
            second: 0,
            third: 0,
            fourth: 0,
        };
        let hash = HashKey::new(load(&cipher.encrypt(zero).octets()));
        Gcm { cipher, hash }
    }

    /// Encrypts a text, or decrypts a ciphertext, in place.
    pub(crate) fn apply(&self, nonce: &[u8; 12], text: &mut [u8])
        ensures { text.new ≡ ctr self.now.cipher.key nonce.now text.old }
    {
        let mut counter: u32 = 2;
        let mut at = 0;
        while at < text.len() {
            let end = (at + 16).min(text.len());
            let pad = self.cipher.encrypt(counter_block(nonce, counter)).octets();
            add(&mut text[at..end], &pad);
            counter = counter.wrapping_add(1);
            at = end;
        }
    }

    /// The hash of the additional data so far. The rest continues the head's last block, so no buffer joins them.
    fn absorb_head(&self, head: &[u8; 17], rest: &[u8]) -> u128
        ensures { result ≡ ghash_from (hash_key self.now.cipher.key) 0 (blocks (head.now ++ rest.now)) }
    {
        let first = self.hash.absorb(0, &head[..16]);
        let filling = rest.len().min(15);
        let mut second = [0; 16];
        second[0] = head[16];
        second[1..1 + filling].copy_from_slice(&rest[..filling]);
        let sum = self.hash.absorb(first, &second[..1 + filling]);
        self.hash.absorb(sum, &rest[filling..])
    }

    /// The polynomial of the last block: the lengths of both parts in bits.
    fn last_block(head: &[u8; 17], rest: &[u8], ciphertext: &[u8]) -> u128
        ensures { result ≡ poly_of (lengths (head.now ++ rest.now) ciphertext.now) }
    {
        let aad_bits = ((head.len() + rest.len()) as u64).wrapping_mul(8);
        let text_bits = (ciphertext.len() as u64).wrapping_mul(8);
        let [a0, a1, a2, a3, a4, a5, a6, a7] = aad_bits.to_be_bytes();
        let [b0, b1, b2, b3, b4, b5, b6, b7] = text_bits.to_be_bytes();
        load(&[
            a0, a1, a2, a3, a4, a5, a6, a7, b0, b1, b2, b3, b4, b5, b6, b7,
        ])
    }

    /// The tag of a ciphertext whose additional data are a head and a rest.
    pub(crate) fn tag(
        &self,
        nonce: &[u8; 12],
        head: &[u8; 17],
        rest: &[u8],
        ciphertext: &[u8],
    ) -> [u8; 12]
        ensures { result ≡ tag_of self.now.cipher.key nonce.now (head.now ++ rest.now) ciphertext.now }
    {
        let absorbed_head = self.absorb_head(head, rest);
        let absorbed_text = self.hash.absorb(absorbed_head, ciphertext);
        let hash = self
            .hash
            .times(absorbed_text ^ Gcm::last_block(head, rest, ciphertext));
        let sum = store(hash);
        let mask = self.cipher.encrypt(counter_block(nonce, 1)).octets();
        [
            sum[0] ^ mask[0],
            sum[1] ^ mask[1],
            sum[2] ^ mask[2],
            sum[3] ^ mask[3],
            sum[4] ^ mask[4],
            sum[5] ^ mask[5],
            sum[6] ^ mask[6],
            sum[7] ^ mask[7],
            sum[8] ^ mask[8],
            sum[9] ^ mask[9],
            sum[10] ^ mask[10],
            sum[11] ^ mask[11],
        ]
    }
}
