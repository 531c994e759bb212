//! GHASH (NIST SP 800-38D, 6.3 and 6.4), four coefficients at a time.
ghost use Rattle.std.specs.Prelude.{◌≡◌, ◌<◌, ◌≤◌, ◌/◌, length};
ghost use Rattle.dlms_cipher.specs.Field.{block_product, part_product, double_of};
ghost use Rattle.dlms_cipher.specs.Gcm.{poly_of, block_of, ghash_from, blocks};
ghost use Rattle.dlms_cipher.specs.Multiples.{IsTableOf};

use crate::tables::{mirror, reduction};

/// The polynomial of a block.
fn load_block(block: [u8; 16]) -> u128
    ensures { result ≡ poly_of block }
{
    u128::from_le_bytes([
        mirror(block[0]),
        mirror(block[1]),
        mirror(block[2]),
        mirror(block[3]),
        mirror(block[4]),
        mirror(block[5]),
        mirror(block[6]),
        mirror(block[7]),
        mirror(block[8]),
        mirror(block[9]),
        mirror(block[10]),
        mirror(block[11]),
        mirror(block[12]),
        mirror(block[13]),
        mirror(block[14]),
        mirror(block[15]),
    ])
}

/// The polynomial of at most 16 octets, padded with zeros.
pub(crate) fn load(octets: &[u8]) -> u128
    requires { length octets.now ≤ 16 }
    ensures { result ≡ poly_of octets.now }
{
    let mut block = [0; 16];
    block[..octets.len()].copy_from_slice(octets);
    load_block(block)
}

/// The block of a polynomial.
pub(crate) fn store(p: u128) -> [u8; 16]
    ensures { result ≡ block_of 16 p }
{
    let block = p.to_le_bytes();
    [
        mirror(block[0]),
        mirror(block[1]),
        mirror(block[2]),
        mirror(block[3]),
        mirror(block[4]),
        mirror(block[5]),
        mirror(block[6]),
        mirror(block[7]),
        mirror(block[8]),
        mirror(block[9]),
        mirror(block[10]),
        mirror(block[11]),
        mirror(block[12]),
        mirror(block[13]),
        mirror(block[14]),
        mirror(block[15]),
    ]
}

/// x times a polynomial.
fn double(p: u128) -> u128
    ensures { result ≡ double_of p }
{
    if p >> 127 == 1 {
        (p << 1) ^ 0x87
    } else {
        p << 1
    }
}

/// The product of the hash key and the polynomial `by`, from that of `by / 2`.
fn multiple(h: u128, by: usize, half: u128) -> u128
    requires below { by < 16 }
    requires half { half ≡ part_product 4 (by / 2) h }
    ensures { result ≡ part_product 4 by h }
{
    let twice = double(half);
    if by % 2 == 1 { h ^ twice } else { twice }
}

/// A hash key, with its products with the 16 polynomials of degree below 4.
#[derive(Drop)]
pub(crate) struct HashKey {
    pub(crate) h: u128,
    multiples: [u128; 16],
    ghost table: { IsTableOf h multiples },
}

impl HashKey {
    /// Fills the table of a hash key.
    pub(crate) fn new(h: u128) -> HashKey
        ensures { result.h ≡ h }
    {
        let mut multiples = [0u128; 16];
        for i in 1..16 {
            multiples[i] = multiple(h, i, multiples[i / 2]);
        }
        HashKey { h, multiples }
    }

    /// The product of a polynomial and the hash key.
    pub(crate) fn times(&self, a: u128) -> u128
        ensures { result ≡ block_product a self.now.h }
    {
        let mut product: u128 = 0;
        for i in 0u32..32 {
            let low = (a >> (124 - 4 * i)) & 15;
            product = (product << 4) ^ reduction(product >> 124) ^ self.multiples[low as usize];
        }
        product
    }

    /// The hash from a given sum on, over all blocks of these octets. The last block is padded with zeros.
    pub(crate) fn absorb(&self, start: u128, octets: &[u8]) -> u128
        ensures { result ≡ ghash_from self.now.h start (blocks octets.now) }
    {
        let mut sum = start;
        let mut at = 0;
        while at < octets.len() {
            let end = (at + 16).min(octets.len());
            sum = self.times(sum ^ load(&octets[at..end]));
            at = end;
        }
        sum
    }
}
