//! A block as four columns, and the rounds of AES over them (FIPS 197, 5.1 and 5.2).
ghost use Rattle.std.specs.Prelude.{◌≡◌, List, [], ◌∷◌};
ghost use Rattle.std.specs.Int.{w32, to_be_bytes};
ghost use Rattle.dlms_cipher.specs.Aes.{xor_octets, mix_column, round, last_round, next_key, sbox};
ghost use Rattle.dlms_cipher.specs.Columns.{octets_of};

use crate::tables::{mixed_octet, substitute};

/// A block. Each column is the number of its four octets, most significant octet first.
#[derive(Clone, Copy)]
pub(crate) struct Columns {
    pub(crate) first: u32,
    pub(crate) second: u32,
    pub(crate) third: u32,
    pub(crate) fourth: u32,
}

/// Four octets substituted and mixed as a column, plus a column of the round key.
#[inline(always)]
fn mixed_column(a: u8, b: u8, c: u8, d: u8, key: u32) -> u32
    ensures { to_be_bytes w32 result ≡ xor_octets (mix_column (sbox a) (sbox b) (sbox c) (sbox d)) (to_be_bytes w32 key) }
{
    mixed_octet(a)
        ^ mixed_octet(b).rotate_right(8)
        ^ mixed_octet(c).rotate_right(16)
        ^ mixed_octet(d).rotate_right(24)
        ^ key
}

/// Four octets substituted as a column, plus a column of the round key.
#[inline(always)]
fn plain_column(a: u8, b: u8, c: u8, d: u8, key: u32) -> u32
    ensures { to_be_bytes w32 result ≡ xor_octets (sbox a ∷ sbox b ∷ sbox c ∷ sbox d ∷ []) (to_be_bytes w32 key) }
{
    u32::from_be_bytes([substitute(a), substitute(b), substitute(c), substitute(d)]) ^ key
}

impl Columns {
    /// The block of these octets.
    #[inline]
    pub(crate) fn load(block: &[u8; 16]) -> Columns
        ensures { octets_of result ≡ block.now }
    {
        Columns {
            first: u32::from_be_bytes([block[0], block[1], block[2], block[3]]),
            second: u32::from_be_bytes([block[4], block[5], block[6], block[7]]),
            third: u32::from_be_bytes([block[8], block[9], block[10], block[11]]),
            fourth: u32::from_be_bytes([block[12], block[13], block[14], block[15]]),
        }
    }

    /// The octets of the block.
    #[inline]
    pub(crate) fn octets(self) -> [u8; 16]
        ensures { result ≡ octets_of self }
    {
        let [a0, a1, a2, a3] = self.first.to_be_bytes();
        let [b0, b1, b2, b3] = self.second.to_be_bytes();
        let [c0, c1, c2, c3] = self.third.to_be_bytes();
        let [d0, d1, d2, d3] = self.fourth.to_be_bytes();
        [
            a0, a1, a2, a3, b0, b1, b2, b3, c0, c1, c2, c3, d0, d1, d2, d3,
        ]
    }

    /// The sum of two blocks.
    #[inline]
    pub(crate) fn plus(self, other: Columns) -> Columns
        ensures { octets_of result ≡ xor_octets (octets_of self) (octets_of other) }
    {
        Columns {
            first: self.first ^ other.first,
            second: self.second ^ other.second,
            third: self.third ^ other.third,
            fourth: self.fourth ^ other.fourth,
        }
    }

    /// One of rounds 1 to 9.
    #[inline(always)]
    pub(crate) fn round(self, key: Columns) -> Columns
        ensures { octets_of result ≡ round (octets_of self) (octets_of key) }
    {
        let [a0, a1, a2, a3] = self.first.to_be_bytes();
        let [b0, b1, b2, b3] = self.second.to_be_bytes();
        let [c0, c1, c2, c3] = self.third.to_be_bytes();
        let [d0, d1, d2, d3] = self.fourth.to_be_bytes();
        Columns {
            first: mixed_column(a0, b1, c2, d3, key.first),
            second: mixed_column(b0, c1, d2, a3, key.second),
            third: mixed_column(c0, d1, a2, b3, key.third),
            fourth: mixed_column(d0, a1, b2, c3, key.fourth),
        }
    }

    /// Round 10, which does not mix columns.
    #[inline]
    pub(crate) fn last_round(self, key: Columns) -> Columns
        ensures { octets_of result ≡ last_round (octets_of self) (octets_of key) }
    {
        let [a0, a1, a2, a3] = self.first.to_be_bytes();
        let [b0, b1, b2, b3] = self.second.to_be_bytes();
        let [c0, c1, c2, c3] = self.third.to_be_bytes();
        let [d0, d1, d2, d3] = self.fourth.to_be_bytes();
        Columns {
            first: plain_column(a0, b1, c2, d3, key.first),
            second: plain_column(b0, c1, d2, a3, key.second),
            third: plain_column(c0, d1, a2, b3, key.third),
            fourth: plain_column(d0, a1, b2, c3, key.fourth),
        }
    }

    /// The round key after this one.
    pub(crate) fn next_key(self, constant: u8) -> Columns
        ensures { octets_of result ≡ next_key (octets_of self) constant }
    {
        let [d0, d1, d2, d3] = self.fourth.to_be_bytes();
        let turned = u32::from_be_bytes([
            substitute(d1) ^ constant,
            substitute(d2),
            substitute(d3),
            substitute(d0),
        ]);
        let first = self.first ^ turned;
        let second = self.second ^ first;
        let third = self.third ^ second;
        Columns {
            first,
            second,
            third,
            fourth: self.fourth ^ third,
        }
    }
}
