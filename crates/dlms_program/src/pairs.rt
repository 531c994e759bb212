//! The bytes of a line of hexadecimal pairs.
ghost use Rattle.std.specs.Prelude.{◌≡◌, ◌≤◌, List, ℕ, [], length, IsTrue, MatchBool, Ok, take};
ghost use Rattle.hex.specs.Hex.{decode_of};
ghost use Rattle.dlms_program.specs.Pairs.{ArePairs};

use std::marker::Model;

/// The most bytes that the pairs of a line can spell.
pub const MOST_PAIRS: usize = 4095;

/// The bytes that were spelled last.
#[derive(Drop)]
pub struct Pairs {
    room: [u8; MOST_PAIRS],
    len: usize,
}

impl Model for Pairs {
    ghost use Rattle.std.specs.Prelude.{List, ℕ, take, ◌≤◌};

    ghost Value = { List ℕ };

    ghost view = { λ p. take p.len p.room };

    ghost invariant = { λ p. p.len ≤ 4095 };
}

impl Pairs {
    /// No bytes.
    pub fn new() -> Self
        ensures { result ≡ [] }
    {
        Pairs {
            room: [0; MOST_PAIRS],
            len: 0,
        }
    }

    /// The bytes.
    pub fn as_slice(&self) -> &[u8]
        ensures { result.now ≡ self.now }
    {
        &self.room[..self.len]
    }

    /// Takes the bytes that one or more pairs of hexadecimal digits of either case spell, and says whether they do.
    pub fn take(&mut self, digits: &[u8]) -> bool
        requires { length digits.now ≤ 8190 }
        ensures { MatchBool result (ArePairs digits.now self.new) ((bytes : List ℕ)
            → ArePairs digits.now bytes → ⊥) }
    {
        let count = digits.len() / 2;
        if count == 0 || hex::decode_to_slice(digits, &mut self.room[..count]).is_err() {
            return false;
        }
        self.len = count;
        true
    }
}
