//! Bit strings.

ghost use Rattle.std.specs.Prelude.{◌≡◌, ◌↔◌, length, take, IsTrue};
ghost use Rattle.dlms_data.specs.Bits.{bits_of, bytes_for, HoldsBits};

use std::alloc::{Allocator, Global};
use std::marker::Model;

/// Bits that contracts see as a list. The first is the highest of the first byte.
#[derive(Debug, Drop)]
pub struct Bits<A: Allocator = Global> {
    bytes: Vec<u8, A>,
    count: usize,
}

impl<A: Allocator> Model for Bits<A> {
    ghost use Rattle.std.specs.Prelude.{◌≡◌, List, Bool, length, take};
    ghost use Rattle.dlms_data.specs.Bits.{bits_of, bytes_for};

    ghost Value = { List Bool };

    ghost view = { λ b. take b.count (bits_of b.bytes.items) };

    ghost invariant = { λ b. length b.bytes.items ≡ bytes_for b.count };
}

impl<A: Allocator> Bits<A> {
    /// The first `count` bits of bytes, of which there are as many as the bits need. The bits after
    /// them are not looked at.
    pub fn from_vec(bytes: Vec<u8, A>, count: usize) -> Bits<A>
        requires { length bytes.items ≡ bytes_for count }
        ensures { result ≡ take count (bits_of bytes.items) }
    {
        Bits { bytes, count }
    }

    /// How many bits there are.
    pub fn len(&self) -> usize
        ensures { result ≡ length self.now }
    {
        self.count
    }

    /// Whether there are no bits.
    pub fn is_empty(&self) -> bool
        ensures { IsTrue result ↔ (length self.now ≡ 0) }
    {
        self.len() == 0
    }

    /// The bytes that hold the bits. The bits after the last one can have any value.
    pub fn as_bytes(&self) -> &[u8]
        ensures { HoldsBits result.now self.now }
    {
        &self.bytes
    }
}
