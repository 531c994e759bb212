//! Strings of octets.

ghost use Rattle.std.specs.Prelude.{◌≡◌, ◌<◌, IfOk, OnErr, length};

use std::alloc::{AllocError, Allocator, Global};
use std::marker::Model;

/// Bytes that contracts see as a list.
#[derive(Debug, Drop)]
pub struct Bytes<A: Allocator = Global> {
    bytes: Vec<u8, A>,
}

impl<A: Allocator> Model for Bytes<A> {
    ghost use Rattle.std.specs.Prelude.{List, ℕ};

    ghost Value = { List ℕ };

    ghost view = { λ b. b.bytes.items };
}

/// A copy of the bytes in a vector of exactly their size. No memory is allocated if there are none.
pub fn copied<A: Allocator>(alloc: A, bytes: &[u8]) -> Result<Vec<u8, A>, AllocError>
    ensures items { IfOk result (λ copy. copy.items ≡ bytes.now) }
    ensures memory { OnErr result (0 < length bytes.now) }
{
    let mut copy = Vec::with_capacity(alloc, bytes.len())?;
    copy.extend_from_slice(bytes)?;
    Ok(copy)
}

impl<A: Allocator> Bytes<A> {
    /// A copy of the bytes, which takes no memory if there are none.
    pub fn from_slice(alloc: A, bytes: &[u8]) -> Result<Bytes<A>, AllocError>
        ensures items { IfOk result (λ b. b ≡ bytes.now) }
        ensures memory { OnErr result (0 < length bytes.now) }
    {
        let bytes = copied(alloc, bytes)?;
        Ok(Bytes { bytes })
    }

    /// The bytes of a vector.
    pub fn from_vec(bytes: Vec<u8, A>) -> Bytes<A>
        ensures { result ≡ bytes.items }
    {
        Bytes { bytes }
    }

    /// The bytes, in their order.
    pub fn as_slice(&self) -> &[u8]
        ensures { result.now ≡ self.now }
    {
        &self.bytes
    }

    /// The vector of the bytes.
    pub fn into_vec(self) -> Vec<u8, A>
        ensures { result.items ≡ self }
    {
        self.bytes
    }
}
