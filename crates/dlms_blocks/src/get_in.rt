//! A value read that comes to the client in blocks.
ghost use Rattle.std.specs.Prelude.{◌≡◌, ◌<◌, ◌⊎◌, ◌++◌, Bool, true, false, length, MatchResult, IfOk, IfErr, IsTrue};
ghost use Rattle.dlms_blocks.specs.Joining.{empty, is_next, with_block};

use crate::block::{TEMPORARY_FAILURE, UNKNOWN_BLOCK};
use std::alloc::{Allocator, Global};
use std::marker::Model;

/// A value read that comes in blocks.
#[derive(Drop)]
pub struct GetIn<A: Allocator = Global> {
    joined: Vec<u8, A>,
    taken: u32,
    over: bool,
}

impl<A: Allocator> Model for GetIn<A> {
    ghost use Rattle.dlms_blocks.specs.Joining.{Joining};

    ghost Value = { Joining };

    ghost view = { λ g. record { joined = g.joined.items; taken = g.taken; over = g.over } };
}

impl<A: Allocator> GetIn<A> {
    /// Before the first block. No memory is taken here.
    pub fn new(alloc: A) -> Self
        ensures { result ≡ empty }
    {
        GetIn {
            joined: Vec::new(alloc),
            taken: 0,
            over: false,
        }
    }

    /// What was joined.
    pub fn bytes(&self) -> &[u8]
        ensures { result.now ≡ self.now.joined }
    {
        self.joined.as_slice()
    }

    /// Accepts a block, and returns whether it was the last. A number other than the next, and a block after the last, are answered
    /// 19; a failed allocation is answered 2, which never answers a block of no bytes; both change nothing. After number 2^32 - 1
    /// no number is the next.
    pub fn more(&mut self, last: bool, number: u32, bytes: &[u8]) -> Result<bool, u8>
        ensures ok { IfOk result (λ whole. (whole ≡ last) × (is_next self.old number ≡ true)
            × (self.new ≡ with_block self.old last number bytes.now)) }
        ensures err { IfErr result (λ code. ((code ≡ 19) × (is_next self.old number ≡ false))
            ⊎ ((code ≡ 2) × (is_next self.old number ≡ true) × (0 < length bytes.now))) }
        ensures same { IfErr result (λ code. self.new ≡ self.old) }
    {
        if self.over || self.taken == u32::MAX || number != self.taken + 1 {
            return Err(UNKNOWN_BLOCK);
        }
        if self.joined.extend_from_slice(bytes).is_err() {
            return Err(TEMPORARY_FAILURE);
        }
        self.taken = number;
        self.over = last;
        Ok(last)
    }
}
