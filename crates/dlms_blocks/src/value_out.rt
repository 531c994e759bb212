//! A value that is sent in blocks.
ghost use Rattle.std.specs.Prelude.{◌≡◌, ◌≤◌, ◌<◌, ◌+◌, ◌-◌, ◌*◌, List, ℕ, length, take, drop, nat_le, MatchResult, Ok, Err};
ghost use Rattle.dlms_blocks.specs.Block.{block, block_bytes, is_last};
ghost use Rattle.dlms_blocks.specs.Going.{beginning, answer, after};
ghost use Rattle.dlms_blocks.specs.BlockView.{view_of};
ghost use Rattle.dlms_blocks.specs.declared.block.TheConstants.{MOST_BYTES};

use crate::block::{Block, MOST_BYTES, NO_LONG_GET, UNKNOWN_BLOCK};
use arrayvec::ArrayVec;
use std::alloc::{Allocator, Global};
use std::marker::Model;

/// A value that goes out in blocks.
#[derive(Drop)]
pub struct ValueOut<A: Allocator = Global> {
    encoding: Vec<u8, A>,
    room: u16,
    given: u32,
    over: bool,
}

impl<A: Allocator> Model for ValueOut<A> {
    ghost use Rattle.dlms_blocks.specs.Going.{Going, IsGoing};

    ghost Value = { Going };

    ghost view = { λ s. record { encoding = s.encoding.items; room = s.room; given = s.given; over = s.over } };

    ghost invariant = { λ s. IsGoing (record { encoding = s.encoding.items; room = s.room; given = s.given; over = s.over }) };
}

/// The bytes of a block.
fn stored(bytes: &[u8]) -> ArrayVec<u8, MOST_BYTES>
    requires { length bytes.now ≤ MOST_BYTES }
    ensures { result.items ≡ bytes.now }
{
    let mut stored = ArrayVec::new();
    let _fits = stored.try_extend_from_slice(bytes);
    stored
}

/// At most `room` bytes, from a place on.
fn cut(encoding: &[u8], from: usize, room: usize) -> ArrayVec<u8, MOST_BYTES>
    requires { room ≤ MOST_BYTES }
    ensures { result.items ≡ take room (drop from encoding.now) }
{
    let start = from.min(encoding.len());
    let rest = &encoding[start..];
    stored(&rest[..room.min(rest.len())])
}

impl<A: Allocator> ValueOut<A> {
    /// A new transfer, with `room` bytes in a block.
    pub fn new(encoding: Vec<u8, A>, room: u16) -> Self
        requires some { 0 < room }
        requires most { room ≤ MOST_BYTES }
        requires bytes { 0 < length encoding.items }
        requires short { length encoding.items ≤ 65536 }
        ensures { result ≡ beginning encoding.items room }
    {
        ValueOut {
            encoding,
            room,
            given: 0,
            over: false,
        }
    }

    /// The block of a number.
    fn block(&self, number: u32) -> Block
        requires some { 0 < number }
        requires few { number ≤ 65537 }
        ensures { view_of result ≡ block self.now.encoding self.now.room number }
    {
        let room = usize::from(self.room);
        let number_of_bytes = number as usize * room;
        let encoding = self.encoding.as_slice();
        Block {
            last: encoding.len() <= number_of_bytes,
            number,
            bytes: cut(encoding, (number as usize - 1) * room, room),
        }
    }

    /// The block after this number, which is that of the last block given.
    pub fn peek(&self, number: u32) -> Result<Block, u8>
        ensures { MatchResult result (λ found. answer self.now number ≡ Ok (view_of found))
            (λ code. answer self.now number ≡ Err code) }
    {
        if self.over {
            return Err(NO_LONG_GET);
        }
        if number != self.given {
            return Err(UNKNOWN_BLOCK);
        }
        let _len = self.encoding.len();
        Ok(self.block(self.given + 1))
    }

    /// As `peek`, and the transfer goes on, or is over.
    pub fn next(&mut self, number: u32) -> Result<Block, u8>
        ensures answer { MatchResult result (λ found. answer self.old number ≡ Ok (view_of found))
            (λ code. answer self.old number ≡ Err code) }
        ensures after { self.new ≡ after self.old number }
    {
        let answer = self.peek(number);
        match &answer {
            Ok(block) => {
                self.given = block.number;
                self.over = block.last;
            }
            Err(_) => self.over = true,
        }
        answer
    }
}
