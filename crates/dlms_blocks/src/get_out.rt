//! A value that is read, on its way out of the meter in blocks.
ghost use Rattle.std.specs.Prelude.{◌≡◌, ◌≤◌, ◌<◌, ◌-◌, length, MatchResult, Ok, Err};
ghost use Rattle.dlms_blocks.specs.BlockView.{view_of};
ghost use Rattle.dlms_blocks.specs.Going.{beginning, answer, after};
ghost use Rattle.dlms_blocks.specs.declared.block.TheConstants.{LEAST_SIZE, MOST_SIZE};
ghost use Rattle.dlms_blocks.specs.declared.get_out.TheConstants.{GET_HEAD};

use crate::block::Block;
use crate::value_out::ValueOut;
use std::alloc::{Allocator, Global};
use std::marker::Model;

/// The bytes of a read answer's block beside its raw data: the head of get-response-with-datablock.
pub const GET_HEAD: u16 = 12;

/// A value read that the meter gives in blocks. It owns the encoding at the request: what happens between the blocks
/// changes none of them.
#[derive(Drop)]
pub struct GetOut<A: Allocator = Global> {
    value: ValueOut<A>,
}

impl<A: Allocator> Model for GetOut<A> {
    ghost use Rattle.dlms_blocks.specs.Going.{Going};

    ghost Value = { Going };

    ghost view = { λ g. g.value };
}

impl<A: Allocator> GetOut<A> {
    /// A transfer of an encoding of 1 to 65,536 bytes, in APDUs of at most `size` bytes: `size - 12` bytes a block.
    pub fn start(encoding: Vec<u8, A>, size: u16) -> Self
        requires least { LEAST_SIZE ≤ size }
        requires most { size ≤ MOST_SIZE }
        requires some { 0 < length encoding.items }
        requires short { length encoding.items ≤ 65536 }
        ensures { result ≡ beginning encoding.items (size - GET_HEAD) }
    {
        GetOut {
            value: ValueOut::new(encoding, size - GET_HEAD),
        }
    }

    /// The block after this number, as `next` would give it; nothing changes.
    pub fn peek(&self, number: u32) -> Result<Block, u8>
        ensures { MatchResult result (λ found. answer self.now number ≡ Ok (view_of found))
            (λ code. answer self.now number ≡ Err code) }
    {
        self.value.peek(number)
    }

    /// The block after this number, which is that of the last block given (0 before the first). Another number is
    /// answered 19 and ends the transfer, as the last block does; then it is 16.
    pub fn next(&mut self, number: u32) -> Result<Block, u8>
        ensures answer { MatchResult result (λ found. answer self.old number ≡ Ok (view_of found))
            (λ code. answer self.old number ≡ Err code) }
        ensures after { self.new ≡ after self.old number }
    {
        self.value.next(number)
    }
}
