//! Laws over whole transfers, and that the calls are those of which the laws speak.
ghost use Rattle.std.specs.Prelude.{◌≡◌, ◌*◌, ◌<◌, ℕ, List, true, take};
ghost use Rattle.dlms_blocks.specs.Block.{blocks_up_to, is_last};
ghost use Rattle.dlms_blocks.specs.Calls.{IsCall, seen, GiveTheBlocks, JoinToTheValue, GiveEachInOrder};
ghost use Rattle.dlms_blocks.specs.declared.block.TheConstants.{LEAST_SIZE, MOST_SIZE, MOST_BYTES, UNKNOWN_BLOCK, NO_LONG_GET, NO_LONG_SET, LONG_SET_ABORTED, TEMPORARY_FAILURE};
ghost use Rattle.dlms_blocks.specs.declared.get_out.TheConstants.{GET_HEAD};
ghost use Rattle.dlms_blocks.specs.declared.put_out.TheConstants.{PUT_HEAD};
ghost use Rattle.dlms_blocks.specs.declared.put_in.TheConstants.{MOST_BYTES as MOST_VALUE};

use crate::block::Block;
use crate::get_out::GetOut;
use crate::put_out::PutOut;
use std::alloc::Allocator;

/// The blocks of one encoding, joined, are a beginning of it, and all of it once the last is given.
pub fn blocks_join()
    ensures beginning { (encoding : List ℕ) (room n : ℕ)
        → blocks_up_to encoding room n ≡ take (n * room) encoding }
    ensures whole { (encoding : List ℕ) (room n : ℕ) → is_last encoding room n ≡ true
        → blocks_up_to encoding room n ≡ encoding }
{}

/// Calls for the blocks of one value, one after another, whatever numbers they ask for: the blocks that they return have the
/// numbers 1, 2, 3 and so on, none comes after the last, and joined they are the value. Calls that ask for each block in order get
/// each, up to the last.
pub fn calls_give_the_value()
    ensures blocks { GiveTheBlocks }
    ensures joined { JoinToTheValue }
    ensures in_order { GiveEachInOrder }
{}

/// `GetOut::next` is such a call.
pub fn get_is_a_call<A: Allocator>(read: &mut GetOut<A>, number: u32) -> Result<Block, u8>
    ensures { IsCall read.old (record { number = number; answered = seen result }) read.new }
{
    read.next(number)
}

/// `PutOut::next` is such a call.
pub fn put_is_a_call<A: Allocator>(set: &mut PutOut<A>, number: u32) -> Result<Block, u8>
    ensures { IsCall set.old (record { number = number; answered = seen result }) set.new }
{
    set.next(number)
}

/// The numbers that clauses and definitions cite by name: sizes in bytes, and data access results.
pub fn the_numbers()
    ensures sizes { (LEAST_SIZE ≡ 64) × (MOST_SIZE ≡ 1024) }
    ensures heads { (GET_HEAD ≡ 12) × (PUT_HEAD ≡ 21) }
    ensures most { (MOST_BYTES ≡ 1012) × (MOST_VALUE ≡ 1024) }
    ensures results { (TEMPORARY_FAILURE ≡ 2) × (NO_LONG_GET ≡ 16) × (LONG_SET_ABORTED ≡ 17)
        × (NO_LONG_SET ≡ 18) × (UNKNOWN_BLOCK ≡ 19) }
{}
