//! The blocks of one APDU so far.

use crate::block::{Block, block_in};
use arrayvec::ArrayVec;
use std::marker::Model;

/// The most octets of an APDU that is joined.
pub const MOST_JOINED: usize = 4096;

/// The outcome of a block.
#[derive(Clone, Copy, Debug, PartialEq, Eq)]
pub enum Step {
    /// It is kept, and further ones are to come.
    More,
    /// It is the last one: the APDU is complete.
    Whole,
    /// It is neither the next block nor the first one of an APDU.
    NotNext,
    /// With it, the APDU has more octets than are kept.
    Long,
}

/// The outcome of a block, and of those before it.
#[derive(Clone, Copy, Debug, PartialEq, Eq)]
pub struct Outcome {
    pub step: Step,
    /// Earlier blocks were dropped: the rest of their APDU did not come.
    pub is_torn: bool,
}

/// Blocks of one APDU, in the order of their numbers from 1 on. It allocates nothing.
#[derive(Drop)]
pub struct Blocks {
    octets: ArrayVec<u8, MOST_JOINED>,
    /// The number of the last block while further ones are to come, otherwise 0.
    last: u16,
}

impl Model for Blocks {
    ghost use Rattle.dlms_transfer.specs.Blocks.{Blocked};

    ghost Value = { Blocked };

    ghost view = { λ b. record { octets = b.octets.items; last = b.last } };
}

impl Blocks {
    ghost use Rattle.std.specs.Prelude.{◌≡◌, ◌++◌, [], nat_lt, option_map};
    ghost use Rattle.dlms_transfer.specs.Blocks.{block_in, block_of, blocks_so_far, kept_after, outcome_of, part_of};

    /// Before the first block.
    pub fn new() -> Self
        ensures { result ≡ record { octets = []; last = 0 } }
    {
        Blocks {
            octets: ArrayVec::new(),
            last: 0,
        }
    }

    /// The octets of the blocks so far: the APDU, once it is complete.
    pub fn apdu(&self) -> &[u8]
        ensures { result.now ≡ self.now.octets }
    {
        self.octets.as_slice()
    }

    /// Drops the blocks. Returns whether further ones were to come.
    pub fn clear(&mut self) -> bool
        ensures none { self.new ≡ record { octets = []; last = 0 } }
        ensures open { result ≡ nat_lt 0 self.old.last }
    {
        let was_open = self.last > 0;
        self.octets.clear();
        self.last = 0;
        was_open
    }

    /// Adds the octets of a block to the APDU so far.
    fn add(&mut self, block: Block<'_>, is_torn: bool) -> Outcome
        ensures outcome { result ≡ (blocks_so_far (part_of block.entry) is_torn (self.old.octets ++ block.entry.octets.now)).outcome }
        ensures kept { self.new ≡ (blocks_so_far (part_of block.entry) is_torn (self.old.octets ++ block.entry.octets.now)).kept }
    {
        if self.octets.try_extend_from_slice(block.octets).is_err() {
            self.clear();
            return Outcome {
                step: Step::Long,
                is_torn,
            };
        }
        self.last = if block.is_last { 0 } else { block.number };
        Outcome {
            step: if block.is_last {
                Step::Whole
            } else {
                Step::More
            },
            is_torn,
        }
    }

    /// Takes a block. The APDU of the call before is dropped.
    pub fn take(&mut self, block: Block<'_>) -> Outcome
        ensures outcome { result ≡ (block_of self.old (part_of block.entry)).outcome }
        ensures kept { self.new ≡ (block_of self.old (part_of block.entry)).kept }
    {
        if self.last > 0 && u32::from(block.number) == u32::from(self.last) + 1 {
            return self.add(block, false);
        }
        let is_torn = self.clear();
        if block.number == 1 {
            self.add(block, is_torn)
        } else {
            Outcome {
                step: Step::NotNext,
                is_torn,
            }
        }
    }

    /// Takes the block that is all of an APDU. Nothing changes if the APDU is another.
    pub fn offer(&mut self, apdu: &[u8]) -> Option<Outcome>
        ensures outcome { result ≡ outcome_of self.old (block_in apdu.now) }
        ensures kept { self.new ≡ kept_after self.old (block_in apdu.now) }
    {
        let block = block_in(apdu)?;
        Some(self.take(block))
    }
}
