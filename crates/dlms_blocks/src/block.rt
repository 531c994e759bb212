//! A block, and the results that refuse one.

use arrayvec::ArrayVec;

/// The fewest bytes of an APDU on which two ends may agree.
pub const LEAST_SIZE: u16 = 64;

/// The most bytes of an APDU.
pub const MOST_SIZE: u16 = 1024;

/// The most bytes of a block.
pub const MOST_BYTES: usize = 1012;

/// The result, in the standard's list of results, if the number is not the next one.
pub const UNKNOWN_BLOCK: u8 = 19;

/// The result of a next block if no long get is in progress.
pub const NO_LONG_GET: u8 = 16;

/// The result of a further block if no long set is in progress.
pub const NO_LONG_SET: u8 = 18;

/// The result of a block that makes the value longer than fits.
pub const LONG_SET_ABORTED: u8 = 17;

/// The result if an allocation fails.
pub const TEMPORARY_FAILURE: u8 = 2;

/// One block of a long value. Blocks are numbered from 1, and the last one is marked.
#[derive(Debug, Drop)]
pub struct Block {
    pub last: bool,
    pub number: u32,
    pub bytes: ArrayVec<u8, MOST_BYTES>,
}

/// How a block that was accepted changes a transfer.
#[derive(Clone, Copy, Debug, PartialEq, Eq)]
pub enum PutStep {
    /// Further blocks are to come.
    More,
    /// The value is whole.
    Whole,
}
