//! APDUs in the blocks of a general block transfer (IEC 62056-5-3, 9.3.5), joined.

use crate::service_text::write_joined;
use crate::words::{Text, line, number_line};
use dlms_dissect::{Joined, Side};
use dlms_transfer::{Block, Blocks, Outcome, Step};
use std::alloc::{AllocError, Allocator};

/// The blocks that one end sends, and those of the other.
#[derive(Drop)]
pub struct Transfers {
    client: Blocks,
    meter: Blocks,
}

impl Transfers {
    /// Before the first block.
    fn new() -> Transfers {
        Transfers {
            client: Blocks::new(),
            meter: Blocks::new(),
        }
    }

    /// Takes a block from this side.
    fn take(&mut self, side: Option<Side>, block: Block<'_>) -> Outcome {
        match side {
            Some(Side::Client) => self.client.take(block),
            _ => self.meter.take(block),
        }
    }

    /// The APDU that the last block from this side completed.
    fn apdu(&self, side: Option<Side>) -> &[u8] {
        match side {
            Some(Side::Client) => self.client.apdu(),
            _ => self.meter.apdu(),
        }
    }
}

/// The blocks of both ends so far. Memory is taken for the first block.
pub type Kept<A> = Option<Box<Transfers, A>>;

/// The blocks so far, or before the first one.
#[inline(never)]
pub fn begun<A: Allocator>(alloc: A, kept: Kept<A>) -> Result<Box<Transfers, A>, AllocError> {
    match kept {
        Some(transfers) => Ok(transfers),
        None => Ok(Box::new(alloc, Transfers::new())?),
    }
}

/// Takes a block from this side and writes why it is not joined, or how many octets the APDU has that it completes. Returns that
/// APDU.
pub fn take_block<'a, A: Allocator>(
    text: &mut Text<A>,
    transfers: &'a mut Transfers,
    side: Option<Side>,
    block: Block<'_>,
) -> Option<&'a [u8]> {
    let Outcome { step, is_torn } = transfers.take(side, block);
    if is_torn {
        line(text, 2, "the blocks before it are not complete");
    }
    match step {
        Step::More => None,
        Step::NotNext => {
            write_joined(text, Joined::NotNext);
            None
        }
        Step::Long => {
            write_joined(text, Joined::TooLong);
            None
        }
        Step::Whole => {
            let apdu = transfers.apdu(side);
            text.mark_joined(apdu.len());
            number_line(text, 2, "all blocks joined, ", apdu.len() as u64, " octets");
            Some(apdu)
        }
    }
}
