//! General block transfer (IEC 62056-5-3, 9.3.5): an APDU in numbered blocks, joined.
#![tactic(auto)]

mod block;
mod blocks;

pub use block::{Block, block_in};
pub use blocks::{Blocks, MOST_JOINED, Outcome, Step};
