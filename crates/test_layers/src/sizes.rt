//! The sizes of heap on which a scenario is played.

use crate::fault::RowFault;
use crate::words::Words;

/// The sizes from `first` on, `count` of them, each `step` bytes above the one before. If `least` is there, memory is refused at
/// more than this many of them, and not at the last.
#[derive(Clone, Copy)]
pub struct Sizes {
    pub first: u32,
    pub step: u32,
    pub count: u32,
    pub least: Option<u32>,
}

/// The heaps of a scenario; one ample heap by default.
#[derive(Clone, Copy)]
pub enum Heaps {
    Ample,
    Each(Sizes),
}

impl Sizes {
    /// First, step, count, and least if it is there.
    pub fn read(words: &mut Words<'_>) -> Result<Sizes, RowFault> {
        Ok(Sizes {
            first: words.number()?,
            step: words.number()?,
            count: words.number()?,
            least: if words.is_empty() {
                None
            } else {
                Some(words.number()?)
            },
        })
    }
}
