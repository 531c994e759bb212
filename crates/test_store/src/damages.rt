//! Damages to the bytes of a file of three pages, and what the pages then read as.

use crate::asked::Came;
use std::alloc::{AllocError, Global};

/// The bytes of a page and its seal.
pub const SLOT: usize = 544;

/// What befalls the bytes.
#[derive(Clone, Copy, Debug)]
pub enum Damage {
    Nothing,
    /// A bit of this byte is turned.
    Turned(usize),
    /// The first two slots are swapped.
    Swapped,
    /// So many of the first bytes are left.
    Cut(usize),
    /// This many sevens follow them.
    Longer(usize),
}

/// What the three pages then read as. They held 1, 2 and 3.
pub const DAMAGES: [(Damage, [Came; 3]); 8] = [
    (
        Damage::Nothing,
        [Came::Full(1), Came::Full(2), Came::Full(3)],
    ),
    // In the content of the second page, and in the seal of the third.
    (
        Damage::Turned(600),
        [Came::Full(1), Came::Damaged, Came::Full(3)],
    ),
    (
        Damage::Turned(1631),
        [Came::Full(1), Came::Full(2), Came::Damaged],
    ),
    (
        Damage::Swapped,
        [Came::Damaged, Came::Damaged, Came::Full(3)],
    ),
    // A byte short, two pages short, empty, and too long.
    (
        Damage::Cut(1631),
        [Came::Full(1), Came::Full(2), Came::Damaged],
    ),
    (
        Damage::Cut(544),
        [Came::Full(1), Came::Damaged, Came::Damaged],
    ),
    (
        Damage::Cut(0),
        [Came::Damaged, Came::Damaged, Came::Damaged],
    ),
    (
        Damage::Longer(700),
        [Came::Full(1), Came::Full(2), Came::Full(3)],
    ),
];

/// The bytes with a bit of one of them turned.
fn turned(alloc: Global, whole: &[u8], place: usize) -> Result<Vec<u8>, AllocError> {
    let mut bytes = Vec::from_slice(alloc, whole)?;
    if let Some(byte) = bytes.get_mut(place) {
        *byte ^= 4;
    }
    Ok(bytes)
}

/// The bytes with the first two slots swapped.
fn swapped(alloc: Global, whole: &[u8]) -> Result<Vec<u8>, AllocError> {
    let (first, behind) = whole.split_at(SLOT.min(whole.len()));
    let (second, rest) = behind.split_at(SLOT.min(behind.len()));
    let mut bytes = Vec::from_slice(alloc, second)?;
    bytes.extend_from_slice(first)?;
    bytes.extend_from_slice(rest)?;
    Ok(bytes)
}

/// The bytes followed by this many sevens.
fn longer(alloc: Global, whole: &[u8], count: usize) -> Result<Vec<u8>, AllocError> {
    let mut bytes = Vec::from_slice(alloc, whole)?;
    for _ in 0..count {
        bytes.push(7)?;
    }
    Ok(bytes)
}

/// The bytes, and what befell them.
pub fn damaged(alloc: Global, whole: &[u8], damage: Damage) -> Result<Vec<u8>, AllocError> {
    match damage {
        Damage::Nothing => Vec::from_slice(alloc, whole),
        Damage::Turned(place) => turned(alloc, whole, place),
        Damage::Swapped => swapped(alloc, whole),
        Damage::Cut(count) => Vec::from_slice(alloc, whole.get(..count).unwrap_or(whole)),
        Damage::Longer(count) => longer(alloc, whole, count),
    }
}
