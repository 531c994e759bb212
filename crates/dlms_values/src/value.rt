//! Values that borrow the octets which they were read from.

use crate::bits::Bits;
use crate::items::Items;
use crate::types::{OctetsKind, SignedKind, UnsignedKind};

/// An array whose elements all have one type, which is written once. Its elements have no tags.
#[derive(Clone, Copy)]
pub struct CompactArray<'a> {
    /// Whether each element is a structure.
    pub is_structure: bool,
    /// The tags of the types in one element: of one type, or of those of a structure.
    pub tags: &'a [u8],
    /// The octets of all elements, one after the other.
    pub contents: &'a [u8],
}

/// A value of any type of Data.
#[derive(Clone, Copy)]
pub enum Value<'a> {
    Null,
    DontCare,
    Boolean(bool),
    BitString(Bits<'a>),
    /// The octets of an IEEE 754 number, as an integer.
    Float32(u32),
    Float64(u64),
    Signed(SignedKind, i64),
    Unsigned(UnsignedKind, u64),
    Octets(OctetsKind, &'a [u8]),
    CompactArray(CompactArray<'a>),
    Array(Items<'a>),
    Structure(Items<'a>),
}
