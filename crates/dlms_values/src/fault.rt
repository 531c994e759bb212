//! Why octets cannot be read.

use thiserror::Error;

/// Why the octets could not be read: the first cause from left to right.
#[derive(Clone, Copy, Debug, PartialEq, Eq, Error)]
pub enum ValueFault {
    /// The octets end within the value.
    #[error("the octets end within the value")]
    Short,
    /// No type has this tag.
    #[error("no type has this tag")]
    Tag,
    /// A length begins with 80, or with 85 to FF.
    #[error("this octet cannot begin a length")]
    Length,
    /// A ninth level begins.
    #[error("more than eight levels")]
    Depth,
    /// The elements of a compact array contain arrays or structures, or have an unknown tag.
    #[error("the type of a compact array is not supported")]
    Nested,
}
