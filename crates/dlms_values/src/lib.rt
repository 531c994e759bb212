//! Values of every type of Data that a meter may send, read without memory.
#![tactic(auto)]

mod bits;
mod fault;
mod items;
pub mod laws;
mod parts;
mod plain;
mod reading;
mod scanning;
mod types;
mod value;

pub use bits::Bits;
pub use fault::ValueFault;
pub use items::Items;
pub use plain::read_plain;
pub use reading::{is_value, read};
pub use types::{OctetsKind, Plain, SignedKind, Tag, UnsignedKind, type_of};
pub use value::{CompactArray, Value};
