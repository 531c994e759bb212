//! What services name.

use crate::data::Data;
use std::alloc::{Allocator, Global};

/// An attribute or a method of an object (the cosem-attribute-descriptor and cosem-method-descriptor of
/// IEC 62056-5-3): the class, the logical name, and the number of the attribute or method.
#[derive(Clone, Copy, Debug, PartialEq, Eq)]
pub struct Descriptor {
    pub class: u16,
    pub name: [u8; 6],
    pub id: u8,
}

/// Which part of an attribute is wanted (selective access): the selector's number, and its parameters.
#[derive(Debug, Drop)]
pub struct Selector<A: Allocator = Global> {
    pub number: u8,
    pub value: Data<A>,
}
