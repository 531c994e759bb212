//! Values that are looked at. The functions that go down a value take these, by which they are known
//! to end.

use crate::data::Data;
use std::alloc::Allocator;

/// A value that is looked at.
#[derive(Drop)]
pub struct Source<'a, B: Allocator> {
    pub value: &'a Data<B>,
}

/// Values that are looked at.
#[derive(Drop)]
pub struct Sources<'a, B: Allocator> {
    pub values: &'a [Data<B>],
}
