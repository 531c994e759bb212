//! The content of an answer to a GET.

use crate::row::Row;
use std::alloc::Allocator;

/// The content of an answer to a GET.
#[derive(Drop)]
pub enum GetAnswer<A: Allocator> {
    /// The block with this number; others are to follow.
    More(u32),
    /// These rows: nothing else is to come.
    Rows(Vec<Row, A>),
}
