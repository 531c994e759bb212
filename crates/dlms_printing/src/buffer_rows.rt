//! The rows of a profile's buffer, one after another: an array of structures, or a compact array of them.

use dlms_buffer::{BufferFault, LastRow, packed_row};
use dlms_values::{CompactArray, Items, Value, read};
use std::alloc::Global;

/// The rows that were not read yet.
#[derive(Clone, Copy)]
pub enum BufferRows<'v> {
    Listed(Items<'v>),
    Packed(CompactArray<'v>),
}

/// Reads the next row of a compact array.
fn next_packed<'v>(
    alloc: Global,
    array: &mut CompactArray<'v>,
    row: &mut LastRow<'v, Global>,
) -> Result<bool, BufferFault> {
    if array.contents.is_empty() {
        return Ok(false);
    }
    let (values, rest) = packed_row(alloc, array.tags, array.contents)?;
    array.contents = rest;
    let taken = row.take_packed(values.as_slice());
    drop(values);
    taken?;
    Ok(true)
}

impl<'v> BufferRows<'v> {
    /// The rows in the encoding of a buffer.
    pub fn of(bytes: &'v [u8]) -> Result<Self, BufferFault> {
        let (value, _rest) = read(bytes)?;
        match value {
            Value::Array(items) => Ok(BufferRows::Listed(items)),
            Value::CompactArray(array) => Ok(BufferRows::Packed(array)),
            _ => Err(BufferFault::Row),
        }
    }

    /// Reads the next row, and returns whether there was one.
    pub fn next_row(
        &mut self,
        alloc: Global,
        row: &mut LastRow<'v, Global>,
    ) -> Result<bool, BufferFault> {
        match self {
            BufferRows::Listed(items) => match items.next_value() {
                Some(value) => {
                    row.take(value)?;
                    Ok(true)
                }
                None => Ok(false),
            },
            BufferRows::Packed(array) => next_packed(alloc, array, row),
        }
    }
}
