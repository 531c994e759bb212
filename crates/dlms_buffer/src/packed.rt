//! The rows of a compact array.

ghost use Rattle.std.specs.Prelude.{◌≡◌, Ok, Err, MatchResult, map};
ghost use Rattle.dlms_values.specs.Reading.{Tells};
ghost use Rattle.dlms_values.specs.Types.{type_of};
ghost use Rattle.dlms_values.specs.View.{value_of};
ghost use Rattle.dlms_buffer.specs.Packed.{untagged_at, packed_at, TellsRow};

use crate::fault::BufferFault;
use dlms_values::{Tag, Value, ValueFault, read_plain, type_of};
use std::alloc::Allocator;

/// The value at the front, of the type with this tag.
fn untagged(tag: u8, bytes: &[u8]) -> Result<(Value<'_>, &[u8]), ValueFault>
    ensures { Tells (λ x. (value_of x.0, x.1.now)) result (untagged_at (type_of tag) bytes.now) }
{
    match type_of(tag) {
        Some(Tag::Plain(plain)) => read_plain(plain, bytes),
        _ => Err(ValueFault::Nested),
    }
}

/// The values of one row, which have these types, and what follows them.
pub fn packed_row<'a, A: Allocator>(
    alloc: A,
    tags: &[u8],
    contents: &'a [u8],
) -> Result<(Vec<Value<'a>, A>, &'a [u8]), BufferFault>
    ensures { TellsRow
        (λ x. (map value_of x.0.items, x.1.now)) result (packed_at tags.now contents.now) }
{
    let mut values = Vec::with_capacity(alloc, tags.len())?;
    let mut rest = contents;
    for tag in tags {
        let (value, after) = untagged(*tag, rest)?;
        values.push(value)?;
        rest = after;
    }
    Ok((values, rest))
}
