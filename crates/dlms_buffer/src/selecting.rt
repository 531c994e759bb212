//! Which rows are requested (Blue Book 4.3.6, selective access to the buffer).

ghost use Rattle.std.specs.Prelude.{◌≡◌, ◌+◌, ◌-◌, ◌<◌, ◌^◌, IfOk, min};
ghost use Rattle.dlms_data.specs.View.{value_of};
ghost use Rattle.dlms_buffer.specs.Selecting.{range, entries, restricting_object};

use crate::column::Column;
use dlms_data::{Data, Items, Selector, four, octet_string_of};
use std::alloc::{AllocError, Allocator};

/// The object that restricts the range: the clock's column.
fn restricting<A: Allocator + Copy>(alloc: A, clock: &Column) -> Result<Data<A>, AllocError>
    ensures { IfOk result (λ v. value_of v ≡ restricting_object clock.now) }
{
    let name = octet_string_of(alloc, &clock.name)?;
    Ok(Data::Structure(four(
        alloc,
        Data::LongUnsigned(clock.class),
        name,
        Data::Integer(clock.attribute),
        Data::LongUnsigned(clock.index),
    )?))
}

/// The rows whose clock is within a range, both ends included: all columns (selector 1, range_descriptor).
pub fn by_range<A: Allocator + Copy>(
    alloc: A,
    clock: &Column,
    from: &[u8; 12],
    to: &[u8; 12],
) -> Result<Selector<A>, AllocError>
    ensures { IfOk result (λ s. (s.number ≡ 1)
        × (value_of s.value ≡ range clock.now from.now to.now)) }
{
    let object = restricting(alloc, clock)?;
    let from = octet_string_of(alloc, from)?;
    let to = octet_string_of(alloc, to)?;
    let all = Data::Array(Items::new(alloc));
    let value = Data::Structure(four(alloc, object, from, to, all)?);
    Ok(Selector { number: 1, value })
}

/// The rows from one entry to another: all columns (selector 2, entry_descriptor). The oldest is entry 1, and 0 means the last one.
pub fn by_entries<A: Allocator + Copy>(
    alloc: A,
    from: u32,
    to: u32,
) -> Result<Selector<A>, AllocError>
    ensures { IfOk result (λ s. (s.number ≡ 2) × (value_of s.value ≡ entries from to)) }
{
    let value = Data::Structure(four(
        alloc,
        Data::DoubleLongUnsigned(from),
        Data::DoubleLongUnsigned(to),
        Data::LongUnsigned(1),
        Data::LongUnsigned(0),
    )?);
    Ok(Selector { number: 2, value })
}

/// The entry with which the last `count` entries begin, in a buffer with `in_use` entries.
pub fn first_of_last(in_use: u32, count: u32) -> u32
    ensures { result ≡ min (in_use - count + 1) (2 ^ 32 - 1) }
{
    in_use.saturating_sub(count).saturating_add(1)
}
