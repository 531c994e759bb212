//! Values made of parts.

ghost use Rattle.std.specs.Prelude.{◌≡◌, ◌<◌, ◌≤◌, ◌^◌, All, IfOk};
ghost use Rattle.dlms_data.specs.Value.{octet_string, cons, none, push_value};
ghost use Rattle.dlms_data.specs.View.{value_of};
ghost use Rattle.dlms_data.specs.Building.{IsTime};

use crate::bytes::Bytes;
use crate::data::{Data, Items};
use crate::date_time::{LAST_SECOND, octets};
use std::alloc::{AllocError, Allocator};

/// Room for so many values.
pub fn room<A: Allocator + Copy>(alloc: A, count: usize) -> Result<Items<A>, AllocError>
    ensures { IfOk result (λ items. items ≡ none) }
{
    Ok(Items::from_vec(Vec::with_capacity(alloc, count)?))
}

/// The values, and one more.
fn extended<A: Allocator>(mut items: Items<A>, value: Data<A>) -> Result<Items<A>, AllocError>
    ensures { IfOk result (λ more. more ≡ push_value items (value_of value)) }
{
    items.push(value)?;
    Ok(items)
}

/// The values, and two more.
fn extended_by_two<A: Allocator>(
    items: Items<A>,
    first: Data<A>,
    second: Data<A>,
) -> Result<Items<A>, AllocError>
    ensures { IfOk result (λ more. more ≡ push_value (push_value items (value_of first))
        (value_of second)) }
{
    extended(extended(items, first)?, second)
}

/// Two values.
pub fn two<A: Allocator + Copy>(
    alloc: A,
    first: Data<A>,
    second: Data<A>,
) -> Result<Items<A>, AllocError>
    ensures { IfOk result (λ items. items ≡ cons (value_of first) (cons (value_of second) none)) }
{
    extended_by_two(room(alloc, 2)?, first, second)
}

/// Three values.
pub fn three<A: Allocator + Copy>(
    alloc: A,
    first: Data<A>,
    second: Data<A>,
    third: Data<A>,
) -> Result<Items<A>, AllocError>
    ensures { IfOk result (λ items. items ≡ cons (value_of first)
        (cons (value_of second) (cons (value_of third) none))) }
{
    let items = extended_by_two(room(alloc, 3)?, first, second)?;
    extended(items, third)
}

/// Four values.
pub fn four<A: Allocator + Copy>(
    alloc: A,
    first: Data<A>,
    second: Data<A>,
    third: Data<A>,
    fourth: Data<A>,
) -> Result<Items<A>, AllocError>
    ensures { IfOk result (λ items. items
        ≡ cons (value_of first) (cons (value_of second)
        (cons (value_of third) (cons (value_of fourth) none)))) }
{
    let items = extended_by_two(room(alloc, 4)?, first, second)?;
    extended_by_two(items, third, fourth)
}

/// The octet-string of these bytes.
pub fn octet_string_of<A: Allocator + Copy>(alloc: A, bytes: &[u8]) -> Result<Data<A>, AllocError>
    ensures { IfOk result (λ v. value_of v ≡ octet_string bytes.now) }
{
    Ok(Data::OctetString(Bytes::from_slice(alloc, bytes)?))
}

/// Says what the type of bytes says, for a proof.
fn bytes_fit(bytes: &[u8])
    ensures { All (λ octet. octet < 2 ^ 8) bytes.now }
{
    let _bytes = bytes;
}

/// The octet-string of a second's date-time.
pub fn time_of<A: Allocator + Copy>(alloc: A, second: u32) -> Result<Data<A>, AllocError>
    requires { second ≤ LAST_SECOND }
    ensures { IfOk result (λ v. IsTime second (value_of v)) }
{
    let octets = octets(second);
    bytes_fit(octets.as_slice());
    octet_string_of(alloc, octets.as_slice())
}
