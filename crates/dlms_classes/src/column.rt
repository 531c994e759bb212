//! The columns that structures name.

ghost use Rattle.std.specs.Prelude.{◌≡◌, ◌++◌, ◌∷◌, [], IsTrue, IfSome};
ghost use Rattle.dlms_data.specs.View.{value_of, values_of};
ghost use Rattle.dlms_classes.specs.Access.{IsToldAs};
ghost use Rattle.dlms_classes.specs.Column.{four_of, long_unsigned_of, octet_string_of, integer_of, column_named as named_by, columns_named as all_named_by, columns_of, has_place};

use crate::access::AccessResult;
use crate::table::{CAPTURED_ATTRIBUTE, id_of};
use arrayvec::ArrayVec;
use dlms_data::Data;
use dlms_state::MOST_COLUMNS;
use std::alloc::Allocator;

/// The values of a structure of four.
#[tactic(auto, using(crate::proofs::Fours::four_of_others, crate::proofs::Fours::four_of_parts))]
pub fn four<A: Allocator>(
    value: &Data<A>,
) -> Result<(&Data<A>, &Data<A>, &Data<A>, &Data<A>), AccessResult>
    ensures { IsToldAs
        (λ x. (value_of x.0.now, value_of x.1.now, value_of x.2.now, value_of x.3.now)) result
        (four_of (value_of value.now)) }
{
    let Data::Structure(items) = value else {
        return Err(AccessResult::TypeUnmatched);
    };
    let parts = items.as_slice();
    if parts.len() != 4 {
        return Err(AccessResult::TypeUnmatched);
    }
    Ok((&parts[0], &parts[1], &parts[2], &parts[3]))
}

pub fn long_unsigned<A: Allocator>(value: &Data<A>) -> Result<u16, AccessResult>
    ensures { result ≡ long_unsigned_of (value_of value.now) }
{
    match value {
        Data::LongUnsigned(number) => Ok(*number),
        _ => Err(AccessResult::TypeUnmatched),
    }
}

fn octet_string<A: Allocator>(value: &Data<A>) -> Result<&[u8], AccessResult>
    ensures { IsToldAs (λ bytes. bytes.now) result (octet_string_of (value_of value.now)) }
{
    match value {
        Data::OctetString(bytes) => Ok(bytes.as_slice()),
        _ => Err(AccessResult::TypeUnmatched),
    }
}

fn integer<A: Allocator>(value: &Data<A>) -> Result<i8, AccessResult>
    ensures { result ≡ integer_of (value_of value.now) }
{
    match value {
        Data::Integer(number) => Ok(*number),
        _ => Err(AccessResult::TypeUnmatched),
    }
}

/// The id of the column that a structure names, if it names one.
pub fn column_named<A: Allocator>(value: &Data<A>) -> Result<Option<u8>, AccessResult>
    ensures { result ≡ named_by (value_of value.now) }
{
    let (class, name, attribute, index) = four(value)?;
    let class = long_unsigned(class)?;
    let name = octet_string(name)?;
    let attribute = integer(attribute)?;
    let index = long_unsigned(index)?;
    if attribute != CAPTURED_ATTRIBUTE || index != 0 {
        return Ok(None);
    }
    Ok(id_of(class, name))
}

/// Appends the id of a column. Says whether it is one and there was room.
fn push_column(ids: &mut ArrayVec<u8, MOST_COLUMNS>, id: Option<u8>) -> bool
    ensures place { result ≡ has_place ids.old.items id }
    ensures pushed { IsTrue result → IfSome id (λ x. ids.new.items ≡ ids.old.items ++ x ∷ []) }
{
    match id {
        Some(id) => ids.try_push(id).is_ok(),
        None => false,
    }
}

/// The ids of the columns that structures name, in their order. All types are looked at before any value.
fn columns_named<A: Allocator>(
    items: &[Data<A>],
) -> Result<ArrayVec<u8, MOST_COLUMNS>, AccessResult>
    ensures { IsToldAs (λ ids. ids.items) result (all_named_by (values_of items.now)) }
{
    let mut ids = ArrayVec::new();
    let mut fit = true;
    for item in items {
        let id = column_named(item)?;
        fit &= push_column(&mut ids, id);
    }
    if !fit {
        return Err(AccessResult::OtherReason);
    }
    Ok(ids)
}

/// The ids of the columns that an array of structures names, in their order.
pub fn columns<A: Allocator>(value: &Data<A>) -> Result<ArrayVec<u8, MOST_COLUMNS>, AccessResult>
    ensures { IsToldAs (λ ids. ids.items) result (columns_of (value_of value.now)) }
{
    match value {
        Data::Array(items) => columns_named(items.as_slice()),
        _ => Err(AccessResult::TypeUnmatched),
    }
}
