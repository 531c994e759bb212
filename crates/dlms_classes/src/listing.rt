//! The object list: the objects, and a client's rights to them.

ghost use Rattle.std.specs.Prelude.{◌≡◌, ◌<◌, IfOk, length};
ghost use Rattle.std.specs.List.{enumerate_from};
ghost use Rattle.dlms_data.specs.Value.{array};
ghost use Rattle.dlms_data.specs.View.{value_of};
ghost use Rattle.dlms_classes.specs.Listing.{mode_of as mode, selectors as both_selectors, map_values, listed_attribute as attribute_value, listed_method as method_value, listed_rights as rights_value, listed as object_value, object_list as list_of};
ghost use Rattle.dlms_classes.specs.Table.{entry_of};

use crate::choosing::{BY_ENTRY, BY_RANGE, is_selective};
use crate::lookup::{may_call, rights};
use crate::table::{Attribute, Call, OBJECTS, Object, Rights};
use dlms_data::{Data, four, octet_string_of, room, three, two};
use dlms_frame::Client;
use std::alloc::{AllocError, Allocator};

/// The number of the access mode.
pub fn mode_of(rights: Rights) -> u8
    ensures { result ≡ mode rights }
{
    match rights {
        Rights::Nothing => 0,
        Rights::Read => 1,
        Rights::Write => 2,
        Rights::ReadWrite => 3,
    }
}

/// The numbers of the selectors.
fn selectors<A: Allocator + Copy>(alloc: A) -> Result<Data<A>, AllocError>
    ensures { IfOk result (λ v. value_of v ≡ array both_selectors) }
{
    let by_range = Data::Integer(BY_RANGE as i8);
    let by_entry = Data::Integer(BY_ENTRY as i8);
    Ok(Data::Array(two(alloc, by_range, by_entry)?))
}

/// The entry of the attribute of this number.
fn listed_attribute<A: Allocator + Copy>(
    alloc: A,
    client: Client,
    id: u8,
    attribute: Attribute,
) -> Result<Data<A>, AllocError>
    requires { id < 128 }
    ensures { IfOk result (λ v. value_of v ≡ attribute_value client (id, attribute)) }
{
    let mode = mode_of(rights(client, attribute));
    let selectors = if is_selective(attribute.content) {
        selectors(alloc)?
    } else {
        Data::Null
    };
    let id = Data::Integer(id as i8);
    Ok(Data::Structure(three(alloc, id, Data::Enum(mode), selectors)?))
}

/// The entry of the method of this number.
fn listed_method<A: Allocator + Copy>(
    alloc: A,
    client: Client,
    id: u8,
    method: Call,
) -> Result<Data<A>, AllocError>
    requires { id < 128 }
    ensures { IfOk result (λ v. value_of v ≡ method_value client (id, method)) }
{
    let may = Data::Boolean(may_call(client, method));
    Ok(Data::Structure(two(alloc, Data::Integer(id as i8), may)?))
}

/// The entries of attributes.
fn listed_attributes<A: Allocator + Copy>(
    alloc: A,
    client: Client,
    attributes: &[Attribute],
) -> Result<Data<A>, AllocError>
    requires { length attributes.now < 127 }
    ensures { IfOk result (λ v. value_of v ≡ array
        (map_values (attribute_value client) (enumerate_from 1 attributes.now))) }
{
    let mut items = room(alloc, attributes.len())?;
    for (i, attribute) in attributes.iter().enumerate() {
        items.push(listed_attribute(alloc, client, i as u8 + 1, *attribute)?)?;
    }
    Ok(Data::Array(items))
}

/// The entries of methods.
fn listed_methods<A: Allocator + Copy>(
    alloc: A,
    client: Client,
    methods: &[Call],
) -> Result<Data<A>, AllocError>
    requires { length methods.now < 127 }
    ensures { IfOk result (λ v. value_of v ≡ array
        (map_values (method_value client) (enumerate_from 1 methods.now))) }
{
    let mut items = room(alloc, methods.len())?;
    for (i, method) in methods.iter().enumerate() {
        items.push(listed_method(alloc, client, i as u8 + 1, *method)?)?;
    }
    Ok(Data::Array(items))
}

/// The entry of an object.
fn listed<A: Allocator + Copy>(
    alloc: A,
    client: Client,
    object: Object,
) -> Result<Data<A>, AllocError>
    requires attributes { length object.attributes.now < 127 }
    requires methods { length object.methods.now < 127 }
    ensures { IfOk result (λ v. value_of v ≡ object_value client (entry_of object)) }
{
    let attributes = listed_attributes(alloc, client, object.attributes)?;
    let methods = listed_methods(alloc, client, object.methods)?;
    let rights = Data::Structure(two(alloc, attributes, methods)?);
    let name = octet_string_of(alloc, object.name.as_slice())?;
    let class = Data::LongUnsigned(object.class);
    let version = Data::Unsigned(object.version);
    Ok(Data::Structure(four(alloc, class, version, name, rights)?))
}

/// The object list as a client sees it.
#[tactic(auto, unfolding(crate::specs::Listing::object_list))]
pub fn object_list<A: Allocator + Copy>(alloc: A, client: Client) -> Result<Data<A>, AllocError>
    ensures { IfOk result (λ v. value_of v ≡ list_of client) }
{
    let mut items = room(alloc, OBJECTS.len())?;
    for object in OBJECTS {
        items.push(listed(alloc, client, object)?)?;
    }
    Ok(Data::Array(items))
}
