//! The object list and the columns as they are encoded.

ghost use Rattle.std.specs.Prelude.{◌≡◌, ◌<◌, ◌++◌, IfOk, OnOk, length};
ghost use Rattle.std.specs.List.{enumerate_from};
ghost use Rattle.dlms_data.specs.Value.{array};
ghost use Rattle.dlms_data.specs.Writing.{canonical};
ghost use Rattle.dlms_classes.specs.Listing.{selectors as both_selectors, map_values, listed_attribute as attribute_value, listed_method as method_value, listed as object_value, object_list as list_of};
ghost use Rattle.dlms_classes.specs.Shown.{column_value as column};
ghost use Rattle.dlms_classes.specs.Table.{object_of_column as column_object, entry_of};

use crate::choosing::{BY_ENTRY, BY_RANGE, is_selective};
use crate::listing::mode_of;
use crate::lookup::{may_call, rights};
use crate::putting::{
    ARRAY, STRUCTURE, put_boolean, put_count, put_enum, put_integer, put_long_unsigned, put_octets,
    put_unsigned,
};
use crate::table::{Attribute, CAPTURED_ATTRIBUTE, Call, OBJECTS, Object, object_of_column};
use dlms_frame::Client;
use std::alloc::{AllocError, Allocator};

/// Appends the numbers of the selectors.
fn put_selectors<A: Allocator>(out: &mut Vec<u8, A>) -> Result<(), AllocError>
    ensures { OnOk result (out.new.items ≡ out.old.items ++ canonical (array both_selectors)) }
{
    put_count(out, ARRAY, 2)?;
    put_integer(out, BY_RANGE as i8)?;
    put_integer(out, BY_ENTRY as i8)
}

/// Appends the entry of the attribute of this number.
fn put_attribute<A: Allocator>(
    out: &mut Vec<u8, A>,
    client: Client,
    id: u8,
    attribute: Attribute,
) -> Result<(), AllocError>
    requires { id < 128 }
    ensures { OnOk result (out.new.items ≡ out.old.items
        ++ canonical (attribute_value client (id, attribute))) }
{
    put_count(out, STRUCTURE, 3)?;
    put_integer(out, id as i8)?;
    put_enum(out, mode_of(rights(client, attribute)))?;
    if is_selective(attribute.content) {
        put_selectors(out)
    } else {
        out.extend_from_slice(&[0])
    }
}

/// Appends the entry of the method of this number.
fn put_method<A: Allocator>(
    out: &mut Vec<u8, A>,
    client: Client,
    id: u8,
    method: Call,
) -> Result<(), AllocError>
    requires { id < 128 }
    ensures { OnOk result (out.new.items ≡ out.old.items
        ++ canonical (method_value client (id, method))) }
{
    put_count(out, STRUCTURE, 2)?;
    put_integer(out, id as i8)?;
    put_boolean(out, may_call(client, method))
}

/// Appends the entries of attributes.
fn put_attributes<A: Allocator>(
    out: &mut Vec<u8, A>,
    client: Client,
    attributes: &[Attribute],
) -> Result<(), AllocError>
    requires { length attributes.now < 127 }
    ensures { OnOk result (out.new.items ≡ out.old.items
        ++ canonical (array (map_values (attribute_value client)
        (enumerate_from 1 attributes.now)))) }
{
    put_count(out, ARRAY, attributes.len() as u16)?;
    for (i, attribute) in attributes.iter().enumerate() {
        put_attribute(out, client, i as u8 + 1, *attribute)?;
    }
    Ok(())
}

/// Appends the entries of methods.
fn put_methods<A: Allocator>(
    out: &mut Vec<u8, A>,
    client: Client,
    methods: &[Call],
) -> Result<(), AllocError>
    requires { length methods.now < 127 }
    ensures { OnOk result (out.new.items ≡ out.old.items
        ++ canonical (array (map_values (method_value client)
        (enumerate_from 1 methods.now)))) }
{
    put_count(out, ARRAY, methods.len() as u16)?;
    for (i, method) in methods.iter().enumerate() {
        put_method(out, client, i as u8 + 1, *method)?;
    }
    Ok(())
}

/// Appends the entry of an object.
fn put_object<A: Allocator>(
    out: &mut Vec<u8, A>,
    client: Client,
    object: Object,
) -> Result<(), AllocError>
    requires attributes { length object.attributes.now < 127 }
    requires methods { length object.methods.now < 127 }
    ensures { OnOk result (out.new.items ≡ out.old.items
        ++ canonical (object_value client (entry_of object))) }
{
    put_count(out, STRUCTURE, 4)?;
    put_long_unsigned(out, object.class)?;
    put_unsigned(out, object.version)?;
    put_octets(out, object.name.as_slice())?;
    put_count(out, STRUCTURE, 2)?;
    put_attributes(out, client, object.attributes)?;
    put_methods(out, client, object.methods)
}

/// How many bytes the object list takes.
fn list_len() -> usize {
    let mut len = 2usize;
    for object in OBJECTS {
        let attributes = object.attributes.len().saturating_mul(7);
        let methods = object.methods.len().saturating_mul(6);
        len = len
            .saturating_add(21)
            .saturating_add(attributes)
            .saturating_add(methods);
    }
    len.saturating_add(5)
}

/// The encoding of the object list as a client sees it.
#[tactic(auto, unfolding(crate::specs::Listing::object_list))]
pub fn encoded_list<A: Allocator>(alloc: A, client: Client) -> Result<Vec<u8, A>, AllocError>
    ensures { IfOk result (λ out. out.items ≡ canonical (list_of client)) }
{
    let mut out = Vec::with_capacity(alloc, list_len())?;
    put_count(&mut out, ARRAY, OBJECTS.len() as u16)?;
    for object in OBJECTS {
        put_object(&mut out, client, object)?;
    }
    Ok(out)
}

/// Appends the column that an object gives.
fn put_column<A: Allocator>(out: &mut Vec<u8, A>, object: Object) -> Result<(), AllocError>
    ensures { OnOk result (out.new.items ≡ out.old.items ++ canonical (column (entry_of object))) }
{
    put_count(out, STRUCTURE, 4)?;
    put_long_unsigned(out, object.class)?;
    put_octets(out, object.name.as_slice())?;
    put_integer(out, CAPTURED_ATTRIBUTE)?;
    put_long_unsigned(out, 0)
}

/// The encoding of the columns of the load profile.
pub fn encoded_columns<A: Allocator>(alloc: A, columns: &[u8]) -> Result<Vec<u8, A>, AllocError>
    requires { length columns.now < 65536 }
    ensures { IfOk result (λ out. out.items ≡ canonical
        (array (map_values (λ id. column (column_object id)) columns.now))) }
{
    let mut out = Vec::with_capacity(alloc, columns.len().saturating_mul(18).saturating_add(2))?;
    put_count(&mut out, ARRAY, columns.len() as u16)?;
    for id in columns {
        put_column(&mut out, object_of_column(*id))?;
    }
    Ok(out)
}
