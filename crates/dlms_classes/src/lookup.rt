//! Finds the object that a descriptor names, and checks the client's right to it.

ghost use Rattle.std.specs.Prelude.{◌≡◌, option_map};
ghost use Rattle.dlms_classes.specs.Table.{entry_of, rights_of, but_own_secret as rights_but_own_secret, may_read as reads, may_write as writes, may_call as calls};
ghost use Rattle.dlms_classes.specs.Access.{IsToldAs, object_named, object_of, numbered as nth, attribute_of, method_of, readable as read_of, writable as write_of, callable as call_of};

use crate::access::AccessResult;
use crate::table::{Attribute, Call, Content, OBJECTS, Object, Rights};
use dlms_data::Descriptor;
use dlms_frame::Client;

/// The object of a name.
#[tactic(auto, unfolding(crate::specs::Access::object_named))]
fn object_with(name: [u8; 6]) -> Option<Object>
    ensures { option_map entry_of result ≡ object_named name }
{
    for object in OBJECTS {
        if object.name == name {
            return Some(object);
        }
    }
    None
}

/// The object that a descriptor names.
fn object(descriptor: Descriptor) -> Result<Object, AccessResult>
    ensures { IsToldAs entry_of result (object_of descriptor) }
{
    let Some(object) = object_with(descriptor.name) else {
        return Err(AccessResult::ObjectUndefined);
    };
    if object.class != descriptor.class {
        return Err(AccessResult::ObjectClassInconsistent);
    }
    Ok(object)
}

/// The one of this number, counted from 1.
fn numbered<T: Copy>(items: &[T], id: u8) -> Option<T>
    ensures { result ≡ nth id items.now }
{
    if id == 0 {
        return None;
    }
    items.get(usize::from(id) - 1).copied()
}

/// The attribute that a descriptor names.
fn attribute(descriptor: Descriptor) -> Result<Attribute, AccessResult>
    ensures { result ≡ attribute_of descriptor }
{
    let object = object(descriptor)?;
    numbered(object.attributes, descriptor.id).ok_or(AccessResult::ObjectUndefined)
}

/// The method that a descriptor names.
fn method(descriptor: Descriptor) -> Result<Call, AccessResult>
    ensures { result ≡ method_of descriptor }
{
    let object = object(descriptor)?;
    numbered(object.methods, descriptor.id).ok_or(AccessResult::ObjectUndefined)
}

/// A client's rights to an attribute.
pub fn rights(client: Client, attribute: Attribute) -> Rights
    ensures { result ≡ rights_of client attribute }
{
    match client {
        Client::Public => attribute.public,
        Client::Management => attribute.management,
        Client::Reader => but_own_secret(attribute.content, attribute.management),
    }
}

/// Of management's rights those of a client that changes nothing but its own secret.
fn but_own_secret(content: Content, rights: Rights) -> Rights
    ensures { result ≡ rights_but_own_secret content rights }
{
    match content {
        Content::Secret => rights,
        _ if may_read(rights) => Rights::Read,
        _ => Rights::Nothing,
    }
}

fn may_read(rights: Rights) -> bool
    ensures { result ≡ reads rights }
{
    matches!(rights, Rights::Read | Rights::ReadWrite)
}

fn may_write(rights: Rights) -> bool
    ensures { result ≡ writes rights }
{
    matches!(rights, Rights::Write | Rights::ReadWrite)
}

/// Whether a client may call a method.
pub fn may_call(client: Client, method: Call) -> bool
    ensures { result ≡ calls client method }
{
    match (client, method) {
        (Client::Public | Client::Reader, _) | (Client::Management, Call::Withheld) => false,
        (Client::Management, _) => true,
    }
}

/// The attribute that a descriptor names, if the client may read it.
pub fn readable(client: Client, descriptor: Descriptor) -> Result<Attribute, AccessResult>
    ensures { result ≡ read_of client descriptor }
{
    let attribute = attribute(descriptor)?;
    if !may_read(rights(client, attribute)) {
        return Err(AccessResult::ReadWriteDenied);
    }
    Ok(attribute)
}

/// The attribute that a descriptor names, if the client may set it.
pub fn writable(client: Client, descriptor: Descriptor) -> Result<Attribute, AccessResult>
    ensures { result ≡ write_of client descriptor }
{
    let attribute = attribute(descriptor)?;
    if !may_write(rights(client, attribute)) {
        return Err(AccessResult::ReadWriteDenied);
    }
    Ok(attribute)
}

/// The method that a descriptor names, if the client may call it.
pub fn callable(client: Client, descriptor: Descriptor) -> Result<Call, AccessResult>
    ensures { result ≡ call_of client descriptor }
{
    let method = method(descriptor)?;
    if !may_call(client, method) {
        return Err(AccessResult::ReadWriteDenied);
    }
    Ok(method)
}
