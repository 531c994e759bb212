//! The elements of an association's object list.

ghost use Rattle.std.specs.Prelude.{◌≡◌, ◌<◌, ℕ, pos, All, IfNone, IfSome, List, MatchOption, length, map};
ghost use Rattle.dlms_data.specs.Value.{Value, Values, array, cons, integer, none};
ghost use Rattle.dlms_data.specs.View.{value_of, values_of};
ghost use Rattle.dlms_text.specs.Entries.{AreRights, HasName, IsEntry, IsFirstNamed, IsMode, IsNamed, IsRight};

use dlms_data::Data;
use std::alloc::Allocator;

/// An element of an object list (object_list_element): the class, its version, the logical name, and the rights to attributes and methods.
#[derive(Drop)]
pub struct Entry<'a, A: Allocator> {
    pub class: u16,
    pub version: u8,
    pub name: [u8; 6],
    pub attributes: &'a [Data<A>],
    pub methods: &'a [Data<A>],
}

/// The six octets of a name.
pub fn six(bytes: &[u8]) -> Option<[u8; 6]>
    ensures { MatchOption result (length bytes.now ≡ 6 → ⊥) (λ name. name ≡ bytes.now) }
{
    let mut name = [0; 6];
    if bytes.len() != 6 {
        return None;
    }
    name.copy_from_slice(bytes);
    Some(name)
}

/// The elements of an object list; none if it is no array.
pub fn elements<A: Allocator>(list: &Data<A>) -> Option<&[Data<A>]>
    ensures some { IfSome result (λ items. value_of list.now ≡ array (values_of items.now)) }
    ensures none { IfNone result ((items : Values) → value_of list.now ≡ array items → ⊥) }
{
    match list {
        Data::Array(items) => Some(items.as_slice()),
        _ => None,
    }
}

/// The first two values and the others, if there are two.
fn first_two<A: Allocator>(parts: &[Data<A>]) -> Option<(&Data<A>, &Data<A>, &[Data<A>])>
    ensures some { IfSome result (λ x. values_of parts.now ≡ cons (value_of x.0.now)
        (cons (value_of x.1.now) (values_of x.2.now))) }
    ensures none { IfNone result ((a b : Value) (more : Values)
        → values_of parts.now ≡ cons a (cons b more) → ⊥) }
{
    match parts {
        [first, second, more @ ..] => Some((first, second, more)),
        _ => None,
    }
}

/// Two values, if there are just two.
fn two_of<A: Allocator>(parts: &[Data<A>]) -> Option<(&Data<A>, &Data<A>)>
    ensures some { IfSome result (λ x. values_of parts.now ≡ cons (value_of x.0.now)
        (cons (value_of x.1.now) none)) }
    ensures none { IfNone result ((a b : Value) → values_of parts.now ≡ cons a (cons b none) → ⊥) }
{
    let (first, second, more) = first_two(parts)?;
    if more.is_empty() {
        Some((first, second))
    } else {
        None
    }
}

/// Four values, if there are just four.
fn four_of<A: Allocator>(parts: &[Data<A>]) -> Option<(&Data<A>, &Data<A>, &Data<A>, &Data<A>)>
    ensures some { IfSome result (λ x. values_of parts.now
        ≡ cons (value_of x.0.now) (cons (value_of x.1.now)
        (cons (value_of x.2.now) (cons (value_of x.3.now) none)))) }
    ensures none { IfNone result ((a b c d : Value)
        → values_of parts.now ≡ cons a (cons b (cons c (cons d none))) → ⊥) }
{
    let (first, second, more) = first_two(parts)?;
    let (third, fourth) = two_of(more)?;
    Some((first, second, third, fourth))
}

/// The rights to the attributes and to the methods of an element; none if the value has another form.
fn rights<A: Allocator>(value: &Data<A>) -> Option<(&[Data<A>], &[Data<A>])>
    ensures some { IfSome result (λ x. AreRights (value_of value.now) (values_of x.0.now)
        (values_of x.1.now)) }
    ensures none { IfNone result ((attributes methods : Values)
        → AreRights (value_of value.now) attributes methods → ⊥) }
{
    let Data::Structure(parts) = value else {
        return None;
    };
    let (attributes, methods) = two_of(parts.as_slice())?;
    Some((elements(attributes)?, elements(methods)?))
}

/// The entry that an element of an object list contains; none if the element has another form.
pub fn entry_of<A: Allocator>(value: &Data<A>) -> Option<Entry<'_, A>>
    ensures some { IfSome result (λ e. IsEntry (value_of value.now) e.class e.version e.name
        (values_of e.attributes.now) (values_of e.methods.now)) }
    ensures none { IfNone result ((name : List ℕ) → HasName name (value_of value.now) → ⊥) }
{
    let Data::Structure(parts) = value else {
        return None;
    };
    let (class, version, name, access) = four_of(parts.as_slice())?;
    let Data::LongUnsigned(class) = class else {
        return None;
    };
    let Data::Unsigned(version) = version else {
        return None;
    };
    let Data::OctetString(name) = name else {
        return None;
    };
    let name = six(name.as_slice())?;
    let (attributes, methods) = rights(access)?;
    Some(Entry {
        class: *class,
        version: *version,
        name,
        attributes,
        methods,
    })
}

/// The mode of an access right: an enum, or a boolean, which is the mode 0 or 1.
fn mode_of<A: Allocator>(value: &Data<A>) -> Option<u8>
    ensures { MatchOption result ((mode : ℕ) → IsMode (value_of value.now) mode
        → ⊥) (IsMode (value_of value.now)) }
{
    match value {
        Data::Enum(mode) => Some(*mode),
        Data::Boolean(false) => Some(0),
        Data::Boolean(true) => Some(1),
        _ => None,
    }
}

/// The number of an attribute or a method: an integer above 0.
fn number_of<A: Allocator>(value: &Data<A>) -> Option<u8>
    ensures some { IfSome result (λ n. (0 < n) × (value_of value.now ≡ integer (pos n))) }
    ensures none { IfNone result ((n : ℕ) → 0 < n → value_of value.now ≡ integer (pos n) → ⊥) }
{
    match value {
        Data::Integer(number) if *number > 0 => Some(*number as u8),
        _ => None,
    }
}

/// The number of the attribute or method that a right is for, which is above 0, and the access mode; none if the value is no right.
pub fn right_of<A: Allocator>(value: &Data<A>) -> Option<(u8, u8)>
    ensures some { IfSome result (λ x. IsRight (value_of value.now) x.0 x.1) }
    ensures none { IfNone result ((number mode : ℕ) → IsRight (value_of value.now) number mode
        → ⊥) }
{
    let Data::Structure(parts) = value else {
        return None;
    };
    let (number, access, _) = first_two(parts.as_slice())?;
    Some((number_of(number)?, mode_of(access)?))
}

/// The class of an element, if it is an entry of this name.
fn class_if_named<A: Allocator>(value: &Data<A>, name: [u8; 6]) -> Option<u16>
    ensures some { IfSome result (IsNamed (value_of value.now) name) }
    ensures none { IfNone result (HasName name (value_of value.now) → ⊥) }
{
    let entry = entry_of(value)?;
    if entry.name == name {
        Some(entry.class)
    } else {
        None
    }
}

/// The class of the first element that has this name; none if no element has it.
pub fn class_in<A: Allocator>(list: &[Data<A>], name: [u8; 6]) -> Option<u16>
    ensures some { IfSome result (IsFirstNamed (map value_of list.now) name) }
    ensures none { IfNone result (All (λ v. HasName name v → ⊥) (map value_of list.now)) }
{
    'elements: for value in list {
        if let Some(class) = class_if_named(value, name) {
            return Some(class);
        }
    }
    None
}
