//! The values in a notification, each with its name if the push list gives one.

use dlms_values::{Items, OctetsKind, SignedKind, UnsignedKind, Value, read};
use std::alloc::{AllocError, Allocator};

/// How many levels of arrays and structures a value has at most.
const MOST_LEVELS: u8 = 8;

/// The last value group of the names of objects (IEC 62056-6-1), and the highest first one, a medium.
const CURRENT: u8 = 255;

const LAST_MEDIUM: u8 = 15;

/// The number of values in an element of a push object list: class, name, attribute, index (IEC 62056-6-2, Push setup).
const LISTED: u32 = 4;

/// A value of a notification, with its name, scaler and unit if the notification has them.
#[derive(Clone, Copy)]
pub struct Entry<'a> {
    /// The logical name of its object (OBIS code).
    pub name: Option<[u8; 6]>,
    pub value: Value<'a>,
    /// The scaler and the unit.
    pub scale: Option<(i8, u8)>,
}

/// The logical name that a value is.
fn name_in(value: &Value<'_>) -> Option<[u8; 6]> {
    match value {
        Value::Octets(OctetsKind::OctetString, [a, b, c, d, e, f])
            if *f == CURRENT && *a <= LAST_MEDIUM => { Some([*a, *b, *c, *d, *e, *f]) }
        _ => None,
    }
}

/// The scaler and the unit that a value is, a structure of both.
fn scale_in(value: &Value<'_>) -> Option<(i8, u8)> {
    let Value::Structure(items) = value else {
        return None;
    };
    let mut items = *items;
    match (items.next_value(), items.next_value(), items.next_value()) {
        (
            Some(Value::Signed(SignedKind::Integer, scaler)),
            Some(Value::Unsigned(UnsignedKind::Enum, unit)),
            None,
        ) => Some((i8::try_from(scaler).ok()?, u8::try_from(unit).ok()?)),
        _ => None,
    }
}

/// The name that an element of a push object list has.
fn name_listed(value: &Value<'_>) -> Option<[u8; 6]> {
    let Value::Structure(items) = value else {
        return None;
    };
    let mut items = *items;
    if items.len() != LISTED {
        return None;
    }
    match (items.next_value(), items.next_value()) {
        (
            Some(Value::Unsigned(UnsignedKind::LongUnsigned, _)),
            Some(Value::Octets(OctetsKind::OctetString, [a, b, c, d, e, f])),
        ) => Some([*a, *b, *c, *d, *e, *f]),
        _ => None,
    }
}

/// The push object list that the first of these values is: one that names each of them.
fn list_in<'a>(items: Items<'a>) -> Option<Items<'a>> {
    let mut rest = items;
    let Some(Value::Array(list)) = rest.next_value() else {
        return None;
    };
    let mut listed = list;
    'listed: for _ in 0..list.len() {
        let value = listed.next_value()?;
        name_listed(&value)?;
    }
    if list.len() == items.len() {
        return Some(list);
    }
    None
}

/// Appends the values after a push object list, each under its name.
fn add_listed<'a, A: Allocator>(
    entries: &mut Vec<Entry<'a>, A>,
    list: Items<'a>,
    items: Items<'a>,
) -> Result<(), AllocError> {
    let mut list = list;
    let mut items = items;
    let _own = list.next_value();
    let _list = items.next_value();
    for _ in 0..items.len() {
        let Some(value) = items.next_value() else {
            break;
        };
        let name = match list.next_value() {
            Some(listed) => name_listed(&listed),
            None => None,
        };
        entries.push(Entry {
            name,
            value,
            scale: None,
        })?;
    }
    Ok(())
}

/// The next of these values, with the name before it and the scaler and the unit after it, if they are there.
fn next_entry<'a>(items: &mut Items<'a>) -> Option<Entry<'a>> {
    let first = items.next_value()?;
    let mut ahead = *items;
    let (name, value) = match (name_in(&first), ahead.next_value()) {
        (Some(name), Some(value)) => {
            *items = ahead;
            (Some(name), value)
        }
        _ => (None, first),
    };
    let mut ahead = *items;
    let scale = match ahead.next_value() {
        Some(next) if name.is_some() => scale_in(&next),
        _ => None,
    };
    if scale.is_some() {
        *items = ahead;
    }
    Some(Entry { name, value, scale })
}

/// Appends the values among these, with room for this many levels. Only values with a name are kept whole.
#[cycle(entries)]
fn add_items<'a, A: Allocator>(
    entries: &mut Vec<Entry<'a>, A>,
    room: u8,
    items: Items<'a>,
) -> Result<(), AllocError> {
    if let Some(list) = list_in(items) {
        return add_listed(entries, list, items);
    }
    let mut items = items;
    for _ in 0..items.len() {
        let Some(entry) = next_entry(&mut items) else {
            break;
        };
        add_entry(entries, room, entry)?;
    }
    Ok(())
}

/// Appends a value, or those in it.
#[cycle(entries)]
fn add_entry<'a, A: Allocator>(
    entries: &mut Vec<Entry<'a>, A>,
    room: u8,
    entry: Entry<'a>,
) -> Result<(), AllocError> {
    match (entry.name, entry.value) {
        (None, Value::Array(items) | Value::Structure(items)) if room > 0 => {
            add_items(entries, room - 1, items)
        }
        _ => {
            entries.push(entry)?;
            Ok(())
        }
    }
}

/// The values of a notification whose value has this encoding, each with the name, the scaler and the unit that the notification
/// gives it: by a logical name before it, or by a push object list in front of all.
pub fn entries_of<'a, A: Allocator>(
    alloc: A,
    value: &'a [u8],
) -> Result<Vec<Entry<'a>, A>, AllocError> {
    let mut entries = Vec::new(alloc);
    if let Ok((value, _)) = read(value) {
        let entry = Entry {
            name: None,
            value,
            scale: None,
        };
        add_entry(&mut entries, MOST_LEVELS, entry)?;
    }
    Ok(entries)
}
