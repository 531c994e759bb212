//! The class of an object, and the scaler of a register.

use dlms_data::{Data, Descriptor};
use dlms_text::{Front, ValueFault, class_in, first_of, front_of, value_at};
use std::alloc::Global;
use std::slice;

/// The class of an association that is made by logical names, and the name of the current one (IEC 62056-6-2, Association LN).
const ASSOCIATION: u16 = 15;

const CURRENT: [u8; 6] = [0, 0, 40, 0, 0, 255];

/// The attribute of its object list.
const OBJECTS: u8 = 2;

/// The classes Register, Extended register and Demand register.
const REGISTER: u16 = 3;

const EXTENDED: u16 = 4;

const DEMAND: u16 = 5;

/// The classes Data, Clock and SAP assignment.
const DATA: u16 = 1;

const CLOCK: u16 = 8;

const ASSIGNMENT: u16 = 17;

/// The tags of an integer and of an enum (A-XDR, IEC 62056-6-2, common data types).
const INTEGER: u8 = 15;

const ENUM: u8 = 22;

/// The most octets of an entry that is read: far more than 255 attributes and as many methods take.
const MOST_ENTRY: usize = 16_384;

/// The object list of the current association.
pub fn object_list() -> Descriptor {
    Descriptor {
        class: ASSOCIATION,
        name: CURRENT,
        id: OBJECTS,
    }
}

/// The class of a name that means the same object in each meter: the clock, the current association, the SAP assignment and the
/// logical device name (IEC 62056-6-1).
pub fn class_by_name(code: [u8; 6]) -> Option<u16> {
    match code {
        [0, 0, 1, 0, 0, 255] => Some(CLOCK),
        CURRENT => Some(ASSOCIATION),
        [0, 0, 41, 0, 0, 255] => Some(ASSIGNMENT),
        [0, 0, 42, 0, 0, 255] => Some(DATA),
        _ => None,
    }
}

/// The attribute with the scaler and the unit of a register's value; `None` if it has none.
pub fn scaler_of(attribute: Descriptor) -> Option<Descriptor> {
    let id = match (attribute.class, attribute.id) {
        (REGISTER, 2) | (EXTENDED, 2) => 3,
        (DEMAND, 2) | (DEMAND, 3) => 4,
        _ => return None,
    };
    Some(Descriptor { id, ..attribute })
}

/// The scaler and the unit in an encoding, if it encodes a structure of both.
pub fn scale_of(bytes: &[u8]) -> Option<(i8, u8)> {
    match front_of(bytes) {
        (Front::Structure(2), [INTEGER, scaler, ENUM, unit]) => {
            Some((i8::from_be_bytes([*scaler]), *unit))
        }
        _ => None,
    }
}

/// The value of an element of an object list; `None` if it is longer than an entry can be.
fn element_of(alloc: Global, element: &[u8]) -> Result<Option<Data<Global>>, ValueFault> {
    if element.len() > MOST_ENTRY {
        return Ok(None);
    }
    let (value, _) = value_at(alloc, element)?;
    Ok(Some(value))
}

/// The class of an element of an object list that has this name.
fn class_of_element(
    alloc: Global,
    element: &[u8],
    name: [u8; 6],
) -> Result<Option<u16>, ValueFault> {
    let Some(value) = element_of(alloc, element)? else {
        return Ok(None);
    };
    let class = class_in(slice::from_ref(&value), name);
    drop(value);
    Ok(class)
}

/// The class of the first element of an object list that has this name; `None` if no element has it, or it is not a list.
pub fn class_named(alloc: Global, list: &[u8], name: [u8; 6]) -> Result<Option<u16>, ValueFault> {
    let (Front::Array(count), bytes) = front_of(list) else {
        return Ok(None);
    };
    let mut rest = bytes;
    for _ in 0..count {
        let Some((element, behind)) = first_of(rest) else {
            return Ok(None);
        };
        if let Some(class) = class_of_element(alloc, element, name)? {
            return Ok(Some(class));
        }
        rest = behind;
    }
    Ok(None)
}
