//! Scalers and units that were read, and the values that they belong to.

use crate::data_text::number_in;
use crate::service_text::{is_scaler_unit, scaler_unit_in};
use crate::words::{Text, begin, end, name_and_number, signed_number};
use dlms_data::Data;
use dlms_dissect::{Content, Named, Said};
use dlms_names::unit_name;
use itoa::Buffer;
use std::alloc::Allocator;

/// A scaler, and the number of a unit.
#[derive(Clone, Copy)]
pub struct ScalerUnit {
    pub scaler: i8,
    pub unit: u8,
}

/// How many objects' scalers and units are remembered.
const MOST: usize = 32;

/// The greatest power of ten, of either sign, by which a value is multiplied.
const MOST_POWER: u8 = 18;

/// The class Demand register, of which two attributes are values (IEC 62056-6-2).
const DEMAND_REGISTER: u16 = 5;

/// The scaler and the unit of the object with this logical name.
#[derive(Clone, Copy)]
struct Known {
    name: [u8; 6],
    found: ScalerUnit,
}

/// The scalers and units that were read last. The oldest makes room.
#[derive(Clone, Copy)]
pub struct Units {
    known: [Option<Known>; MOST],
    next: usize,
}

/// Whether these are the scaler and the unit of this object.
fn is_of(known: &Option<Known>, name: &[u8; 6]) -> bool {
    match known {
        Some(known) => known.name == *name,
        None => false,
    }
}

impl Units {
    /// Nothing was read.
    pub fn new() -> Units {
        Units {
            known: [None; MOST],
            next: 0,
        }
    }

    /// The place of an object's scaler and unit.
    fn place_of(&self, name: &[u8; 6]) -> Option<usize> {
        for place in 0..MOST {
            if is_of(&self.known[place], name) {
                return Some(place);
            }
        }
        None
    }

    /// Remembers the scaler and the unit of an object.
    fn remember(&mut self, name: [u8; 6], found: ScalerUnit) {
        let place = match self.place_of(&name) {
            Some(place) => place,
            None => {
                let place = self.next % MOST;
                self.next = (place + 1) % MOST;
                place
            }
        };
        if place < MOST {
            self.known[place] = Some(Known { name, found });
        }
    }

    /// The scaler and the unit of an object, if they were read.
    fn of(&self, name: &[u8; 6]) -> Option<ScalerUnit> {
        match self.known.get(self.place_of(name)?) {
            Some(Some(known)) => Some(known.found),
            _ => None,
        }
    }
}

/// Whether an attribute is a value to which a scaler and a unit of its object belong.
fn is_scaled(named_one: Named) -> bool {
    let descriptor = named_one.descriptor;
    match (descriptor.class, descriptor.id) {
        _ if named_one.method => false,
        (3..=5, 2) => true,
        (class, id) => class == DEMAND_REGISTER && id == 3,
    }
}

/// A number times a power of ten, in decimal digits.
fn write_scaled<A: Allocator>(text: &mut Text<A>, number: u64, power: i8) {
    let mut buffer = Buffer::new();
    let digits = buffer.format(number);
    let places = usize::from(power.unsigned_abs());
    if power >= 0 {
        text.push(digits);
        for _ in 0..places {
            text.push_if(number > 0, "0");
        }
        return;
    }
    let whole = digits.len().saturating_sub(places);
    if whole == 0 {
        text.push("0");
    } else {
        text.push(digits.get(..whole).unwrap_or(""));
    }
    text.push(".");
    for _ in digits.len()..places {
        text.push("0");
    }
    text.push(digits.get(whole..).unwrap_or(""));
}

/// The line of a number with its scaler and its unit, as `= 230.1 V`.
fn write_line<A: Allocator>(text: &mut Text<A>, is_negative: bool, number: u64, found: ScalerUnit) {
    begin(text, 3);
    text.either(is_negative, "= -", "= ");
    write_scaled(text, number, found.scaler);
    text.push(" ");
    match unit_name(found.unit) {
        Some(name) => text.push(name),
        None => name_and_number(text, None, "unit", u64::from(found.unit)),
    }
    end(text);
    if text.is_json {
        write_members(text, is_negative, number, found);
    }
}

/// The same as members of an object of JSON, after others.
fn write_members<A: Allocator>(
    text: &mut Text<A>,
    is_negative: bool,
    number: u64,
    found: ScalerUnit,
) {
    begin(text, 3);
    text.either(is_negative, ",\"scaled\":-", ",\"scaled\":");
    write_scaled(text, number, found.scaler);
    text.push(",\"scaler\":");
    signed_number(text, i64::from(found.scaler));
    text.push(",\"unit\":\"");
    text.push(unit_name(found.unit).unwrap_or(""));
    text.push("\"");
    end(text);
}

/// The line of a value that was read, with the scaler and the unit of its object, if these were read before it.
fn write_value<A: Allocator>(text: &mut Text<A>, units: &Units, named_one: Named, value: &Data<A>) {
    if !is_scaled(named_one) {
        return;
    }
    if let Some(found) = units.of(&named_one.descriptor.name)
        && found.scaler.unsigned_abs() <= MOST_POWER
        && let Some((is_negative, number)) = number_in(value)
    {
        write_line(text, is_negative, number, found);
    }
}

/// Remembers the scaler and the unit that a response contains, or adds to its value the line with those that were read before.
pub fn write_units<A: Allocator>(text: &mut Text<A>, units: &mut Units, said: &Said<'_, A>) {
    let (Some(named_one), Content::Value(value)) = (said.named, &said.content) else {
        return;
    };
    match scaler_unit_in(value) {
        Some(found) if is_scaler_unit(said.named) => {
            units.remember(named_one.descriptor.name, found);
        }
        _ => write_value(text, units, named_one, value),
    }
}
