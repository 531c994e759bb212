//! The output for a meter's values and objects.

use crate::other_values::{append_float, append_other, float_in};
use dlms_call::CallFault;
use dlms_data::{Data, Descriptor};
use dlms_explain::write_value;
use dlms_faults::Fault;
use dlms_names::unit_name;
use dlms_text::{
    Front, ValueFault, append_decimal, append_number, append_pairs, front_of, value_at,
};
use dlms_words::ValueFormat;
use std::alloc::{AllocError, Global};
use std::io::Write;

/// How many octets of text go out at a time, and of an encoding in digits.
pub const PIECE: usize = 32_768;

/// How many levels of arrays and structures a value has at most.
const MOST_LEVELS: u8 = 8;

/// A field of a date-time that is left open.
const OPEN: u8 = 0xff;

/// The units of energy, which are shown in thousands: Wh, VAh, varh (IEC 62056-6-2, Blue Book 4.3.2, units).
const FIRST_ENERGY: u8 = 30;

const LAST_ENERGY: u8 = 32;

/// The unit of a value without a unit.
const COUNT: u8 = 255;

/// Prints a text.
pub fn put<'a, W: Write>(output: &mut W, text: &[u8]) -> Result<(), Fault<'a>> {
    match output.write_all(text) {
        Ok(()) => Ok(()),
        Err(_) => Err(Fault::Output),
    }
}

/// Prints a line of a word and a name.
pub fn put_line<'a, W: Write>(output: &mut W, word: &str, name: &str) -> Result<(), Fault<'a>> {
    put(output, word.as_bytes())?;
    put(output, name.as_bytes())?;
    put(output, b"\n")
}

/// The sign and the size of a number; `None` for a value that is not a number.
fn number_in(value: &Data<Global>) -> Option<(bool, u64)> {
    let signed = match value {
        Data::DoubleLongUnsigned(n) => return Some((false, u64::from(*n))),
        Data::Unsigned(n) => return Some((false, u64::from(*n))),
        Data::LongUnsigned(n) => return Some((false, u64::from(*n))),
        Data::Long64Unsigned(n) => return Some((false, *n)),
        Data::DoubleLong(z) => i64::from(*z),
        Data::Integer(z) => i64::from(*z),
        Data::Long(z) => i64::from(*z),
        Data::Long64(z) => *z,
        _ => return None,
    };
    Some((signed < 0, signed.unsigned_abs()))
}

/// Appends a number with its scaler and its unit, an energy in thousands of its unit.
fn append_quantity(
    text: &mut Vec<u8>,
    is_negative: bool,
    number: u64,
    scaler: i8,
    unit: u8,
) -> Result<(), AllocError> {
    let is_energy = FIRST_ENERGY <= unit && unit <= LAST_ENERGY;
    let power = i16::from(scaler) - if is_energy { 3 } else { 0 };
    append_decimal(text, is_negative, number, power)?;
    if unit != COUNT {
        text.extend_from_slice(if is_energy { b" k" } else { b" " })?;
        append_unit(text, unit)?;
    }
    text.extend_from_slice(b"\n")
}

/// Appends a number after a label.
pub fn append_labelled(text: &mut Vec<u8>, label: &[u8], number: u64) -> Result<(), AllocError> {
    text.extend_from_slice(label)?;
    append_number(text, number)
}

/// Appends the name of a unit, or its number if it has no name.
fn append_unit(text: &mut Vec<u8>, unit: u8) -> Result<(), AllocError> {
    match unit_name(unit) {
        Some(name) => text.extend_from_slice(name.as_bytes()),
        None => append_labelled(text, b"unit ", u64::from(unit)),
    }
}

/// Appends a code as `1.0.1.8.0.255`.
pub fn append_code(text: &mut Vec<u8>, code: [u8; 6]) -> Result<(), AllocError> {
    for (at, group) in code.iter().enumerate() {
        if at > 0 {
            text.extend_from_slice(b".")?;
        }
        append_number(text, u64::from(*group))?;
    }
    Ok(())
}

/// Appends a field of a date-time in two digits; `*` if it is not specified.
fn append_field(text: &mut Vec<u8>, field: u8) -> Result<(), AllocError> {
    if field == OPEN {
        return text.extend_from_slice(b"*");
    }
    if field < 10 {
        text.extend_from_slice(b"0")?;
    }
    append_number(text, u64::from(field))
}

/// Appends a field of a date-time after a separator.
fn append_parted(text: &mut Vec<u8>, parting: &[u8], field: u8) -> Result<(), AllocError> {
    text.extend_from_slice(parting)?;
    append_field(text, field)
}

/// Appends what a clock shows, as `2026-11-27 15:00:00`.
fn append_clock(text: &mut Vec<u8>, octets: Option<[u8; 12]>) -> Result<(), AllocError> {
    let Some(octets) = octets else {
        return text.extend_from_slice(b"not specified");
    };
    append_number(text, u64::from(octets[0]) * 256 + u64::from(octets[1]))?;
    append_parted(text, b"-", octets[2])?;
    append_parted(text, b"-", octets[3])?;
    append_parted(text, b" ", octets[5])?;
    append_parted(text, b":", octets[6])?;
    append_parted(text, b":", octets[7])
}

/// Appends a clock's code, its earlier time, and its time now.
fn append_clocks(
    text: &mut Vec<u8>,
    code: [u8; 6],
    before: Option<[u8; 12]>,
    after: Option<[u8; 12]>,
) -> Result<(), AllocError> {
    append_code(text, code)?;
    text.extend_from_slice(b" clock: ")?;
    append_clock(text, before)?;
    text.extend_from_slice(b" -> ")?;
    append_clock(text, after)?;
    text.extend_from_slice(b"\n")
}

/// Prints a clock's code, its earlier time, and its time now.
pub fn put_clock<'a, W: Write>(
    alloc: Global,
    output: &mut W,
    code: [u8; 6],
    before: Option<[u8; 12]>,
    after: Option<[u8; 12]>,
) -> Result<(), Fault<'a>> {
    let mut text = Vec::new(alloc);
    append_clocks(&mut text, code, before, after)?;
    put(output, text.as_slice())
}

/// Appends the lines of the value at the front of an encoding, which holds no others, and says what follows it.
fn append_leaf<'b>(
    alloc: Global,
    text: &mut Vec<u8>,
    depth: u8,
    bytes: &'b [u8],
) -> Result<&'b [u8], ValueFault> {
    let (value, rest) = match value_at(alloc, bytes) {
        Ok(found) => found,
        Err(ValueFault::Form) => return append_other(text, depth, bytes),
        Err(fault) => return Err(fault),
    };
    let mut words = String::new(alloc);
    let written = write_value(&mut words, depth, &value);
    drop(value);
    written?;
    text.extend_from_slice(words.as_bytes())?;
    Ok(rest)
}

/// Appends the line of an array or a structure of this many values.
fn append_head(text: &mut Vec<u8>, depth: u8, kind: &[u8], count: u32) -> Result<(), AllocError> {
    for _ in 0..depth {
        text.extend_from_slice(b"  ")?;
    }
    append_labelled(text, kind, u64::from(count))?;
    text.extend_from_slice(b"\n")
}

/// Prints values by their encodings. What is printed of one goes out piece by piece, so that it takes no memory as long as it is.
#[derive(Drop)]
pub struct Teller<'a, 'o, W> {
    pub(crate) alloc: Global,
    pub(crate) place: &'a str,
    pub(crate) text: Vec<u8>,
    output: &'o mut W,
}

impl<'a, 'o, W: Write> Teller<'a, 'o, W> {
    /// Prints on an output what the meter at this place told.
    pub fn new(alloc: Global, place: &'a str, output: &'o mut W) -> Self {
        Teller {
            alloc,
            place,
            text: Vec::new(alloc),
            output,
        }
    }

    /// The fault of a value that could not be printed.
    pub(crate) fn fault(&self, fault: ValueFault) -> Fault<'a> {
        match fault {
            ValueFault::Form => Fault::of_call(
                self.place,
                CallFault::Talk(dlms_client::Fault::Form),
            ),
            ValueFault::Memory => Fault::MEMORY,
        }
    }

    /// Writes out the text.
    pub(crate) fn flush(&mut self) -> Result<(), Fault<'a>> {
        let put = put(self.output, self.text.as_slice());
        self.text.clear();
        put
    }

    /// Writes out the text if it is long.
    pub(crate) fn flush_long(&mut self) -> Result<(), Fault<'a>> {
        if self.text.len() < PIECE {
            return Ok(());
        }
        self.flush()
    }

    /// The lines of the value at the front, which holds no others; and what follows it.
    fn tell_leaf<'b>(&mut self, depth: u8, bytes: &'b [u8]) -> Result<&'b [u8], Fault<'a>> {
        match append_leaf(self.alloc, &mut self.text, depth, bytes) {
            Ok(rest) => {
                self.flush_long()?;
                Ok(rest)
            }
            Err(fault) => Err(self.fault(fault)),
        }
    }

    /// Prints a value in words.
    pub fn put_words(&mut self, bytes: &[u8]) -> Result<(), Fault<'a>> {
        put_tree(self, bytes)?;
        self.flush()
    }

    /// Prints an encoding in pairs of hexadecimal digits.
    fn put_raw(&mut self, bytes: &[u8]) -> Result<(), Fault<'a>> {
        for piece in bytes.chunks(PIECE) {
            append_pairs(&mut self.text, piece)?;
            self.flush()?;
        }
        put(self.output, b"\n")
    }

    /// Puts a name in front of the value that is printed next.
    pub fn put_name(&mut self, name: &str) -> Result<(), Fault<'a>> {
        self.text.extend_from_slice(name.as_bytes())?;
        self.text.extend_from_slice(b" ")?;
        Ok(())
    }

    /// Prints a number with its scaler and its unit, another value in words.
    fn put_scaled(&mut self, bytes: &[u8], scaler: i8, unit: u8) -> Result<(), Fault<'a>> {
        let number = match front_of(bytes) {
            (Front::Plain, _) => self.number_at(bytes)?,
            _ => None,
        };
        match number {
            Some((is_negative, number)) => {
                append_quantity(&mut self.text, is_negative, number, scaler, unit)?;
                self.flush()
            }
            None => match float_in(bytes) {
                Some(float) => {
                    append_float(self.alloc, &mut self.text, &float, scaler)?;
                    self.put_unit(unit)
                }
                None => self.put_words(bytes),
            },
        }
    }

    /// Prints the unit of the number before it, and a line feed.
    fn put_unit(&mut self, unit: u8) -> Result<(), Fault<'a>> {
        if unit != COUNT {
            self.text.extend_from_slice(b" ")?;
            append_unit(&mut self.text, unit)?;
        }
        self.text.extend_from_slice(b"\n")?;
        self.flush()
    }

    /// The sign and the size of the number in an encoding; `None` if it is not a number.
    fn number_at(&self, bytes: &[u8]) -> Result<Option<(bool, u64)>, Fault<'a>> {
        match value_at(self.alloc, bytes) {
            Ok((value, _)) => {
                let number = number_in(&value);
                drop(value);
                Ok(number)
            }
            Err(ValueFault::Form) => Ok(None),
            Err(fault) => Err(self.fault(fault)),
        }
    }

    /// Prints the value of an attribute, and for a number its scaler and its unit if it has them.
    pub fn put_value(
        &mut self,
        attribute: Descriptor,
        bytes: &[u8],
        format: ValueFormat,
        scaled: Option<(i8, u8)>,
    ) -> Result<(), Fault<'a>> {
        match (format, scaled) {
            (ValueFormat::Encoding, _) => self.put_raw(bytes),
            (ValueFormat::Json, _) => self.put_json(attribute, bytes, scaled),
            (ValueFormat::Text, Some((scaler, unit))) => self.put_scaled(bytes, scaler, unit),
            (ValueFormat::Text, None) => self.put_words(bytes),
        }
    }
}

/// The lines of an array or a structure of this many values, with room for this many levels; and what follows it.
#[cycle(lines)]
fn tell_items<'a, 'b, W: Write>(
    teller: &mut Teller<'a, '_, W>,
    room: u8,
    kind: &[u8],
    count: u32,
    bytes: &'b [u8],
) -> Result<&'b [u8], Fault<'a>> {
    if room == 0 {
        return Err(teller.fault(ValueFault::Form));
    }
    append_head(
        &mut teller.text,
        MOST_LEVELS.saturating_sub(room),
        kind,
        count,
    )?;
    let mut rest = bytes;
    for _ in 0..count {
        rest = tell_tree(teller, room - 1, rest)?;
    }
    Ok(rest)
}

/// The lines of the value at the front, with room for this many levels; and what follows it.
#[cycle(lines)]
fn tell_tree<'a, 'b, W: Write>(
    teller: &mut Teller<'a, '_, W>,
    room: u8,
    bytes: &'b [u8],
) -> Result<&'b [u8], Fault<'a>> {
    match front_of(bytes) {
        (Front::Array(count), rest) => tell_items(teller, room, b"array of ", count, rest),
        (Front::Structure(count), rest) => tell_items(teller, room, b"structure of ", count, rest),
        (Front::Plain, rest) => teller.tell_leaf(MOST_LEVELS.saturating_sub(room), rest),
    }
}

/// The lines of the value that is all of an encoding.
pub fn put_tree<'a, W: Write>(
    teller: &mut Teller<'a, '_, W>,
    bytes: &[u8],
) -> Result<(), Fault<'a>> {
    let _rest = tell_tree(teller, MOST_LEVELS, bytes)?;
    Ok(())
}
