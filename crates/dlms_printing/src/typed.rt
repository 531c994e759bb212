//! Values as JSON, each with the name of its type. What is printed of a long value goes out piece by piece.

use crate::other_values::{append_float, is_float, type_name};
use crate::values::{PIECE, Teller};
use dlms_buffer::{append_clock, append_value};
use dlms_faults::Fault;
use dlms_text::{ValueFault, append_pairs, append_text};
use dlms_values::{Bits, Items, OctetsKind, UnsignedKind, Value, read};
use std::alloc::{AllocError, Global};
use std::io::Write;
use std::str;

/// The classes Clock, Extended register and Demand register (IEC 62056-6-2, Blue Book 4.5.1, 4.3.3, 4.3.4).
const CLOCK: u16 = 8;

const EXTENDED: u16 = 4;

const DEMAND: u16 = 5;

/// How many levels of arrays and structures a value has at most.
const MOST_LEVELS: u8 = 8;

/// The bits of an octet, the first one first.
const WEIGHTS: [u8; 8] = [128, 64, 32, 16, 8, 4, 2, 1];

/// Whether this attribute of a class is a time.
pub fn is_time(class: u16, attribute: i16) -> bool {
    match (class, attribute) {
        (CLOCK, 2) | (EXTENDED, 5) | (DEMAND, 6) | (DEMAND, 7) => true,
        _ => false,
    }
}

/// Whether octets are printable text in UTF-8.
fn is_printable(octets: &[u8]) -> bool {
    match str::from_utf8(octets) {
        Ok(text) => !text.chars().any(|letter| letter.is_control()),
        Err(_) => false,
    }
}

/// Whether octets of this type are printed as text.
fn is_text(kind: OctetsKind, octets: &[u8]) -> bool {
    match kind {
        OctetsKind::OctetString => is_printable(octets),
        OctetsKind::VisibleString | OctetsKind::Utf8String => str::from_utf8(octets).is_ok(),
        _ => false,
    }
}

/// Whether a value is a number that a scaler may scale.
pub fn is_number(value: &Value<'_>) -> bool {
    match value {
        Value::Unsigned(UnsignedKind::Bcd | UnsignedKind::Enum, _) => false,
        Value::Signed(..) | Value::Unsigned(..) => true,
        value => is_float(value),
    }
}

/// Appends a number times ten to the power of the scaler, with all of its digits, a truth value, or null.
fn append_bare(
    alloc: Global,
    text: &mut Vec<u8>,
    value: &Value<'_>,
    scaler: i8,
) -> Result<(), AllocError> {
    let mut digits = Vec::new(alloc);
    if is_float(value) {
        append_float(alloc, &mut digits, value, scaler)?;
    } else {
        append_value(&mut digits, value, scaler)?;
    }
    let is_none = digits.is_empty() || digits.as_slice() == b"NaN".as_slice();
    text.extend_from_slice(if is_none { b"null" } else { digits.as_slice() })
}

/// Appends a date-time as ISO 8601, `later` seconds after the one in the octets, after a label that opens a string; nothing if they name
/// none.
pub fn append_time(
    text: &mut Vec<u8>,
    label: &[u8],
    octets: &[u8],
    later: u64,
) -> Result<(), AllocError> {
    let length = text.len();
    text.extend_from_slice(label)?;
    if append_clock(text, octets, later)? {
        return text.extend_from_slice(b"\"");
    }
    text.truncate(length);
    Ok(())
}

/// Appends the bits of an octet, this many of them at most.
fn append_bits(text: &mut Vec<u8>, octet: u8, count: usize) -> Result<(), AllocError> {
    for weight in WEIGHTS.iter().take(count) {
        text.extend_from_slice(if octet & *weight == 0 { b"0" } else { b"1" })?;
    }
    Ok(())
}

impl<'a, W: Write> Teller<'a, '_, W> {
    /// Octets between quotes, after the label that opens them: as text, or in hexadecimal digits.
    fn put_quoted(&mut self, label: &[u8], octets: &[u8], is_text: bool) -> Result<(), Fault<'a>> {
        self.text.extend_from_slice(label)?;
        for piece in octets.chunks(PIECE) {
            if is_text {
                append_text(&mut self.text, piece)?;
            } else {
                append_pairs(&mut self.text, piece)?;
            }
            self.flush_long()?;
        }
        self.text.extend_from_slice(b"\"")?;
        Ok(())
    }

    /// Octets as text if they are text, otherwise in hexadecimal digits.
    fn put_octets(&mut self, kind: OctetsKind, octets: &[u8]) -> Result<(), Fault<'a>> {
        if is_text(kind, octets) {
            self.put_quoted(b",\"text\":\"", octets, true)
        } else {
            self.put_quoted(b",\"hex\":\"", octets, false)
        }
    }

    /// Bits as a string of 0 and 1.
    fn put_bits(&mut self, bits: &Bits<'_>) -> Result<(), Fault<'a>> {
        let mut left = bits.len();
        self.text.extend_from_slice(b",\"value\":\"")?;
        for octet in bits.as_bytes() {
            append_bits(&mut self.text, *octet, left)?;
            left = left.saturating_sub(WEIGHTS.len());
            self.flush_long()?;
        }
        self.text.extend_from_slice(b"\"")?;
        Ok(())
    }

    /// A value that contains no others, after its type, with its time if it is one.
    fn put_content(&mut self, value: &Value<'_>, is_time: bool) -> Result<(), Fault<'a>> {
        match value {
            Value::Octets(kind, octets) => {
                self.put_octets(*kind, octets)?;
                if is_time || *kind == OctetsKind::DateTime {
                    append_time(&mut self.text, b",\"time\":\"", octets, 0)?;
                }
                Ok(())
            }
            Value::BitString(bits) => self.put_bits(bits),
            Value::CompactArray(array) => {
                self.put_quoted(b",\"tags\":\"", array.tags, false)?;
                self.put_quoted(b",\"hex\":\"", array.contents, false)
            }
            Value::Unsigned(UnsignedKind::Bcd, digits) => {
                let octet = u8::try_from(*digits).unwrap_or(0);
                self.put_quoted(b",\"value\":\"", &[octet], false)
            }
            value => {
                self.text.extend_from_slice(b",\"value\":")?;
                append_bare(self.alloc, &mut self.text, value, 0)?;
                Ok(())
            }
        }
    }

    /// The name of a value's type, which opens its object.
    fn put_type(&mut self, value: &Value<'_>) -> Result<(), Fault<'a>> {
        self.text.extend_from_slice(b"{\"type\":\"")?;
        self.text.extend_from_slice(type_name(value).as_bytes())?;
        self.text.extend_from_slice(b"\"")?;
        Ok(())
    }

    /// The object of the value that is all of an encoding, which is a time if `is_time` is set and it names one. With a scaler it has
    /// the scaled number too.
    pub fn put_typed(
        &mut self,
        bytes: &[u8],
        is_time: bool,
        scaler: Option<i8>,
    ) -> Result<(), Fault<'a>> {
        match read(bytes) {
            Ok((value, _)) => self.put_scaled_value(&value, is_time, scaler),
            Err(_) => Err(self.fault(ValueFault::Form)),
        }
    }

    /// The object of a value.
    pub fn put_scaled_value(
        &mut self,
        value: &Value<'_>,
        is_time: bool,
        scaler: Option<i8>,
    ) -> Result<(), Fault<'a>> {
        put_open(self, MOST_LEVELS, value, is_time)?;
        match scaler {
            Some(scaler) if is_number(value) => {
                self.text.extend_from_slice(b",\"scaled\":")?;
                append_bare(self.alloc, &mut self.text, value, scaler)?;
            }
            _ => {}
        }
        self.text.extend_from_slice(b"}")?;
        self.flush_long()
    }
}

/// The values in an array or a structure, with room for this many levels.
#[cycle(typed)]
fn put_items<'a, W: Write>(
    teller: &mut Teller<'a, '_, W>,
    room: u8,
    items: Items<'_>,
) -> Result<(), Fault<'a>> {
    if room == 0 {
        return Err(teller.fault(ValueFault::Form));
    }
    teller.text.extend_from_slice(b",\"value\":[")?;
    let mut items = items;
    for at in 0..items.len() {
        let Some(value) = items.next_value() else {
            break;
        };
        if at > 0 {
            teller.text.extend_from_slice(b",")?;
        }
        put_open(teller, room - 1, &value, false)?;
        teller.text.extend_from_slice(b"}")?;
        teller.flush_long()?;
    }
    teller.text.extend_from_slice(b"]")?;
    Ok(())
}

/// The object of a value without its closing brace, with room for this many levels.
#[cycle(typed)]
fn put_open<'a, W: Write>(
    teller: &mut Teller<'a, '_, W>,
    room: u8,
    value: &Value<'_>,
    is_time: bool,
) -> Result<(), Fault<'a>> {
    teller.put_type(value)?;
    match value {
        Value::Array(items) | Value::Structure(items) => put_items(teller, room, *items),
        value => teller.put_content(value, is_time),
    }
}
