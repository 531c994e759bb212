//! Values as an indented tree.

use crate::date_text::{write_date, write_date_time, write_time};
use crate::names_text::{is_quantity, write_name};
use crate::typed_text::{write_count, write_length, write_typed_plain};
use crate::words::{Text, begin, end_value, number, octets, signed_number};
use dlms_data::{Bits, Data};
use dlms_dissect::{Part, Veiled, is_date_time};
use dlms_names::code_name;
use std::alloc::{AllocError, Allocator};

/// The level of the deepest lines that are not those of a part.
const DEEPEST: u8 = 2;

/// How many levels of arrays and structures a value has at most.
const MOST_LEVELS: u8 = 8;

/// Whether the bytes are text that can be shown between quotes.
fn is_plain_text(bytes: &[u8]) -> bool {
    for byte in bytes {
        if *byte < b' ' || *byte > b'~' || *byte == b'"' {
            return false;
        }
    }
    !bytes.is_empty()
}

/// Bytes that are text between quotes, others in hexadecimal digits.
fn write_string<A: Allocator>(text: &mut Text<A>, bytes: &[u8]) {
    if !is_plain_text(bytes) {
        octets(text, bytes);
        return;
    }
    text.push("\"");
    for byte in bytes {
        text.letter(char::from(*byte));
    }
    text.push("\"");
}

/// The twelve octets of a date-time.
pub fn date_time_in(bytes: &[u8]) -> Option<[u8; 12]> {
    let mut octets = [0; 12];
    if bytes.len() != 12 || !is_date_time(bytes) {
        return None;
    }
    octets.copy_from_slice(bytes);
    Some(octets)
}

/// The six octets of a name that is known.
fn code_in(bytes: &[u8]) -> Option<[u8; 6]> {
    if bytes.len() != 6 {
        return None;
    }
    let mut code = [0; 6];
    code.copy_from_slice(bytes);
    if code_name(code).is_some() || is_quantity(code) {
        Some(code)
    } else {
        None
    }
}

/// The octets, followed by their date-time, OBIS code or text.
fn write_octets<A: Allocator>(text: &mut Text<A>, bytes: &[u8]) {
    octets(text, bytes);
    if let Some(octets) = date_time_in(bytes) {
        text.push(" ");
        write_date_time(text, octets);
        return;
    }
    if let Some(code) = code_in(bytes) {
        text.push(" ");
        write_name(text, code);
        return;
    }
    if is_plain_text(bytes) {
        text.push(" ");
        write_string(text, bytes);
    }
}

/// The date-time of an octet-string, or its octets if they are no date-time.
pub fn write_string_time<A: Allocator>(text: &mut Text<A>, bytes: &[u8]) {
    match date_time_in(bytes) {
        Some(octets) => write_date_time(text, octets),
        None => octets(text, bytes),
    }
}

/// Bits, the first one first.
pub fn write_bits<A: Allocator>(text: &mut Text<A>, bits: &Bits<A>) {
    let mut left = bits.len();
    for byte in bits.as_bytes() {
        let mut weight = 128u8;
        for _ in 0..8u8 {
            if left == 0 || weight == 0 {
                break;
            }
            text.either(*byte & weight != 0, "1", "0");
            weight /= 2;
            left -= 1;
        }
    }
}

/// A type with a number.
fn write_unsigned<A: Allocator>(text: &mut Text<A>, kind: &str, value: u64) {
    text.push(kind);
    number(text, value);
}

/// A type with a number that may be below 0.
fn write_signed<A: Allocator>(text: &mut Text<A>, kind: &str, value: i64) {
    text.push(kind);
    signed_number(text, value);
}

/// The type and the number of a value that is never below 0.
pub fn unsigned_of<A: Allocator>(value: &Data<A>) -> Option<(&'static str, u64)> {
    match value {
        Data::DoubleLongUnsigned(n) => Some(("double-long-unsigned ", u64::from(*n))),
        Data::Unsigned(n) => Some(("unsigned ", u64::from(*n))),
        Data::LongUnsigned(n) => Some(("long-unsigned ", u64::from(*n))),
        Data::Long64Unsigned(n) => Some(("long64-unsigned ", *n)),
        Data::Enum(n) => Some(("enum ", u64::from(*n))),
        _ => None,
    }
}

/// The type and the number of a value that may be below 0.
pub fn signed_of<A: Allocator>(value: &Data<A>) -> Option<(&'static str, i64)> {
    match value {
        Data::DoubleLong(z) => Some(("double-long ", i64::from(*z))),
        Data::Integer(z) => Some(("integer ", i64::from(*z))),
        Data::Long(z) => Some(("long ", i64::from(*z))),
        Data::Long64(z) => Some(("long64 ", *z)),
        _ => None,
    }
}

/// Whether a value that is a number is below 0, and the number without its sign; nothing for another value.
pub fn number_in<A: Allocator>(value: &Data<A>) -> Option<(bool, u64)> {
    if let Data::Enum(_) = value {
        return None;
    }
    if let Some((_, number)) = unsigned_of(value) {
        return Some((false, number));
    }
    let (_, number) = signed_of(value)?;
    Some((number < 0, number.unsigned_abs()))
}

/// The words of a value without inner values; nothing for the others.
fn words_of<A: Allocator>(value: &Data<A>) -> &'static str {
    match value {
        Data::Null => "null-data",
        Data::Boolean(true) => "boolean true",
        Data::Boolean(false) => "boolean false",
        _ => "",
    }
}

/// The line of a number, or of a value without a part; nothing of the others.
fn write_number<A: Allocator>(text: &mut Text<A>, value: &Data<A>) {
    if let Some((kind, number)) = unsigned_of(value) {
        write_unsigned(text, kind, number);
        return;
    }
    if let Some((kind, number)) = signed_of(value) {
        write_signed(text, kind, number);
        return;
    }
    if let Data::Bcd(digits) = value {
        text.push("bcd ");
        octets(text, &[*digits]);
        return;
    }
    text.push(words_of(value));
}

/// The line of a value that holds no other values.
pub fn write_plain<A: Allocator>(text: &mut Text<A>, value: &Data<A>) {
    if text.is_typed {
        write_typed_plain(text, value);
        return;
    }
    match value {
        Data::BitString(bits) => {
            text.push("bit-string ");
            write_bits(text, bits);
        }
        Data::OctetString(bytes) => {
            text.push("octet-string ");
            write_octets(text, bytes.as_slice());
        }
        Data::VisibleString(bytes) => {
            text.push("visible-string ");
            write_string(text, bytes.as_slice());
        }
        Data::Utf8String(bytes) => {
            text.push("utf8-string ");
            write_string(text, bytes.as_slice());
        }
        Data::DateTime(octets) => {
            text.push("date-time ");
            write_date_time(text, *octets);
        }
        Data::Date(octets) => {
            text.push("date ");
            write_date(text, *octets);
        }
        Data::Time(octets) => {
            text.push("time ");
            write_time(text, *octets);
        }
        other => write_number(text, other),
    }
}

/// The line of an array or a structure, with how many values it holds, and these below it.
#[cycle(tree)]
fn write_items<A: Allocator>(
    text: &mut Text<A>,
    depth: u8,
    room: u8,
    kind: &str,
    items: &[Data<A>],
) {
    write_count(text, depth, kind, items.len() as u64);
    if room == 0 {
        return;
    }
    for item in items {
        write_tree(text, depth.saturating_add(1), room - 1, item);
    }
}

/// The lines of a value with this many levels.
#[cycle(tree)]
fn write_tree<A: Allocator>(text: &mut Text<A>, depth: u8, room: u8, value: &Data<A>) {
    if depth > DEEPEST && !text.has_parts {
        return;
    }
    match value {
        Data::Array(items) => write_items(text, depth, room, "array of ", items.as_slice()),
        Data::Structure(items) => write_items(text, depth, room, "structure of ", items.as_slice()),
        plain => {
            begin(text, depth);
            write_plain(text, plain);
            end_value(text);
        }
    }
}

/// The lines of a value in words: the first one at this depth, and its inner values a level deeper.
pub fn write_words<A: Allocator>(text: &mut Text<A>, depth: u8, value: &Data<A>) {
    write_tree(text, depth, MOST_LEVELS, value);
}

/// The same lines as objects of JSON, if the output is JSON.
pub fn write_objects<A: Allocator>(text: &mut Text<A>, depth: u8, value: &Data<A>) {
    if text.is_json {
        text.is_typed = true;
        write_tree(text, depth, MOST_LEVELS, value);
        text.is_typed = false;
    }
}

/// The lines of a value in words, and as objects of JSON if the output is JSON.
pub fn write_levels<A: Allocator>(text: &mut Text<A>, depth: u8, value: &Data<A>) {
    write_words(text, depth, value);
    write_objects(text, depth, value);
}

/// Appends to the text the lines of a value that was read: the first one at this depth, and its inner values a level deeper.
pub fn write_value<A: Allocator + Copy>(
    words: &mut String<A>,
    depth: u8,
    value: &Data<A>,
) -> Result<(), AllocError> {
    let mut text = Text::behind(words);
    write_levels(&mut text, depth, value);
    text.end(words)
}

/// A value within a line: of a time its date, of an array or a structure how many it holds.
pub fn write_inline<A: Allocator>(text: &mut Text<A>, value: &Data<A>) {
    match value {
        Data::Array(items) => write_unsigned(text, "array of ", items.len() as u64),
        Data::Structure(items) => write_unsigned(text, "structure of ", items.len() as u64),
        Data::OctetString(bytes) => match date_time_in(bytes.as_slice()) {
            Some(octets) => write_date_time(text, octets),
            None => write_octets(text, bytes.as_slice()),
        },
        Data::DoubleLongUnsigned(n) => number(text, u64::from(*n)),
        Data::LongUnsigned(n) => number(text, u64::from(*n)),
        plain => write_plain(text, plain),
    }
}

/// The line of an array or a structure that may hold a secret, and the lines of its values below it.
#[cycle(veiled)]
fn write_veiled_items<A: Allocator>(
    text: &mut Text<A>,
    depth: u8,
    room: u8,
    kind: &str,
    count: usize,
    veiled: &Veiled<'_, A>,
) {
    write_count(text, depth, kind, count as u64);
    if room == 0 {
        return;
    }
    for at in 0..count {
        if let Some(item) = veiled.item(at) {
            write_veiled_tree(text, depth.saturating_add(1), room - 1, &item);
        }
    }
}

/// The lines of a value with this many levels that may be a secret, or contain one.
#[cycle(veiled)]
fn write_veiled_tree<A: Allocator>(
    text: &mut Text<A>,
    depth: u8,
    room: u8,
    veiled: &Veiled<'_, A>,
) {
    if depth > DEEPEST && !text.has_parts {
        return;
    }
    match veiled.part() {
        Part::Array(count) => write_veiled_items(text, depth, room, "array of ", count, veiled),
        Part::Structure(count) => {
            write_veiled_items(text, depth, room, "structure of ", count, veiled);
        }
        Part::OctetString(len) => {
            write_length(text, depth, "octet-string of ", len as u64, " octets");
        }
        Part::VisibleString(len) => {
            write_length(text, depth, "visible-string of ", len as u64, " octets");
        }
        Part::Utf8String(len) => {
            write_length(text, depth, "utf8-string of ", len as u64, " octets");
        }
        Part::BitString(len) => write_length(text, depth, "bit-string of ", len as u64, " bits"),
        Part::Plain(plain) => {
            begin(text, depth);
            write_plain(text, plain);
            end_value(text);
        }
    }
}

/// The lines of a value that may be a secret, or hold one: of a string how long it is.
pub fn write_veiled<A: Allocator>(text: &mut Text<A>, depth: u8, veiled: &Veiled<'_, A>) {
    write_veiled_tree(text, depth, MOST_LEVELS, veiled);
    if text.is_json {
        text.is_typed = true;
        write_veiled_tree(text, depth, MOST_LEVELS, veiled);
        text.is_typed = false;
    }
}
