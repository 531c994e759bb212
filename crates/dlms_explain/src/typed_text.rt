//! Values as objects of JSON, each with its type, a line each. An array or a structure is left open: `json` closes its brackets.

use crate::data_text::{date_time_in, signed_of, unsigned_of, write_bits};
use crate::date_text::write_iso_time;
use crate::json::write_quoted;
use crate::words::{Text, begin, end, line, number, number_line, octets, signed_number};
use dlms_data::Data;
use dlms_values::{Value, read};
use std::alloc::Allocator;
use std::str;

/// The name of a type, in the label that a line begins with.
fn type_in(label: &str) -> &str {
    match label.split_once(" ") {
        Some((name, _)) => name,
        None => label,
    }
}

/// Opens the object of a value with this label.
pub fn write_type<A: Allocator>(text: &mut Text<A>, label: &str) {
    text.push("{\"type\":\"");
    text.push(type_in(label));
    text.push("\"");
}

/// The line of an array or a structure without its values: with how many it has, or an object that they close.
pub fn write_count<A: Allocator>(text: &mut Text<A>, depth: u8, label: &str, count: u64) {
    if !text.is_typed {
        number_line(text, depth, label, count, "");
        return;
    }
    begin(text, depth);
    write_type(text, label);
    text.push(",\"value\":[");
    end(text);
}

/// The line of a string of which the length alone is shown.
pub fn write_length<A: Allocator>(
    text: &mut Text<A>,
    depth: u8,
    label: &str,
    count: u64,
    parts: &str,
) {
    if !text.is_typed {
        number_line(text, depth, label, count, parts);
        return;
    }
    begin(text, depth);
    write_type(text, label);
    text.push(",\"length\":");
    number(text, count);
    text.push("}");
    end(text);
}

/// The line of a secret.
pub fn write_secret<A: Allocator>(text: &mut Text<A>, depth: u8) {
    line(text, depth, "(secret)");
    if text.is_json {
        line(text, depth, "{\"type\":\"secret\"}");
    }
}

/// A member with octets in hexadecimal digits.
pub fn write_hex<A: Allocator>(text: &mut Text<A>, label: &str, bytes: &[u8]) {
    text.push(label);
    octets(text, bytes);
    text.push("\"");
}

/// Whether octets are text in UTF-8; with `is_printed`, whether each letter is printable.
fn text_in(bytes: &[u8], is_printed: bool) -> Option<&str> {
    let Ok(words) = str::from_utf8(bytes) else {
        return None;
    };
    for letter in words.chars() {
        if is_printed && letter.is_control() {
            return None;
        }
    }
    Some(words)
}

/// The object of a string: its text, or its octets and the date-time in them; it is not closed.
fn write_typed_string<A: Allocator>(
    text: &mut Text<A>,
    kind: &str,
    bytes: &[u8],
    is_printed: bool,
) {
    write_type(text, kind);
    match text_in(bytes, is_printed) {
        Some(words) => {
            text.push(",\"text\":\"");
            write_quoted(text, words);
            text.push("\"");
        }
        None => {
            write_hex(text, ",\"hex\":\"", bytes);
            if let Some(octets) = date_time_in(bytes) {
                write_iso_time(text, octets);
            }
        }
    }
}

/// The object of a number, or of a value without a part; it is not closed.
fn write_typed_number<A: Allocator>(text: &mut Text<A>, value: &Data<A>) {
    if let Some((kind, value)) = unsigned_of(value) {
        write_type(text, kind);
        text.push(",\"value\":");
        number(text, value);
        return;
    }
    if let Some((kind, value)) = signed_of(value) {
        write_type(text, kind);
        text.push(",\"value\":");
        signed_number(text, value);
        return;
    }
    match value {
        Data::Bcd(digits) => write_hex(text, "{\"type\":\"bcd\",\"value\":\"", &[*digits]),
        Data::Boolean(true) => text.push("{\"type\":\"boolean\",\"value\":true"),
        Data::Boolean(false) => text.push("{\"type\":\"boolean\",\"value\":false"),
        _ => text.push("{\"type\":\"null\",\"value\":null"),
    }
}

/// The object of a value that holds no other values; it is not closed.
pub fn write_typed_plain<A: Allocator>(text: &mut Text<A>, value: &Data<A>) {
    match value {
        Data::BitString(bits) => {
            text.push("{\"type\":\"bit-string\",\"value\":\"");
            write_bits(text, bits);
            text.push("\"");
        }
        Data::OctetString(bytes) => {
            write_typed_string(text, "octet-string", bytes.as_slice(), true);
        }
        Data::VisibleString(bytes) => {
            write_typed_string(text, "visible-string", bytes.as_slice(), false);
        }
        Data::Utf8String(bytes) => {
            write_typed_string(text, "utf8-string", bytes.as_slice(), false);
        }
        Data::DateTime(octets) => {
            write_hex(text, "{\"type\":\"date-time\",\"hex\":\"", octets);
            write_iso_time(text, *octets);
        }
        Data::Date(octets) => write_hex(text, "{\"type\":\"date\",\"hex\":\"", octets),
        Data::Time(octets) => write_hex(text, "{\"type\":\"time\",\"hex\":\"", octets),
        other => write_typed_number(text, other),
    }
}

/// The object of a compact array; it is not closed.
pub fn write_typed_compact<A: Allocator>(text: &mut Text<A>, bytes: &[u8]) {
    match read(bytes) {
        Ok((Value::CompactArray(array), _)) => {
            text.push("{\"type\":\"compact-array\"");
            write_hex(text, ",\"tags\":\"", array.tags);
            write_hex(text, ",\"hex\":\"", array.contents);
        }
        _ => write_hex(text, "{\"type\":\"unknown\",\"hex\":\"", bytes),
    }
}
