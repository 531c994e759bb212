//! Values by their octets, a line each.

use crate::data_text::write_plain;
use crate::typed_text::{
    write_count, write_hex, write_length, write_secret, write_type, write_typed_compact,
};
use crate::words::{Text, begin, end_value, line, octets, signed_number};
use dlms_data::read;
use dlms_dissect::{Field, Shown, front_at, length_at};
use ryu::Buffer;
use std::alloc::Allocator;
use std::num::{f32_from_bits_with_nan, f64_from_bits_with_nan};

/// The name of a string's type, and of its unit of length.
fn string_name(tag: u8) -> (&'static str, &'static str) {
    match tag {
        4 => ("bit-string of ", " bits"),
        9 => ("octet-string of ", " octets"),
        10 => ("visible-string of ", " octets"),
        12 => ("utf8-string of ", " octets"),
        _ => ("compact-array", ""),
    }
}

/// A label, or in the object of a value its type.
fn write_label<A: Allocator>(text: &mut Text<A>, label: &str) {
    if text.is_typed {
        write_type(text, label);
        text.push(",\"value\":");
    } else {
        text.push(label);
    }
}

/// A float that is no number: its digits, or in the object of a value null.
fn write_no_number<A: Allocator>(text: &mut Text<A>, fields: &[u8]) {
    if text.is_typed {
        text.push("null");
    } else {
        octets(text, fields);
    }
}

/// A float of four octets; digits if it is no number.
fn write_float32<A: Allocator>(text: &mut Text<A>, fields: [u8; 4]) {
    write_label(text, "float32 ");
    let value = f32_from_bits_with_nan(u32::from_be_bytes(fields));
    if value.is_finite() {
        text.push(Buffer::new().format_finite(value));
    } else {
        write_no_number(text, &fields);
    }
}

/// A float of eight octets; digits if it is no number.
fn write_float64<A: Allocator>(text: &mut Text<A>, fields: [u8; 8]) {
    write_label(text, "float64 ");
    let value = f64_from_bits_with_nan(u64::from_be_bytes(fields));
    if value.is_finite() {
        text.push(Buffer::new().format_finite(value));
    } else {
        write_no_number(text, &fields);
    }
}

/// A difference to a value before it, of one, two or four octets.
fn delta_of(tag: u8, fields: &[u8]) -> Option<i64> {
    match (tag, fields) {
        (28, [a]) => Some(i64::from(i8::from_be_bytes([*a]))),
        (29, [a, b]) => Some(i64::from(i16::from_be_bytes([*a, *b]))),
        (30, [a, b, c, d]) => Some(i64::from(i32::from_be_bytes([*a, *b, *c, *d]))),
        (31, [a]) => Some(i64::from(*a)),
        (32, [a, b]) => Some(i64::from(u16::from_be_bytes([*a, *b]))),
        (33, [a, b, c, d]) => Some(i64::from(u32::from_be_bytes([*a, *b, *c, *d]))),
        _ => None,
    }
}

/// The name of the type of a difference.
fn delta_name(tag: u8) -> &'static str {
    match tag {
        28 => "delta-integer",
        29 => "delta-long",
        30 => "delta-double-long",
        31 => "delta-unsigned",
        32 => "delta-long-unsigned",
        _ => "delta-double-long-unsigned",
    }
}

/// A difference to an earlier value; digits if it is no number.
fn write_delta<A: Allocator>(text: &mut Text<A>, tag: u8, fields: &[u8]) {
    let is_typed = text.is_typed;
    write_label(text, if is_typed { delta_name(tag) } else { "delta " });
    match delta_of(tag, fields) {
        Some(delta) => signed_number(text, delta),
        None => write_no_number(text, fields),
    }
}

/// How many values an array or a structure has.
fn count_in(bytes: &[u8]) -> usize {
    match front_at(Field::Value, bytes) {
        Some(front) => front.values,
        None => 0,
    }
}

/// A value that the meter's reader returns; digits if it returns none.
fn write_read<A: Allocator + Copy>(text: &mut Text<A>, alloc: A, bytes: &[u8]) {
    match read(alloc, bytes) {
        Ok((value, _)) => {
            write_plain(text, &value);
            drop(value);
        }
        Err(_) if text.is_typed => write_hex(text, "{\"type\":\"unknown\",\"hex\":\"", bytes),
        Err(_) => octets(text, bytes),
    }
}

/// A value that does not matter.
fn write_dont_care<A: Allocator>(text: &mut Text<A>) {
    let is_typed = text.is_typed;
    text.either(
        is_typed,
        "{\"type\":\"dont-care\",\"value\":null",
        "dont-care",
    );
}

/// A value of a type that holds no others.
fn write_leaf<A: Allocator + Copy>(text: &mut Text<A>, alloc: A, bytes: &[u8]) {
    match bytes {
        [23, a, b, c, d] => write_float32(text, [*a, *b, *c, *d]),
        [24, a, b, c, d, e, f, g, h] => write_float64(text, [*a, *b, *c, *d, *e, *f, *g, *h]),
        [255] => write_dont_care(text),
        [19, ..] if text.is_typed => write_typed_compact(text, bytes),
        [19, rest @ ..] => {
            text.push("compact-array ");
            octets(text, rest);
        }
        [tag, rest @ ..] if 28 <= *tag && *tag <= 33 => write_delta(text, *tag, rest),
        _ => write_read(text, alloc, bytes),
    }
}

/// The line of a value by its octets, without the values that it holds.
fn write_open<A: Allocator + Copy>(text: &mut Text<A>, alloc: A, depth: u8, bytes: &[u8]) {
    match bytes {
        [1, ..] => write_count(text, depth, "array of ", count_in(bytes) as u64),
        [2, ..] => write_count(text, depth, "structure of ", count_in(bytes) as u64),
        _ => {
            begin(text, depth);
            write_leaf(text, alloc, bytes);
            end_value(text);
        }
    }
}

/// The line of a value's report: in words, or as an object of JSON.
fn write_report<A: Allocator + Copy>(text: &mut Text<A>, alloc: A, depth: u8, shown: Shown<'_>) {
    match shown {
        Shown::Secret => {}
        Shown::Veiled { tag: 19, .. } if !text.is_typed => line(text, depth, "compact-array"),
        Shown::Veiled { tag, count } => {
            let (kind, parts) = string_name(tag);
            write_length(text, depth, kind, u64::from(count), parts);
        }
        Shown::Open(bytes) => write_open(text, alloc, depth, bytes),
    }
}

/// The line of a value's report, and if the output is JSON, its object.
pub fn write_shown<A: Allocator + Copy>(text: &mut Text<A>, alloc: A, depth: u8, shown: Shown<'_>) {
    if let Shown::Secret = shown {
        write_secret(text, depth);
        return;
    }
    write_report(text, alloc, depth, shown);
    if text.is_json {
        text.is_typed = true;
        write_report(text, alloc, depth, shown);
        text.is_typed = false;
    }
}

/// The octets after a length.
pub fn behind_length(bytes: &[u8]) -> &[u8] {
    match length_at(bytes) {
        Some(length) => &bytes[length.octets.min(bytes.len())..],
        None => bytes,
    }
}
