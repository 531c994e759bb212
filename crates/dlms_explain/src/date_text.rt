//! Date-times, dates and times as text (the Blue Book, date and time notation).

use crate::words::{Text, number, octet, signed_number, two_digits};
use std::alloc::Allocator;

/// A field that is left open.
const OPEN: u8 = 0xff;

/// A deviation that is left open.
const NO_DEVIATION: u16 = 0x8000;

/// A field of two digits; `*` if it is left open.
fn write_field<A: Allocator>(text: &mut Text<A>, field: u8) {
    if field == OPEN {
        text.push("*");
    } else {
        two_digits(text, field);
    }
}

/// The year; `*` if it is left open.
fn write_year<A: Allocator>(text: &mut Text<A>, high: u8, low: u8) {
    if high == OPEN && low == OPEN {
        text.push("*");
    } else {
        number(text, u64::from(high) * 256 + u64::from(low));
    }
}

/// The month, or where daylight saving begins or ends.
fn write_month<A: Allocator>(text: &mut Text<A>, month: u8) {
    match month {
        0xfe => text.push("daylight-saving-begin"),
        0xfd => text.push("daylight-saving-end"),
        _ => write_field(text, month),
    }
}

/// Year, month and day. In the month `fe` begins and `fd` ends daylight saving, in the day they count from the month's end.
fn write_day<A: Allocator>(text: &mut Text<A>, fields: [u8; 4]) {
    let [high, low, month, day] = fields;
    write_year(text, high, low);
    text.push("-");
    write_month(text, month);
    text.push("-");
    match day {
        0xfe => text.push("last"),
        0xfd => text.push("second-last"),
        _ => write_field(text, day),
    }
}

/// Hour, minute and second, and hundredths if there are any.
fn write_hour<A: Allocator>(text: &mut Text<A>, fields: [u8; 4]) {
    let [hour, minute, second, hundredths] = fields;
    write_field(text, hour);
    text.push(":");
    write_field(text, minute);
    text.push(":");
    write_field(text, second);
    if hundredths != 0 && hundredths != OPEN {
        text.push(".");
        two_digits(text, hundredths);
    }
}

/// The minutes from UTC, if they are specified.
fn write_deviation<A: Allocator>(text: &mut Text<A>, deviation: [u8; 2]) {
    let number = u16::from_be_bytes(deviation);
    if number != NO_DEVIATION && number != 0 {
        text.push(", deviation ");
        signed_number(text, i64::from(i16::from_be_bytes(deviation)));
    }
}

/// The status of the clock, if it is specified.
fn write_status<A: Allocator>(text: &mut Text<A>, status: u8) {
    if status != 0 && status != OPEN {
        text.push(", status ");
        octet(text, status);
    }
}

/// A date-time of twelve octets, as `2026-11-24 09:30:00`; what is left open is `*`.
pub fn write_date_time<A: Allocator>(text: &mut Text<A>, octets: [u8; 12]) {
    let [
        high,
        low,
        month,
        day,
        _,
        hour,
        minute,
        second,
        hundredths,
        deviation,
        behind,
        status,
    ] = octets;
    write_day(text, [high, low, month, day]);
    text.push(" ");
    write_hour(text, [hour, minute, second, hundredths]);
    write_deviation(text, [deviation, behind]);
    write_status(text, status);
}

/// The minutes of local time from UTC, as ISO 8601 has them, if they are specified.
fn write_offset<A: Allocator>(text: &mut Text<A>, deviation: [u8; 2]) {
    if u16::from_be_bytes(deviation) == NO_DEVIATION {
        return;
    }
    let minutes = i16::from_be_bytes(deviation);
    let size = minutes.unsigned_abs();
    text.either(minutes > 0, "-", "+");
    two_digits(text, (size / 60 % 100) as u8);
    text.push(":");
    two_digits(text, (size % 60) as u8);
}

/// The member with a date-time of this century as ISO 8601; nothing if a part of it is left open.
pub fn write_iso_time<A: Allocator>(text: &mut Text<A>, octets: [u8; 12]) {
    let [
        high,
        low,
        month,
        day,
        _,
        hour,
        minute,
        second,
        _,
        more,
        less,
        _,
    ] = octets;
    let year = u64::from(high) * 256 + u64::from(low);
    let is_named = 2000 <= year && year < 2100 && month <= 12 && day <= 31;
    if !is_named || hour > 23 || minute > 59 || second > 59 {
        return;
    }
    text.push(",\"time\":\"");
    write_day(text, [high, low, month, day]);
    text.push("T");
    write_hour(text, [hour, minute, second, 0]);
    write_offset(text, [more, less]);
    text.push("\"");
}

/// A date of five octets.
pub fn write_date<A: Allocator>(text: &mut Text<A>, octets: [u8; 5]) {
    let [high, low, month, day, _] = octets;
    write_day(text, [high, low, month, day]);
}

/// A time of four octets.
pub fn write_time<A: Allocator>(text: &mut Text<A>, octets: [u8; 4]) {
    write_hour(text, octets);
}
