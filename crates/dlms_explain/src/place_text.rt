//! When a segment of a capture came, and from where to where.

ghost use Rattle.std.specs.Prelude.{◌≤◌};

use crate::json::{begin_note, end_note};
use crate::layout::Layout;
use crate::words::{Text, hexadecimal, number, two_digits};
use dlms_capture::{Address, Ends, Place, Stamp};
use dlms_data::{LAST_SECOND, octets};
use std::alloc::Allocator;

/// The second of a capture at which the clock of DLMS begins: 2000-01-01 00:00:00, from 1970-01-01 on.
const FIRST_SECOND: u64 = 946_684_800;

/// Six digits, the microseconds of a second.
fn write_microseconds<A: Allocator>(text: &mut Text<A>, nanoseconds: u32) {
    text.push(".");
    let mut rest = nanoseconds / 1000 % 1_000_000;
    let mut unit = 100_000;
    for _ in 0..6u8 {
        if unit > 0 {
            number(text, u64::from(rest / unit));
            rest %= unit;
        }
        unit /= 10;
    }
}

/// A second as a date and a time, in UTC.
fn write_second<A: Allocator>(text: &mut Text<A>, second: u32)
    requires { second ≤ LAST_SECOND }
{
    let [high, low, month, day, _, hour, minute, second, ..] = octets(second);
    number(text, u64::from(high) * 256 + u64::from(low));
    for (mark, field) in [
        ("-", month),
        ("-", day),
        (" ", hour),
        (":", minute),
        (":", second),
    ] {
        text.push(mark);
        two_digits(text, field);
    }
}

/// The seconds of a stamp; one before 2000 or after 2099 as seconds since 1970.
fn write_seconds<A: Allocator>(text: &mut Text<A>, seconds: u64) {
    match seconds.checked_sub(FIRST_SECOND) {
        Some(second) if second <= u64::from(LAST_SECOND) => write_second(text, second as u32),
        _ => number(text, seconds),
    }
}

/// A stamp.
fn write_stamp<A: Allocator>(text: &mut Text<A>, stamp: Stamp) {
    write_seconds(text, stamp.seconds);
    write_microseconds(text, stamp.nanoseconds);
}

/// The digits of a group of an address of IP of version 6, without leading zeros (RFC 5952).
fn write_group<A: Allocator>(text: &mut Text<A>, group: u16) {
    let mut is_begun = false;
    for shift in [12u16, 8, 4, 0] {
        let digit = (group >> shift) % 16;
        is_begun = is_begun || digit > 0 || shift == 0;
        if is_begun {
            hexadecimal(text, digit as u8);
        }
    }
}

/// An address of IP of version 6, in its eight groups.
fn write_six<A: Allocator>(text: &mut Text<A>, octets: [u8; 16]) {
    text.push("[");
    for group in 0..8usize {
        if group > 0 {
            text.push(":");
        }
        if let Some([high, low, ..]) = octets.get(group * 2..) {
            write_group(text, u16::from(*high) * 256 + u16::from(*low));
        }
    }
    text.push("]");
}

/// An address of IP of version 4.
fn write_four<A: Allocator>(text: &mut Text<A>, octets: [u8; 4]) {
    let mut mark = "";
    for octet in octets {
        text.push(mark);
        number(text, u64::from(octet));
        mark = ".";
    }
}

/// An address of IP.
fn write_address<A: Allocator>(text: &mut Text<A>, address: Address) {
    match address {
        Address::Four(octets) => write_four(text, octets),
        Address::Six(octets) => write_six(text, octets),
    }
}

/// An address and a port.
fn write_place<A: Allocator>(text: &mut Text<A>, place: Place) {
    write_address(text, place.address);
    text.push(":");
    number(text, u64::from(place.port));
}

/// When a segment came, in UTC, and its sender and receiver; in one line with its content the time alone.
pub fn write_segment<A: Allocator>(
    text: &mut Text<A>,
    is_one_line: bool,
    stamp: Option<Stamp>,
    ends: Ends,
) {
    if let Some(stamp) = stamp {
        write_stamp(text, stamp);
    }
    if is_one_line {
        return;
    }
    if stamp.is_some() {
        text.push(" ");
    }
    write_place(text, ends.from);
    text.push(" to ");
    write_place(text, ends.to);
}

/// A line of words and a number, unless that is 0.
fn write_counted<A: Allocator>(text: &mut Text<A>, layout: Layout, words: &str, count: u64) {
    if count == 0 {
        return;
    }
    begin_note(text, layout);
    text.push(words);
    number(text, count);
    text.push(")");
    end_note(text, layout);
}

/// The line of octets that a capture does not have, if there are some.
pub fn write_missing<A: Allocator>(text: &mut Text<A>, layout: Layout, count: u64) {
    write_counted(
        text,
        layout,
        "(octets that the capture does not have: ",
        count,
    );
}

/// The line of octets that belong before the first ones of their direction and come after these, if there are some.
pub fn write_late<A: Allocator>(text: &mut Text<A>, layout: Layout, count: u64) {
    write_counted(
        text,
        layout,
        "(octets before the first ones, which come after them: ",
        count,
    );
}
