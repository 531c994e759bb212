//! A frame as a JSON object, in a line: made from its full explanation.

use crate::echo_text::is_steering;
use crate::layout::Layout;
use crate::short::{View, has_service, service};
use crate::words::{Text, Verdict, number, octet, octets};
use dlms_dissect::{Heading, Side, lower, name_of, read, upper};
use dlms_frame::Address;
use std::alloc::Allocator;

/// A letter of a string of JSON (RFC 8259, 7).
fn write_letter<A: Allocator>(text: &mut Text<A>, letter: char) {
    match letter {
        '"' => text.push("\\\""),
        '\\' => text.push("\\\\"),
        steering if steering < ' ' || is_steering(steering) => {
            text.push("\\u");
            octet(text, (u32::from(steering) / 256 % 256) as u8);
            octet(text, (u32::from(steering) % 256) as u8);
        }
        other => text.letter(other),
    }
}

/// Words within a string of JSON.
pub fn write_quoted<A: Allocator>(text: &mut Text<A>, words: &str) {
    for letter in words.chars() {
        write_letter(text, letter);
    }
}

/// Words as a string of JSON.
fn push_string<A: Allocator>(text: &mut Text<A>, words: &str) {
    text.push("\"");
    write_quoted(text, words);
    text.push("\"");
}

/// A note that is no frame begins: in JSON, an object with its words alone. They have no letter that JSON escapes.
pub fn begin_note<A: Allocator>(text: &mut Text<A>, layout: Layout) {
    text.push_if(layout.is_json(), "{\"text\":\"");
}

/// A note that is no frame ends.
pub fn end_note<A: Allocator>(text: &mut Text<A>, layout: Layout) {
    text.either(layout.is_json(), "\"}\n", "\n");
}

/// A line of a note that is no frame.
pub fn write_note<A: Allocator>(text: &mut Text<A>, layout: Layout, words: &str) {
    if layout.is_json() {
        write_string(text, "{\"text\":", words);
        text.push("}\n");
    } else {
        text.push(words);
        text.push("\n");
    }
}

/// A member that is a number.
fn write_number<A: Allocator>(text: &mut Text<A>, name: &str, value: u64) {
    text.push(name);
    number(text, value);
}

/// A member that is a string.
fn write_string<A: Allocator>(text: &mut Text<A>, name: &str, words: &str) {
    text.push(name);
    push_string(text, words);
}

/// The time, if there is one.
fn write_time<A: Allocator>(text: &mut Text<A>, stamp: &str) {
    if stamp.is_empty() {
        return;
    }
    write_string(text, "\"time\":", stamp);
    text.push(",");
}

/// The time, and who sends.
fn begin_object<A: Allocator>(text: &mut Text<A>, stamp: &str, side: Option<Side>) {
    text.push("{");
    write_time(text, stamp);
    match side {
        Some(Side::Client) => text.push("\"from\":\"client\""),
        Some(Side::Meter) => text.push("\"from\":\"meter\""),
        None => text.push("\"from\":null"),
    }
}

/// Whether a line in full says which attribute or method a service names: its name begins with a digit.
fn is_object(line: &str) -> bool {
    let Some(words) = line.strip_prefix("    ") else {
        return false;
    };
    match words.strip_prefix("of ").unwrap_or(words).as_bytes() {
        [first, ..] => first.is_ascii_digit(),
        [] => false,
    }
}

/// The words of the object that a line in full says.
fn object(line: &str) -> &str {
    let words = line.trim_start();
    words.strip_prefix("of ").unwrap_or(words)
}

/// Whether a line of the full explanation is about the frame's place among others, and not about its content.
fn is_of_frame(line: &str) -> bool {
    line.starts_with("  segment ")
        || line.ends_with(" segments joined")
        || line.ends_with(": not taken")
        || line.ends_with(": not taken again")
}

/// The line in full of the service.
fn service_line(full: &str) -> Option<&str> {
    full.lines().find(|line| !is_of_frame(line))
}

/// The full explanation besides the service and the object, a string a line.
fn write_told<A: Allocator>(text: &mut Text<A>, full: &str, has_service: bool) {
    let mut is_begun = false;
    let mut is_behind = !has_service;
    let mut has_object = false;
    for line in full.lines() {
        if !is_behind && !is_of_frame(line) {
            is_behind = true;
            continue;
        }
        if !has_object && is_object(line) {
            has_object = true;
            continue;
        }
        if object_depth(line).is_some() || is_members(line) {
            continue;
        }
        text.either(is_begun, ",", ",\"told\":[");
        push_string(text, line.trim_start());
        is_begun = true;
    }
    text.push_if(is_begun, "]");
}

/// How deep a line is that is the object of a value; nothing for another one.
fn object_depth(line: &str) -> Option<usize> {
    let words = line.trim_start();
    if words.starts_with("{") {
        Some(line.len().saturating_sub(words.len()) / 2)
    } else {
        None
    }
}

/// Whether a line is members of the object.
fn is_members(line: &str) -> bool {
    line.trim_start().starts_with(",")
}

/// The members in the full explanation that are written as they are.
fn write_members<A: Allocator>(text: &mut Text<A>, full: &str) {
    for line in full.lines() {
        text.push_if(is_members(line), line.trim_start());
    }
}

/// Closes arrays and structures until so many are open. Returns how many are.
fn close_to<A: Allocator>(text: &mut Text<A>, open: usize, wanted: usize) -> usize {
    for _ in wanted..open {
        text.push("]}");
    }
    open.min(wanted)
}

/// The values in the full explanation, in their order.
fn write_values<A: Allocator>(text: &mut Text<A>, full: &str) {
    let mut base = 0;
    let mut open = 0;
    let mut is_first = true;
    let mut was_opened = false;
    for line in full.lines() {
        let Some(depth) = object_depth(line) else {
            continue;
        };
        if open == 0 || depth < base {
            base = depth;
        }
        let still = close_to(text, open, depth.saturating_sub(base));
        text.push_if(is_first, ",\"values\":[");
        text.push_if(!is_first && (still < open || !was_opened), ",");
        text.push(line.trim_start());
        is_first = false;
        was_opened = line.ends_with("[");
        open = if was_opened {
            still.saturating_add(1)
        } else {
            still
        };
    }
    close_to(text, open, 0);
    text.push_if(!is_first, "]");
}

/// The service in the full explanation, if there is one.
fn write_service<A: Allocator>(text: &mut Text<A>, full: &str) {
    match service_line(full) {
        Some(line) => write_string(text, ",\"service\":", service(line.trim_start())),
        None => {}
    }
}

/// The object in the full explanation, if there is one.
fn write_object<A: Allocator>(text: &mut Text<A>, full: &str) {
    match full.lines().find(|line| is_object(line)) {
        Some(line) => write_string(text, ",\"object\":", object(line)),
        None => {}
    }
}

/// The service, the object and the rest of an explanation.
fn write_lines<A: Allocator>(text: &mut Text<A>, full: &str, has_service: bool) {
    if has_service {
        write_service(text, full);
    }
    write_object(text, full);
    write_told(text, full, has_service);
    write_values(text, full);
    write_members(text, full);
}

/// The outcome of opening a ciphered APDU: the APDU in it with its explanation, or why it was not opened.
fn write_verdict<A: Allocator>(text: &mut Text<A>, verdict: Verdict, inside: &str) {
    match verdict.is_authenticated {
        Some(is_authenticated) => {
            text.push(",\"opened\":{\"authenticated\":");
            text.either(is_authenticated, "true", "false");
            write_lines(text, inside, true);
            text.push("}");
        }
        None => write_string(text, ",\"closed\":", verdict.words),
    }
}

/// The service, the object and the rest of the full explanation, those of an APDU that is joined of blocks, and those of a ciphered
/// APDU that was opened.
fn write_rest<A: Allocator>(text: &mut Text<A>, full: &Text<A>, has_service: bool) {
    let (outside, opened) = full.parts();
    let joined = full.joined_in(outside);
    match joined {
        Some((block, len, lines)) => {
            write_lines(text, block, has_service);
            write_number(text, ",\"joined\":{\"length\":", len as u64);
            write_lines(text, lines, true);
        }
        None => write_lines(text, outside, has_service),
    }
    match opened {
        Some((verdict, inside)) => write_verdict(text, verdict, inside),
        None => {}
    }
    text.push_if(joined.is_some(), "}");
}

/// The octets beside it, if there are some, and the end of an object.
fn end_object<A: Allocator>(text: &mut Text<A>, beside: &[u8]) {
    if beside.is_empty() {
        text.push("}\n");
    } else {
        text.push(",\"octets\":\"");
        octets(text, beside);
        text.push("\"}\n");
    }
}

/// The client's address, and the meter's.
fn write_ends<A: Allocator>(text: &mut Text<A>, client: Address, meter: Address) {
    write_number(text, ",\"client\":", u64::from(upper(client)));
    write_number(text, ",\"meter\":", u64::from(upper(meter)));
    if let Some(lower) = lower(meter) {
        write_number(text, ",\"lower\":", u64::from(lower));
    }
}

/// A frame: its time, its ends, its control field, the number of octets between its flags, and its full explanation.
pub fn write_json<A: Allocator, O>(
    text: &mut Text<A>,
    view: &View<A, O>,
    side: Option<Side>,
    heading: Heading,
    beside: &[u8],
) {
    begin_object(text, view.stamp.as_str(), side);
    match side {
        Some(Side::Meter) => write_ends(text, heading.dest, heading.src),
        _ => write_ends(text, heading.src, heading.dest),
    }
    let control = read(heading.control);
    write_string(text, ",\"kind\":", name_of(control));
    write_number(text, ",\"length\":", heading.len as u64);
    write_rest(text, &view.full, has_service(control));
    end_object(text, beside);
}

/// An APDU in no frame: its time, the client's port and the meter's if it is in the wrapper, and its full explanation.
pub fn write_json_unframed<A: Allocator, O>(
    text: &mut Text<A>,
    view: &View<A, O>,
    side: Option<Side>,
    ports: Option<(u16, u16)>,
    beside: &[u8],
) {
    begin_object(text, view.stamp.as_str(), side);
    match ports {
        Some((client, meter)) => {
            write_number(text, ",\"client\":", u64::from(client));
            write_number(text, ",\"meter\":", u64::from(meter));
            write_string(text, ",\"kind\":", "wrapper");
        }
        None => write_string(text, ",\"kind\":", "apdu"),
    }
    write_rest(text, &view.full, true);
    end_object(text, beside);
}
