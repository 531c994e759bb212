//! Faults among the errors: as text, or as an object of JSON in a line.

use crate::json_text::append_member;
use dlms_faults::Fault;
use std::alloc::{AllocError, Global};
use std::io;
use std::io::Write;

/// The line for a fault if there is no memory for any other.
const NO_MEMORY: &[u8] = b"{\"error\":{\"name\":\"memory\",\"message\":\"memory\"}}\n";

/// Appends a part of a message, unless it is empty.
fn append_part(line: &mut Vec<u8>, label: &[u8], part: &str) -> Result<(), AllocError> {
    if part.is_empty() {
        return Ok(());
    }
    append_member(line, label, part)
}

/// Appends the first line of a message: a name, and a number if it has one.
fn append_name(line: &mut Vec<u8>, head: &str) -> Result<(), AllocError> {
    let (name, number) = head.split_once(' ').unwrap_or((head, ""));
    append_member(line, b"\"name\":", name)?;
    if number.is_empty() {
        return Ok(());
    }
    line.extend_from_slice(b",\"number\":")?;
    line.extend_from_slice(number.as_bytes())
}

/// The place that a line names first and the rest of it: this place, or without one all before the first colon and blank.
fn split_place<'t>(line: &'t str, place: Option<&str>) -> (&'t str, &'t str) {
    let Some(place) = place else {
        return line.split_once(": ").unwrap_or(("", line));
    };
    match line.split_at_checked(place.len()) {
        Some((found, rest)) => (found, rest.strip_prefix(": ").unwrap_or(rest)),
        None => ("", line),
    }
}

/// Appends a message, whose second line begins with this place if one is given, and which has what can be done in its last lines.
fn append_message(
    line: &mut Vec<u8>,
    message: &str,
    place: Option<&str>,
) -> Result<(), AllocError> {
    let (head, rest) = message.split_once("\n  ").unwrap_or((message, message));
    let (told, hint) = rest.split_once("\n  ").unwrap_or((rest, ""));
    let (place, why) = split_place(told, place);
    append_name(line, head)?;
    append_part(line, b",\"place\":", place)?;
    append_part(line, b",\"message\":", why)?;
    append_part(line, b",\"hint\":", hint)
}

/// Appends a fault as a line with an object of JSON: its name, its place, why it came, and what can be done; before that the name of
/// the meter in a list that it is about, unless that is empty.
pub fn append_fault_json(
    alloc: Global,
    line: &mut Vec<u8>,
    meter: &str,
    fault: &Fault<'_>,
) -> Result<(), AllocError> {
    let message = format!(in alloc; "{fault}")?;
    line.extend_from_slice(b"{\"error\":{")?;
    if !meter.is_empty() {
        append_member(line, b"\"meter\":", meter)?;
        line.extend_from_slice(b",")?;
    }
    append_message(line, message.as_str(), fault.place())?;
    line.extend_from_slice(b"}}\n")
}

/// Prints a fault among the errors: as `dlms: ` and its message, or as a line of JSON.
pub fn put_fault<E: Write>(
    alloc: Global,
    fault: &Fault<'_>,
    is_json: bool,
    errors: &mut E,
) -> io::Result<()> {
    if !is_json {
        return writeln!(errors, "dlms: {fault}");
    }
    let mut line = Vec::new(alloc);
    match append_fault_json(alloc, &mut line, "", fault) {
        Ok(()) => errors.write_all(line.as_slice()),
        Err(_) => errors.write_all(NO_MEMORY),
    }
}
