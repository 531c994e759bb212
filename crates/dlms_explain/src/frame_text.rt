//! The line of a frame, and the lines of bytes that are no frame.

use crate::json::{begin_note, end_note};
use crate::layout::Layout;
use crate::words::{Text, line, number, number_line};
use dlms_dissect::{
    Came, Control, Damage, Heading, Parameters, Piece, Side, has_poll, lower, name_of, read, upper,
};
use dlms_frame::{Address, Client};
use std::alloc::Allocator;

/// The sign of a side at the front of a line, as in a transcript; `-` if it is not known.
pub fn sign(side: Option<Side>) -> &'static str {
    match side {
        Some(Side::Client) => "> ",
        Some(Side::Meter) => "< ",
        None => "- ",
    }
}

/// The name of a client.
fn client_name(address: Address) -> &'static str {
    let Address::One(sap) = address else {
        return "client";
    };
    match Client::of_sap(sap) {
        Some(Client::Public) => "public client",
        Some(Client::Management) => "management client",
        Some(Client::Reader) => "reader",
        None => "client",
    }
}

/// An end with its address, as `meter (1, 17)`.
fn write_end<A: Allocator>(text: &mut Text<A>, name: &str, address: Address) {
    text.push(name);
    text.push(" (");
    number(text, u64::from(upper(address)));
    match lower(address) {
        Some(lower) => {
            text.push(", ");
            number(text, u64::from(lower));
            text.push(")");
        }
        None => text.push(")"),
    }
}

/// The sender and the receiver of the frame.
fn write_ends<A: Allocator>(text: &mut Text<A>, side: Option<Side>, heading: Heading) {
    let (src, dest) = match side {
        Some(Side::Client) => (client_name(heading.src), "meter"),
        Some(Side::Meter) => ("meter", client_name(heading.dest)),
        None => ("station", "station"),
    };
    write_end(text, src, heading.src);
    text.push(" to ");
    write_end(text, dest, heading.dest);
}

/// A number of the control field.
fn write_sequence<A: Allocator>(text: &mut Text<A>, name: &str, value: u8) {
    text.push(name);
    number(text, u64::from(value));
}

/// The control field by its name, with its numbers.
fn write_control<A: Allocator>(text: &mut Text<A>, control: Control) {
    text.push(name_of(control));
    match control {
        Control::Information { send, receive } => {
            write_sequence(text, ", N(S) ", send);
            write_sequence(text, ", N(R) ", receive);
        }
        Control::Ready { receive } | Control::NotReady { receive } => {
            write_sequence(text, ", N(R) ", receive);
        }
        _ => {}
    }
}

/// The poll bit, which is called the final bit if the meter sends it.
fn poll_words(side: Option<Side>, octet: u8) -> &'static str {
    match (has_poll(octet), side) {
        (false, _) => "",
        (true, Some(Side::Meter)) => ", final",
        (true, _) => ", poll",
    }
}

/// The words of a frame, without the end of their line. The deframer gives frames alone of which each check is right.
pub fn write_frame<A: Allocator>(text: &mut Text<A>, side: Option<Side>, heading: Heading) {
    text.push(sign(side));
    write_ends(text, side, heading);
    text.push(": ");
    write_control(text, read(heading.control));
    text.push(poll_words(side, heading.control));
    text.push_if(heading.segmented, ", segmented");
    text.push("; length ");
    number(text, heading.len as u64);
    text.either(
        heading.has_information,
        "; header and frame check right",
        "; check right",
    );
}

/// The line of a parameter that is there.
fn write_parameter<A: Allocator>(text: &mut Text<A>, name: &str, value: Option<u32>) {
    match value {
        Some(value) => number_line(text, 2, name, u64::from(value), ""),
        None => {}
    }
}

/// The line of a parameter that is not readable, if there is one.
fn write_wrong<A: Allocator>(text: &mut Text<A>, wrong: Option<u8>) {
    match wrong {
        Some(id) => number_line(text, 2, "not readable: parameter ", u64::from(id), ""),
        None => {}
    }
}

/// The line of octets after the parameters, if there are some.
fn write_behind<A: Allocator>(text: &mut Text<A>, count: usize) {
    if count == 0 {
        return;
    }
    number_line(text, 2, "after the parameters: ", count as u64, " octets");
}

/// The lines of a link's parameters.
fn write_parameters<A: Allocator>(text: &mut Text<A>, parameters: Parameters) {
    line(text, 1, "link parameters");
    write_parameter(
        text,
        "maximum information field length, transmit: ",
        parameters.sent,
    );
    write_parameter(
        text,
        "maximum information field length, receive: ",
        parameters.received,
    );
    write_parameter(text, "window size, transmit: ", parameters.window_sent);
    write_parameter(text, "window size, receive: ", parameters.window_received);
    write_wrong(text, parameters.wrong);
    write_behind(text, parameters.behind);
}

/// The lines of the information of an SNRM or a UA; none is what is not readable.
pub fn write_information<A: Allocator>(text: &mut Text<A>, parameters: Option<Parameters>) {
    match parameters {
        Some(parameters) => write_parameters(text, parameters),
        None => line(text, 1, "link parameters: not readable"),
    }
}

/// The words for a check.
fn check_words(right: bool) -> &'static str {
    if right { "right" } else { "wrong" }
}

/// The fault of bytes that have the form of a frame; nothing for others.
fn write_damage<A: Allocator>(text: &mut Text<A>, damage: Option<Damage>) {
    match damage {
        None => {}
        Some(Damage::Check) => text.push(", check wrong"),
        Some(Damage::Form) => {
            text.push(", with a frame's flags and length, but no addresses or checks");
        }
        Some(Damage::Checks { header, frame }) => {
            text.push(", header check ");
            text.push(check_words(header));
            text.push(", frame check ");
            text.push(check_words(frame));
        }
    }
}

/// The line of bytes that are no frame, with their places in the stretch, of which the first is 0.
pub fn write_stray<A: Allocator>(
    text: &mut Text<A>,
    layout: Layout,
    side: Option<Side>,
    place: u64,
    piece: Piece,
) {
    let len = piece.len as u64;
    begin_note(text, layout);
    text.push(sign(side));
    text.push("octets ");
    number(text, place);
    text.push(" to ");
    number(text, place.saturating_add(len.saturating_sub(1)));
    text.push(": no frame");
    write_damage(text, piece.damage);
    end_note(text, layout);
}

/// Shown for information without the LLC.
const NO_LLC: &str = "not readable: no LLC comes before the APDU, at octet 1";

/// The line of information without the LLC.
pub fn write_no_llc<A: Allocator>(text: &mut Text<A>) {
    line(text, 1, NO_LLC);
}

/// The line of the number of segments of an APDU, if there are several.
fn write_segments<A: Allocator>(text: &mut Text<A>, count: u32) {
    if count < 2 {
        return;
    }
    number_line(text, 1, "", u64::from(count), " segments joined");
}

/// The line of a segment that others follow.
fn write_segment<A: Allocator>(text: &mut Text<A>, count: u32) {
    number_line(text, 1, "segment ", u64::from(count), "");
}

/// The line of an information frame's position among those before it; none for an APDU in one frame.
pub fn write_came<A: Allocator>(text: &mut Text<A>, came: Came) {
    match came {
        Came::Again => line(text, 1, "the number of the frame before: not taken again"),
        Came::OutOfTurn | Came::Apart => line(text, 1, "out of turn: not taken"),
        Came::NoPoll => line(text, 1, "no poll bit: not taken"),
        Came::Segment(count) => write_segment(text, count),
        Came::TooLong => line(text, 1, "not readable: the APDU is too long"),
        Came::NoLlc => write_no_llc(text),
        Came::Whole(count) => write_segments(text, count),
    }
}
