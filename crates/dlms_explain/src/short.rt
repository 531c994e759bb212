//! A frame in one line, or with its octets beside it: made from its full explanation.

ghost use Rattle.std.specs.Prelude.{◌≡◌};

use crate::frame_text::write_frame;
use crate::json::{write_json, write_json_unframed};
use crate::layout::Layout;
use crate::opening::Opening;
use crate::session::Form;
use crate::words::{Text, end, number, octets};
use dlms_dissect::{Control, Heading, Side, lower, name_of, read, upper};
use dlms_frame::Address;
use dlms_security::Opener;
use std::alloc::Allocator;

/// How wide the column of the two ends is, and that of the service.
const ENDS: usize = 14;

const SERVICE: usize = 36;

/// How an explanation is written, and the state for that.
#[derive(Drop)]
pub struct View<A: Allocator, O> {
    pub form: Form,
    /// The time of the octets that come, as their log or capture has it.
    pub stamp: String<A>,
    /// The full explanation of a frame.
    pub full: Text<A>,
    /// What opens ciphered APDUs.
    pub opening: Opening<A, O>,
    /// Whether a frame of a meter came.
    pub has_answers: bool,
}

impl<A: Allocator + Copy, O: Opener> View<A, O> {
    /// Before the first frame. No memory is taken here.
    pub fn new(alloc: A, form: Form, opener: O) -> Self
        ensures { result.form ≡ form }
    {
        let mut full = Text::flat_if(form.layout.is_one_line(), String::new(alloc));
        full.has_parts = !matches!(form.layout, Layout::Short);
        full.is_json = form.layout.is_json();
        View {
            form,
            stamp: String::new(alloc),
            full,
            opening: Opening::new(opener, form.hex),
            has_answers: false,
        }
    }

    /// The time of the octets that come is this.
    pub fn stamp_with(&mut self, words: &str, text: &mut Text<A>) {
        self.stamp.clear();
        if self.stamp.push_str(words).is_err() {
            text.refuse();
        }
    }
}

/// Blanks as many as the widest column has.
const BLANKS: &str = "                                    ";

/// Blanks up to the end of a column of this width that began at this place, one at least.
fn fill<A: Allocator>(text: &mut Text<A>, from: usize, width: usize) {
    let len = text.len().saturating_sub(from);
    text.push(BLANKS.get(..width.saturating_sub(len)).unwrap_or(BLANKS));
    text.push(" ");
}

/// An address by its numbers, as `1,17`.
fn write_address<A: Allocator>(text: &mut Text<A>, address: Address) {
    number(text, u64::from(upper(address)));
    if let Some(lower) = lower(address) {
        text.push(",");
        number(text, u64::from(lower));
    }
}

/// The sign between the client and the meter.
fn direction(side: Option<Side>) -> &'static str {
    match side {
        Some(Side::Client) => " > ",
        Some(Side::Meter) => " < ",
        None => " - ",
    }
}

/// The column of the two ends, the client's first: `16 > 1` is to the meter, `16 < 1` from it.
fn write_ends<A: Allocator>(text: &mut Text<A>, side: Option<Side>, heading: Heading) {
    let from = text.len();
    let (client, meter) = match side {
        Some(Side::Meter) => (heading.dest, heading.src),
        _ => (heading.src, heading.dest),
    };
    write_address(text, client);
    text.push(direction(side));
    write_address(text, meter);
    fill(text, from, ENDS);
}

/// The name of a control field, with the number that a ready end awaits.
fn write_control<A: Allocator>(text: &mut Text<A>, control: Control) {
    text.push(name_of(control));
    match control {
        Control::Ready { receive } | Control::NotReady { receive } => {
            text.push(" ");
            number(text, u64::from(receive));
        }
        _ => {}
    }
}

/// The words of a line up to the part that the column of the service leaves out.
pub fn service(line: &str) -> &str {
    match line.split_once(',') {
        Some((name, rest)) if rest.starts_with(" invoke-id") => name,
        _ => line,
    }
}

/// The time of an explanation in one line.
fn write_front<A: Allocator, O>(text: &mut Text<A>, view: &View<A, O>) {
    if view.stamp.is_empty() {
        return;
    }
    text.push(view.stamp.as_str());
    text.push(" ");
}

/// The number of blanks in front of the deepest lines, but for those of a measure.
const DEEPEST: usize = 4;

/// Whether the words of a line in full, after this many blanks, are left out: parts of a value but its number with its scaler and its
/// unit, or these alone; how many segments an APDU came in; and which services the ends have.
fn is_left_out(words: &str, blanks: usize) -> bool {
    match words.as_bytes() {
        [b'=', ..] => false,
        [b't', ..] if blanks > DEEPEST => !words.starts_with("times 10^"),
        _ if blanks > DEEPEST => true,
        [b'c', ..] => words.starts_with("conformance: "),
        [.., b'd'] => words.ends_with(" segments joined"),
        _ => false,
    }
}

/// The first line, and the lines after it.
fn next_line(lines: &str) -> (&str, &str) {
    let len = lines
        .as_bytes()
        .iter()
        .position(|octet| *octet == b'\n')
        .unwrap_or(lines.len());
    let behind = lines.get(len.saturating_add(1)..).unwrap_or("");
    (lines.get(..len).unwrap_or(""), behind)
}

/// The number of blanks at the front of a line.
fn blanks_len(line: &str) -> usize {
    line.as_bytes()
        .iter()
        .position(|octet| *octet != b' ')
        .unwrap_or(line.len())
}

/// The service and the lines below it in full, except for the parts of a value; of a ciphered APDU that was opened those of the APDU
/// in it, and what authenticates it; of the last block of an APDU those of the APDU.
fn write_rest<A: Allocator>(text: &mut Text<A>, full: &Text<A>) {
    let (outside, opened) = full.parts();
    let joined = full.joined_in(outside);
    match (opened, joined) {
        (Some((verdict, inside)), _) if !verdict.is_part && verdict.is_authenticated.is_some() => {
            write_lines(text, inside);
            text.push("; ");
            text.push(verdict.words);
        }
        (None, Some((_, _, lines))) => write_lines(text, lines),
        _ => write_lines(text, full.as_str()),
    }
    text.push_if(joined.is_some(), "; all blocks joined");
}

/// The first line and those below it, except for the parts of a value.
fn write_lines<A: Allocator>(text: &mut Text<A>, full: &str) {
    let from = text.len();
    let mut count: u64 = 0;
    let mut rest = full;
    for _ in 0..full.len() {
        if rest.is_empty() {
            break;
        }
        let (line, behind) = next_line(rest);
        rest = behind;
        let blanks = blanks_len(line);
        let words = line.get(blanks..).unwrap_or("");
        if is_left_out(words, blanks) {
            continue;
        }
        match count {
            0 => text.push(service(words)),
            1 => {
                fill(text, from, SERVICE);
                text.push(words);
            }
            _ => {
                text.either(words.as_bytes().first() == Some(&b'='), " ", "; ");
                text.push(words);
            }
        }
        count = count.saturating_add(1);
    }
}

/// Octets shown beside; two points mark a part of them.
#[derive(Clone, Copy)]
pub struct Beside<'a> {
    pub octets: &'a [u8],
    pub is_whole: bool,
}

/// The octets beside it, if there are some.
pub fn write_beside<A: Allocator>(text: &mut Text<A>, beside: Beside<'_>) {
    if beside.octets.is_empty() {
        return;
    }
    text.push(" | ");
    octets(text, beside.octets);
    text.push_if(!beside.is_whole, " ..");
}

/// Whether a frame with this control field has content to explain below it.
pub fn has_service(control: Control) -> bool {
    matches!(control, Control::Information { .. } | Control::Ui)
}

/// The line of a frame: the time, the ends, and the service with the lines below it in full, or the control field.
fn write_short<A: Allocator, O>(
    text: &mut Text<A>,
    view: &View<A, O>,
    side: Option<Side>,
    heading: Heading,
    beside: Beside<'_>,
) {
    write_front(text, view);
    write_ends(text, side, heading);
    let control = read(heading.control);
    if has_service(control) {
        write_rest(text, &view.full);
    } else {
        write_control(text, control);
    }
    write_beside(text, beside);
    end(text);
}

/// The explanation of a frame, put together in the requested form.
pub fn write_view<A: Allocator, O>(
    text: &mut Text<A>,
    view: &View<A, O>,
    side: Option<Side>,
    heading: Heading,
    beside: Beside<'_>,
) {
    match view.form.layout {
        Layout::Json => write_json(text, view, side, heading, beside.octets),
        Layout::Short => write_short(text, view, side, heading, beside),
        Layout::Full => {
            write_frame(text, side, heading);
            write_beside(text, beside);
            end(text);
            text.push(view.full.as_str());
        }
    }
}

/// The line of an APDU in no frame: the time, the client's port and the meter's if it is in the wrapper, and the service.
pub fn write_unframed<A: Allocator, O>(
    text: &mut Text<A>,
    view: &View<A, O>,
    side: Option<Side>,
    ports: Option<(u16, u16)>,
    beside: Beside<'_>,
) {
    if view.form.layout.is_json() {
        write_json_unframed(text, view, side, ports, beside.octets);
        return;
    }
    write_front(text, view);
    let from = text.len();
    match ports {
        Some((client, meter)) => {
            number(text, u64::from(client));
            text.push(direction(side));
            number(text, u64::from(meter));
        }
        None => {
            text.push("APDU");
            text.push(direction(side));
        }
    }
    fill(text, from, ENDS);
    write_rest(text, &view.full);
    write_beside(text, beside);
    end(text);
}
