//! The lines of an input, explained as they come.

ghost use Rattle.std.specs.Prelude.{◌≡◌, ◌≤◌, ◌↔◌, true, false, length, IfOk, OnOk};

use crate::captured::Captured;
use crate::explainer::Explainer;
use crate::fault::ExplainFault;
use crate::json::write_note;
use crate::layout::Layout;
use crate::words::Text;
use dlms_capture::is_capture;
use dlms_security::{NoKeys, Opener};
use std::alloc::Allocator;
use std::io::{ErrorKind, Read, Write};

/// The most octets of a line that is read; a longer one is only reported to be too long.
pub const MOST_LINE: usize = 65_536;

/// How many octets are read at once.
pub const ROOM: usize = 4096;

/// The number of octets by which a capture is distinguished from lines.
pub const FRONT: usize = 4;

/// The octet that begins the sequences of a terminal (ECMA-48, ESC), as logs have them too.
const ESCAPE: u8 = 0x1b;

/// Whether an input is octets and no lines: its first ones begin a frame or an association's APDU, or one of them is in no text.
pub fn are_octets(front: &[u8]) -> bool {
    matches!(
        front,
        [0x7e, 0xa0..=0xaf, ..] | [0x60..=0x63, _, 0x80..=0xff, ..]
    ) || front.iter().any(|octet| *octet < b' ' && !octet.is_ascii_whitespace() && *octet != ESCAPE)
}

/// Shown for a line that is too long.
const TOO_LONG: &str = "(a line of more than 65536 octets)";

/// Writes text, which is dropped; if an allocation was refused nothing of it.
fn write_text<A: Allocator, W: Write>(
    text: &mut Text<A>,
    output: &mut W,
) -> Result<(), ExplainFault>
    ensures { OnOk result (text.old.is_refused ≡ false) }
{
    text.check_memory()?;
    let written = output.write_all(text.as_str().as_bytes());
    text.clear();
    written.map_err(|_| ExplainFault::Output)
}

/// How an explanation is written.
#[derive(Clone, Copy)]
pub struct Form {
    /// How a frame is laid out.
    pub layout: Layout,
    /// Strings that may be a secret are shown as they are; of a known secret nothing is shown.
    pub raw: bool,
    /// A frame's octets are shown beside it, up to the first that is reported by its length or not at all.
    pub hex: bool,
}

impl Form {
    /// In lines, and without strings that may be a secret.
    pub fn full() -> Form
        ensures { result ≡ record { layout = Layout.Full; raw = false; hex = false } }
    {
        Form {
            layout: Layout::Full,
            raw: false,
            hex: false,
        }
    }

    /// Whether the explanation of a frame is written at once, and not put together afterwards.
    pub fn is_at_once(self) -> bool
        ensures { (result ≡ true) ↔ ((self.layout ≡ Layout.Full) × (self.hex ≡ false)) }
    {
        !self.layout.is_one_line() && !self.hex
    }
}

/// An explanation under way: the line that comes, and the text that is not written yet.
#[derive(Drop)]
pub struct Session<A: Allocator, O> {
    explainer: Explainer<A, O>,
    layout: Layout,
    line: Vec<u8, A>,
    is_long: bool,
    pub text: Text<A>,
}

impl<A: Allocator + Copy, O: Opener> Session<A, O> {
    /// Before the first octet. No memory is taken here.
    pub fn new(alloc: A, form: Form, opener: O) -> Self {
        Session {
            explainer: Explainer::with_opener(alloc, form, opener),
            layout: form.layout,
            line: Vec::new(alloc),
            is_long: false,
            text: Text::new(String::new(alloc)),
        }
    }

    /// Octets of a line. Nothing is kept of a line that is too long.
    fn keep(&mut self, octets: &[u8]) {
        if self.is_long {
            return;
        }
        if octets.len() > MOST_LINE.saturating_sub(self.line.len()) {
            self.is_long = true;
            self.line.clear();
            return;
        }
        if self.line.extend_from_slice(octets).is_err() {
            self.text.refuse();
        }
    }

    /// A line is complete: explains it.
    fn tell_line(&mut self) {
        if self.is_long {
            write_note(&mut self.text, self.layout, TOO_LONG);
        } else {
            self.explainer.tell(self.line.as_slice(), &mut self.text);
        }
        self.line.clear();
        self.is_long = false;
    }

    /// Takes octets of the input, and appends the explanation of the lines that are then complete.
    pub fn take(&mut self, octets: &[u8]) {
        let mut rest = octets;
        for _ in 0..octets.len() {
            let Some(at) = rest.iter().position(|octet| *octet == b'\n') else {
                break;
            };
            let (Some(line), Some(behind)) = (rest.get(..at), rest.get(at..)) else {
                break;
            };
            self.keep(line);
            self.tell_line();
            rest = behind.get(1..).unwrap_or(&[]);
        }
        self.keep(rest);
    }

    /// Takes octets that are in no lines.
    pub fn take_octets(&mut self, octets: &[u8]) {
        self.explainer.take_line(None, octets, &mut self.text);
    }

    /// The input is at its end, perhaps within a line.
    pub fn end(&mut self) {
        if self.is_long || !self.line.is_empty() {
            self.tell_line();
        }
        self.explainer.close(&mut self.text);
    }
}

/// Reads octets of the input, none at its end. A call that a signal interrupts is made again.
fn read_some<R: Read>(input: &mut R, room: &mut [u8]) -> Result<usize, ExplainFault>
    ensures { IfOk result (λ count. count ≤ length room.new) }
{
    for _ in 0..u64::MAX {
        match input.read(room) {
            Ok(count) => return Ok(count),
            Err(error) if error.kind() == ErrorKind::Interrupted => {}
            Err(_) => return Err(ExplainFault::Input),
        }
    }
    Err(ExplainFault::Input)
}

/// Reads the first octets of the input, as many as tell a capture from lines, if it has them.
fn read_front<R: Read>(input: &mut R, room: &mut [u8; ROOM]) -> Result<usize, ExplainFault>
    ensures { IfOk result (λ count. count ≤ length room.new) }
{
    let mut count = 0;
    for _ in 0..FRONT {
        if count >= FRONT {
            return Ok(count);
        }
        let fresh = read_some(input, &mut room[count..])?;
        if fresh == 0 {
            return Ok(count);
        }
        count += fresh;
    }
    Ok(count)
}

/// Explains a capture, whose first octets are these, into a text that is written as it grows.
fn tell_capture<A: Allocator + Copy, O: Opener, R: Read, W: Write>(
    captured: &mut Captured<A, O>,
    text: &mut Text<A>,
    front: &[u8],
    input: &mut R,
    output: &mut W,
) -> Result<(), ExplainFault> {
    captured.feed(front, text);
    let mut room = [0u8; ROOM];
    for _ in 0..u64::MAX {
        write_text(text, output)?;
        let count = read_some(input, &mut room)?;
        if count == 0 {
            break;
        }
        captured.feed(&room[..count], text);
    }
    captured.end(text);
    write_text(text, output)
}

/// Explains a capture, whose first octets are these.
#[inline(never)]
fn explain_capture<A: Allocator + Copy, O: Opener, R: Read, W: Write>(
    alloc: A,
    form: Form,
    opener: O,
    front: &[u8],
    input: &mut R,
    output: &mut W,
) -> Result<(), ExplainFault> {
    let mut captured = Captured::new(alloc, form, opener);
    let mut text = Text::new(String::new(alloc));
    tell_capture(&mut captured, &mut text, front, input, output)
}

/// Explains lines, whose first octets are already in the buffer.
fn tell_lines<A: Allocator + Copy, O: Opener, R: Read, W: Write>(
    session: &mut Session<A, O>,
    room: &mut [u8; ROOM],
    front: usize,
    input: &mut R,
    output: &mut W,
) -> Result<(), ExplainFault>
    requires { front ≤ length room.old }
{
    session.take(&room[..front]);
    for _ in 0..u64::MAX {
        write_text(&mut session.text, output)?;
        if front < FRONT {
            break;
        }
        let count = read_some(input, room)?;
        if count == 0 {
            break;
        }
        session.take(&room[..count]);
    }
    session.end();
    write_text(&mut session.text, output)
}

/// Explains octets that are in no lines, of which the first ones are already in the buffer.
fn tell_octets<A: Allocator + Copy, O: Opener, R: Read, W: Write>(
    session: &mut Session<A, O>,
    room: &mut [u8; ROOM],
    front: usize,
    input: &mut R,
    output: &mut W,
) -> Result<(), ExplainFault>
    requires { front ≤ length room.old }
{
    let mut count = read_some(input, &mut room[front..])?.saturating_add(front);
    for _ in 0..u64::MAX {
        let octets = room.get(..count).unwrap_or(&[]);
        session.take_octets(octets);
        write_text(&mut session.text, output)?;
        count = read_some(input, room)?;
        if count == 0 {
            break;
        }
    }
    session.end();
    write_text(&mut session.text, output)
}

/// Explains lines or octets, of which the first ones are already in the buffer.
#[inline(never)]
fn explain_lines<A: Allocator + Copy, O: Opener, R: Read, W: Write>(
    alloc: A,
    form: Form,
    opener: O,
    room: &mut [u8; ROOM],
    front: usize,
    input: &mut R,
    output: &mut W,
) -> Result<(), ExplainFault>
    requires { front ≤ length room.old }
{
    let mut session = Session::new(alloc, form, opener);
    if are_octets(room[..front].get(..FRONT).unwrap_or(&[])) {
        return tell_octets(&mut session, room, front, input, output);
    }
    tell_lines(&mut session, room, front, input, output)
}

/// Explains the input: a capture of a network's traffic (pcap or pcapng, by its first octets), octets as they are (by these too), or
/// lines, those of a transcript or of another log, or pairs of hexadecimal digits. The explanation of a line is written before more input is read than the piece
/// that contains its end, and at the end of the input that of its rest. A line may have any length: one of more than 65,536 octets
/// is only reported to be too long.
///
/// The caller may give any two streams; the input is read by 4,096 octets. Where memory is refused, or the input or the output
/// fails, what was written before stays.
pub fn explain<A: Allocator + Copy, R: Read, W: Write>(
    alloc: A,
    form: Form,
    input: &mut R,
    output: &mut W,
) -> Result<(), ExplainFault> {
    explain_with(alloc, form, NoKeys, input, output)
}

/// The same, with what opens ciphered APDUs: below the lines of each a line says whether it was opened, and then the APDU in it is
/// explained.
pub fn explain_with<A: Allocator + Copy, O: Opener, R: Read, W: Write>(
    alloc: A,
    form: Form,
    opener: O,
    input: &mut R,
    output: &mut W,
) -> Result<(), ExplainFault> {
    let mut room = [0u8; ROOM];
    let front = read_front(input, &mut room)?;
    if is_capture(&room[..front]) {
        return explain_capture(alloc, form, opener, &room[..front], input, output);
    }
    explain_lines(alloc, form, opener, &mut room, front, input, output)
}
