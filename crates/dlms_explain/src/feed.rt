//! An input that comes in pieces, explained as it comes: for a caller that cannot be read from, as a web page.

ghost use Rattle.std.specs.Prelude.{◌≡◌, false, OnOk};

use crate::captured::Captured;
use crate::session::{FRONT, Form, ROOM, Session, are_octets};
use crate::words::Text;
use dlms_capture::is_capture;
use dlms_security::Opener;
use std::alloc::{AllocError, Allocator};

/// The kind of an input, and its explanation.
#[derive(Drop)]
enum Source<A: Allocator, O> {
    Lines(Session<A, O>),
    Octets(Session<A, O>),
    Capture(Packets<A, O>),
}

/// A capture, and its explanation.
#[derive(Drop)]
struct Packets<A: Allocator, O> {
    captured: Captured<A, O>,
    text: Text<A>,
}

impl<A: Allocator + Copy, O: Opener> Packets<A, O> {
    /// Takes octets of the capture.
    fn take(&mut self, octets: &[u8]) {
        self.captured.feed(octets, &mut self.text);
    }

    /// The capture is at its end.
    fn end(&mut self) {
        self.captured.end(&mut self.text);
    }
}

/// The words of a text, unless one was refused.
fn words_of<A: Allocator>(text: &Text<A>) -> Result<&str, AllocError>
    ensures { OnOk result (text.now.is_refused ≡ false) }
{
    text.check_memory()?;
    Ok(text.as_str())
}

/// An explanation under way of an input that comes in pieces.
#[derive(Drop)]
pub struct Feed<A: Allocator, O> {
    source: Source<A, O>,
}

impl<A: Allocator + Copy, O: Opener> Feed<A, O> {
    /// Before the first octet of an input that begins with these: the first four tell a capture from octets and lines. No memory is
    /// taken here.
    pub fn new(alloc: A, form: Form, opener: O, front: &[u8]) -> Self {
        let front = front.get(..FRONT).unwrap_or(&[]);
        let source = if is_capture(front) {
            Source::Capture(Packets {
                captured: Captured::new(alloc, form, opener),
                text: Text::new(String::new(alloc)),
            })
        } else if are_octets(front) {
            Source::Octets(Session::new(alloc, form, opener))
        } else {
            Source::Lines(Session::new(alloc, form, opener))
        };
        Feed { source }
    }

    /// Takes octets of the input, and appends the explanation of the lines or frames that are then complete. The text is that of `explain` if each call but
    /// the last has a multiple of 4,096 octets.
    pub fn take(&mut self, octets: &[u8]) {
        match &mut self.source {
            Source::Lines(session) => session.take(octets),
            Source::Octets(session) => {
                for piece in octets.chunks(ROOM) {
                    session.take_octets(piece);
                }
            }
            Source::Capture(packets) => packets.take(octets),
        }
    }

    /// The input is at its end: appends the explanation of its rest.
    pub fn end(&mut self) {
        match &mut self.source {
            Source::Lines(session) => session.end(),
            Source::Octets(session) => session.end(),
            Source::Capture(packets) => packets.end(),
        }
    }

    /// The text since the last `clear`, unless an allocation was refused: then it is not whole.
    pub fn text(&self) -> Result<&str, AllocError> {
        match &self.source {
            Source::Lines(session) => words_of(&session.text),
            Source::Octets(session) => words_of(&session.text),
            Source::Capture(packets) => words_of(&packets.text),
        }
    }

    /// Drops the text, and that an allocation was refused.
    pub fn clear(&mut self) {
        match &mut self.source {
            Source::Lines(session) => session.text.clear(),
            Source::Octets(session) => session.text.clear(),
            Source::Capture(packets) => packets.text.clear(),
        }
    }
}
