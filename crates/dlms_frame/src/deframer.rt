//! Frames of a stream that comes in pieces.
ghost use Rattle.std.specs.Prelude.{◌≡◌, ◌≢◌, ◌+◌, ◌-◌, ◌<◌, ◌≤◌, List, ℕ, [], ◌∷◌, ◌++◌, length, take, drop, IsTrue, IfSome, IfNone, IsSome, None, is_some};
ghost use Rattle.dlms_frame.specs.Frame.{Parts};
ghost use Rattle.dlms_frame.specs.Stream.{IsOver, Keeps, Fits, Takes};

use crate::frame::{Address, Frame};
use crate::reading::FLAG;
use crate::window::Window;
use std::marker::Model;

/// Drops the first byte if there are more bytes than a frame can have: a frame that begins there has ended.
fn shrink(window: &mut Window)
    requires { length window.old ≤ 2049 }
    ensures keeps { Keeps window.old window.new }
    ensures len { length window.new ≤ 2048 }
{
    if window.len() > 2048 {
        window.drop_front();
    }
}

/// The part of a frame before its information, and the length of the information, which ends three bytes before the end of the
/// window.
#[derive(Clone, Copy)]
struct Found {
    segmented: bool,
    dest: Address,
    src: Address,
    control: u8,
    count: usize,
}

/// Finds the frames of a stream that comes in pieces.
///
/// Looks for frames in at most the last 2,048 bytes, and keeps a table of the ends of the frames that open in them, so that the
/// work per byte is bounded for every input. It takes about 15 KB on the stack. The frame that a call ended stays in it until the
/// next call, and is borrowed from it.
#[derive(Drop)]
pub struct Deframer {
    window: Window,
    found: Option<Found>,
}

impl Model for Deframer {
    ghost use Rattle.dlms_frame.specs.Stream.{Kept};

    ghost Value = { Kept };

    ghost use Rattle.dlms_frame.specs.Deframing.{kept_of, IsInOrder};

    ghost view = { kept_of };

    ghost invariant = { IsInOrder };
}

impl Deframer {
    /// At the start of a stretch.
    pub fn new() -> Self
        ensures { Fits result.bytes [] 0 }
    {
        Deframer {
            window: Window::new(),
            found: None,
        }
    }

    /// Silence on the line: every kept byte is forgotten, and a new stretch begins.
    pub fn idle(&mut self)
        ensures bytes { Fits self.new.bytes [] 0 }
        ensures frame { self.new.frame ≡ None }
    {
        self.window.clear();
        self.found = None;
    }

    /// Lets go of the frame that the last call ended.
    fn pass(&mut self)
        ensures bytes { self.new.bytes ≡ self.old.bytes }
        ensures frame { self.new.frame ≡ None }
    {
        if self.found.is_some() {
            self.window.keep_last();
            self.found = None;
        }
    }

    /// Keeps a byte that closes no frame.
    fn keep(&mut self, byte: u8)
        requires other { byte ≢ FLAG }
        requires none { self.old.frame ≡ None }
        ensures takes { Takes self.old.bytes (byte ∷ []) None self.new.bytes }
        ensures frame { self.new.frame ≡ None }
    {
        self.window.push(byte);
        shrink(&mut self.window);
    }

    /// Keeps a byte, and says whether it closes a frame.
    fn close(&mut self, byte: u8) -> bool
        requires { self.old.frame ≡ None }
        ensures takes { Takes self.old.bytes (byte ∷ []) self.new.frame self.new.bytes }
        ensures closes { result ≡ is_some self.new.frame }
    {
        self.window.push(byte);
        if let Some(frame) = self.window.last_frame() {
            let found = Found {
                segmented: frame.segmented,
                dest: frame.dest,
                src: frame.src,
                control: frame.control,
                count: frame.info.len(),
            };
            self.found = Some(found);
            return true;
        }
        shrink(&mut self.window);
        false
    }

    /// Takes bytes up to and including the closing flag of the first frame that becomes whole, or all of them, and says how many.
    /// Of several frames that one flag closes it is the one that begins earliest, and the search for the next begins at that
    /// closing flag.
    pub fn feed(&mut self, bytes: &[u8]) -> usize
        ensures len { result ≤ length bytes.now }
        ensures some { 0 < length bytes.now → 0 < result }
        ensures all { IfNone self.new.frame (result ≡ length bytes.now) }
        ensures takes { Takes self.old.bytes (take result bytes.now) self.new.frame self.new.bytes }
    {
        self.pass();
        for (i, byte) in bytes.iter().enumerate() {
            if *byte != FLAG {
                self.keep(*byte);
            } else if self.close(*byte) {
                return i + 1;
            }
        }
        bytes.len()
    }

    /// The frame that the last call of `feed` ended, if it ended one.
    pub fn frame(&self) -> Option<Frame<'_>>
        ensures { result ≡ self.now.frame }
    {
        let found = self.found?;
        let bytes = self.window.as_slice();
        let end = bytes.len() - 3;
        Some(Frame {
            segmented: found.segmented,
            dest: found.dest,
            src: found.src,
            control: found.control,
            info: &bytes[end - found.count..end],
        })
    }
}
