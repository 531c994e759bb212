//! The bytes at the end of a stretch in which frames are looked for.
ghost use Rattle.std.specs.Prelude.{◌≡◌, ◌+◌, ◌-◌, ◌<◌, ◌≤◌, List, ℕ, [], ◌∷◌, ◌++◌, length, drop, IfSome, IfNone};
ghost use Rattle.dlms_frame.specs.Frame.{Parts, FrameSpelling};
ghost use Rattle.dlms_frame.specs.Stream.{IsLongest};

use crate::buffer::{Buffer, ROOM};
use crate::frame::Frame;
use std::marker::Model;

/// The latest bytes. What is dropped in front goes only once the buffer is used up.
#[derive(Drop)]
pub(crate) struct Window {
    buffer: Buffer,
    from: usize,
}

impl Model for Window {
    ghost Value = { List ℕ };

    ghost view = { λ w. drop w.from w.buffer };

    ghost invariant = { λ w. w.from ≤ length w.buffer };
}

impl Window {
    /// No bytes.
    pub(crate) fn new() -> Self
        ensures { result ≡ [] }
    {
        Window {
            buffer: Buffer::new(),
            from: 0,
        }
    }

    /// How many bytes there are.
    pub(crate) fn len(&self) -> usize
        ensures { result ≡ length self.now }
    {
        self.buffer.len() - self.from
    }

    /// The bytes.
    pub(crate) fn as_slice(&self) -> &[u8]
        ensures value { result.now ≡ self.now }
        ensures fits { length result.now ≤ 3072 }
    {
        &self.buffer.as_slice()[self.from..]
    }

    /// Appends a byte.
    pub(crate) fn push(&mut self, byte: u8)
        requires { length self.old < 3072 }
        ensures { self.new ≡ self.old ++ byte ∷ [] }
    {
        if self.buffer.len() == ROOM {
            self.buffer.keep_from(self.from);
            self.from = 0;
        }
        self.buffer.push(byte);
    }

    /// The longest frame at the end of the bytes.
    pub(crate) fn last_frame(&self) -> Option<Frame<'_>>
        ensures found { IfSome result (λ f. (k : ℕ) × IsLongest self.now k f) }
        ensures none { IfNone result ((k : ℕ) (f : Parts) → FrameSpelling (drop k self.now) f → ⊥) }
    {
        self.buffer.last_frame(self.from)
    }

    /// Drops the first byte.
    pub(crate) fn drop_front(&mut self)
        requires { 0 < length self.old }
        ensures { self.new ≡ drop 1 self.old }
    {
        let _len = self.buffer.len();
        self.from += 1;
    }

    /// Drops all bytes but the last.
    pub(crate) fn keep_last(&mut self)
        requires { 0 < length self.old }
        ensures { self.new ≡ drop (length self.old - 1) self.old }
    {
        self.from = self.buffer.len() - 1;
    }

    /// Drops all bytes.
    pub(crate) fn clear(&mut self)
        ensures { self.new ≡ [] }
    {
        self.from = self.buffer.len();
    }
}
