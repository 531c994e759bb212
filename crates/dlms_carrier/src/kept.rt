//! The deframer of an HDLC link, kept on the heap.

ghost use Rattle.std.specs.Prelude.{◌≡◌, ◌≤◌, ◌<◌, [], None, length, take, IfNone, IfOk};
ghost use Rattle.dlms_frame.specs.Stream.{Fits, Takes};

use dlms_frame::{Deframer, Frame};
use std::alloc::{AllocError, Allocator};
use std::marker::Model;

/// The deframer of an HDLC link, on the heap: by value it would take 15 KB of every caller's stack. Its calls are those of `Deframer`.
#[derive(Drop)]
pub struct KeptDeframer<A: Allocator> {
    deframer: Box<Deframer, A>,
}

impl<A: Allocator> Model for KeptDeframer<A> {
    ghost use Rattle.dlms_frame.specs.Stream.{Kept};

    ghost Value = { Kept };

    ghost view = { λ kept. kept.deframer.value };
}

impl<A: Allocator> KeptDeframer<A> {
    /// A deframer that has read nothing. It is made in a function of its own, so that no other call has it on the stack.
    #[inline(never)]
    pub fn new(alloc: A) -> Result<Self, AllocError>
        ensures { IfOk result (λ kept. Fits kept.bytes [] 0) }
    {
        let deframer = Box::new(alloc, Deframer::new())?;
        Ok(KeptDeframer { deframer })
    }

    /// Forgets the octets that were read.
    pub fn idle(&mut self)
        ensures bytes { Fits self.new.bytes [] 0 }
        ensures frame { self.new.frame ≡ None }
    {
        self.deframer.idle();
    }

    /// Reads octets up to the end of the first frame that becomes whole, or all of them, and returns their number.
    pub fn feed(&mut self, bytes: &[u8]) -> usize
        ensures len { result ≤ length bytes.now }
        ensures some { 0 < length bytes.now → 0 < result }
        ensures all { IfNone self.new.frame (result ≡ length bytes.now) }
        ensures takes { Takes self.old.bytes (take result bytes.now) self.new.frame self.new.bytes }
    {
        self.deframer.feed(bytes)
    }

    /// The frame that the last call of `feed` ended, if it ended one.
    pub fn frame(&self) -> Option<Frame<'_>>
        ensures { result ≡ self.now.frame }
    {
        self.deframer.frame()
    }
}
