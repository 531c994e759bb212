//! The bytes that come from one end, and the frames among them.

ghost use Rattle.std.specs.Prelude.{◌≡◌, ◌<◌, ◌≤◌, ◌-◌, ◌++◌, [], length, min, take, drop, nat_lt, option_map, if◌then◌else◌, IfNone, IfOk, IfSome, IsErr, OnErr};
ghost use Rattle.dlms_frame.specs.Frame.{frame_len};
ghost use Rattle.dlms_frame.specs.Stream.{Fits, Takes};
ghost use Rattle.dlms_dissect.specs.Stretch.{place_behind};

use dlms_frame::{Deframer, Frame};
use std::alloc::{AllocError, Allocator};

/// The most bytes that a frame has with its flags; older ones belong to none that is still to come.
const MOST_FRAME: usize = 2049;

/// The number of bytes that are kept before the oldest are reported as no frame.
const MOST_KEPT: usize = 4096;

/// A frame, and the number of kept bytes before it.
#[derive(Drop)]
pub struct Found<'a> {
    pub frame: Frame<'a>,
    pub before: usize,
}

/// A stretch: its deframer, and the bytes since the last frame, whose closing flag is the first of them.
#[derive(Drop)]
pub struct Stretch<A: Allocator> {
    deframer: Deframer,
    kept: Vec<u8, A>,
    place: u64,
    told: usize,
}

impl<A: Allocator> Stretch<A> {
    /// At the start of a stretch.
    pub fn new(alloc: A) -> Self
        ensures fits { Fits result.deframer.bytes [] 0 }
        ensures kept { result.kept.items ≡ [] }
        ensures place { result.place ≡ 0 }
        ensures told { result.told ≡ 0 }
    {
        Stretch {
            deframer: Deframer::new(),
            kept: Vec::new(alloc),
            place: 0,
            told: 0,
        }
    }

    /// A new stretch begins.
    pub fn reset(&mut self)
        ensures fits { Fits self.new.deframer.bytes [] 0 }
        ensures kept { self.new.kept.items ≡ [] }
        ensures place { self.new.place ≡ 0 }
        ensures told { self.new.told ≡ 0 }
    {
        self.deframer.idle();
        self.kept.clear();
        self.place = 0;
        self.told = 0;
    }

    /// Takes bytes up to the closing flag of the next frame, or all of them, and returns how many. Memory is needed only if there
    /// are bytes; if it is refused none of them is kept.
    pub fn feed(&mut self, bytes: &[u8]) -> Result<usize, AllocError>
        ensures some { IfOk result (λ fed. 0 < length bytes.now → 0 < fed) }
        ensures within { IfOk result (λ fed. fed ≤ length bytes.now) }
        // The frame is the next one of the stretch.
        ensures takes { IfOk result (λ fed. Takes self.old.deframer.bytes
            (take fed bytes.now) self.new.deframer.frame self.new.deframer.bytes) }
        ensures all { IfOk result (λ fed. IfNone self.new.deframer.frame (fed ≡ length bytes.now)) }
        ensures kept { IfOk result (λ fed. self.new.kept.items ≡ self.old.kept.items
            ++ take fed bytes.now) }
        ensures err { OnErr result (self.new.kept.items ≡ self.old.kept.items) }
        ensures memory { IsErr result → 0 < length bytes.now }
        ensures place { self.new.place ≡ self.old.place }
        ensures told { self.new.told ≡ self.old.told }
    {
        let taken = self.deframer.feed(bytes);
        self.kept.extend_from_slice(&bytes[..taken])?;
        Ok(taken)
    }

    /// The frame that the last call of `feed` ended, if it ended one.
    pub fn found(&self) -> Option<Found<'_>>
        ensures frame { option_map (λ found. found.frame) result ≡ self.now.deframer.frame }
        // A frame has its two flags besides.
        ensures before { IfSome result
            (λ found. found.before ≡ length self.now.kept.items - frame_len found.frame - 2) }
    {
        let frame = self.deframer.frame()?;
        let before = self
            .kept
            .len()
            .saturating_sub(frame.len())
            .saturating_sub(2);
        Some(Found { frame, before })
    }

    /// The kept bytes before this many that were not reported yet, and the place in the stretch where they begin.
    pub fn stray(&self, before: usize) -> (u64, &[u8])
        ensures place { result.0 ≡ place_behind self.now.place
            (min self.now.told (min before (length self.now.kept.items))) }
        ensures bytes { result.1.now ≡ drop self.now.told (take before self.now.kept.items) }
    {
        let before = before.min(self.kept.len());
        let told = self.told.min(before);
        (
            self.place.saturating_add(told as u64),
            &self.kept[told..before],
        )
    }

    /// The kept bytes after this many.
    pub fn behind(&self, before: usize) -> &[u8]
        ensures { result.now ≡ drop before self.now.kept.items }
    {
        &self.kept[before.min(self.kept.len())..]
    }

    /// How many of the kept bytes are too old to belong to a frame that is still to come.
    pub fn old(&self) -> usize
        ensures { result ≡ (if nat_lt MOST_KEPT (length self.now.kept.items)
            then length self.now.kept.items - MOST_FRAME else 0) }
    {
        if self.kept.len() > MOST_KEPT {
            self.kept.len() - MOST_FRAME
        } else {
            0
        }
    }

    /// How many bytes are kept.
    pub fn len(&self) -> usize
        ensures { result ≡ length self.now.kept.items }
    {
        self.kept.len()
    }

    /// Drops the first bytes, which were reported.
    pub fn drop_front(&mut self, count: usize)
        ensures deframer { self.new.deframer ≡ self.old.deframer }
        ensures kept { self.new.kept.items ≡ drop count self.old.kept.items }
        ensures place { self.new.place ≡ place_behind self.old.place
            (min count (length self.old.kept.items)) }
        ensures told { self.new.told ≡ self.old.told - min count (length self.old.kept.items) }
    {
        let count = count.min(self.kept.len());
        let left = self.kept.len() - count;
        self.kept.copy_within(count.., 0);
        self.kept.truncate(left);
        self.place = self.place.saturating_add(count as u64);
        self.told = self.told.saturating_sub(count);
    }

    /// Drops all bytes except the closing flag of a frame that was reported.
    pub fn pass_frame(&mut self)
        ensures deframer { self.new.deframer ≡ self.old.deframer }
        ensures kept { self.new.kept.items ≡ drop
            (length self.old.kept.items - 1) self.old.kept.items }
        ensures place { self.new.place ≡ place_behind self.old.place
            (length self.old.kept.items - 1) }
        ensures told { self.new.told ≡ 1 }
    {
        let len = self.kept.len();
        self.drop_front(len.saturating_sub(1));
        self.told = 1;
    }
}
