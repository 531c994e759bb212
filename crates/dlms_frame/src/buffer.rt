//! A buffer with the ends of the frames that open in it.
ghost use Rattle.std.specs.Prelude.{◌≡◌, ◌+◌, ◌-◌, ◌<◌, ◌≤◌, List, ℕ, [], ◌∷◌, ◌++◌, length, take, drop, IfSome, IfNone};
ghost use Rattle.dlms_frame.specs.Frame.{Parts, FrameSpelling};
ghost use Rattle.dlms_frame.specs.Stream.{IsLongest};
ghost use Rattle.dlms_frame.specs.Index.{IsIndex, end_of};

use crate::frame::Frame;
use crate::reading::{FLAG, FORMAT, read};
use std::marker::Model;

pub(crate) const ROOM: usize = 3072;

/// By the place of a closing flag the last place of an opening one, and from each opening flag the one before it
/// that has the same end: one more than the place, or 0.
#[derive(Drop)]
struct Index {
    heads: [u16; ROOM],
    links: [u16; ROOM],
}

/// The place of the closing flag of a frame that opens at `start`; 0 if none can open there.
fn end_at(bytes: &[u8; ROOM], start: usize) -> usize
    requires { start + 2 < 3072 }
    ensures { result ≡ end_of bytes.now start }
{
    let high = usize::from(bytes[start + 1]);
    if bytes[start] == FLAG && high / 16 == FORMAT {
        start + 1 + (high % 8 * 256 + usize::from(bytes[start + 2]))
    } else {
        0
    }
}

/// Notes one more place.
fn note(index: &mut Index, bytes: &[u8; ROOM], start: usize)
    requires within { start + 2 < 3072 }
    requires noted { IsIndex bytes.now index.old.heads index.old.links start }
    ensures { IsIndex bytes.now index.new.heads index.new.links (start + 1) }
{
    let end = end_at(bytes, start);
    if 0 < end && end < ROOM {
        index.links[start] = index.heads[end];
        index.heads[end] = start as u16 + 1;
    }
}

/// Notes the first places, and no others.
fn note_all(index: &mut Index, bytes: &[u8; ROOM], count: usize)
    requires { count + 2 ≤ 3072 }
    ensures { IsIndex bytes.now index.new.heads index.new.links count }
{
    index.heads.fill(0);
    for start in 0..count {
        note(index, bytes, start);
    }
}

/// The longest frame at the end of the bytes up to `to`, that begins at `from` or later.
fn longest<'a>(bytes: &'a [u8; ROOM], index: &Index, from: usize, to: usize) -> Option<Frame<'a>>
    requires order { from ≤ to }
    requires within { to ≤ 3072 }
    requires noted { IsIndex bytes.now index.now.heads index.now.links (to - 2) }
    ensures found { IfSome result (λ f. (k : ℕ) × IsLongest (drop from (take to bytes.now)) k f) }
    ensures none { IfNone result ((k : ℕ) (f : Parts)
        → FrameSpelling (drop k (drop from (take to bytes.now))) f → ⊥) }
{
    if to < 2 || bytes[to - 1] != FLAG {
        return None;
    }
    let mut best = None;
    let mut place = usize::from(index.heads[to - 1]);
    while from < place {
        let start = place - 1;
        if let Some(frame) = read(&bytes[start..to]) {
            best = Some(frame);
        }
        place = usize::from(index.links[start]);
    }
    best
}

/// Bytes, up to `ROOM` of them.
#[derive(Drop)]
pub(crate) struct Buffer {
    bytes: [u8; ROOM],
    len: usize,
    index: Index,
}

impl Model for Buffer {
    ghost use Rattle.std.specs.Prelude.{List, ℕ, take, ◌≤◌, ◌-◌};
    ghost use Rattle.dlms_frame.specs.Index.{IsIndex};

    ghost Value = { List ℕ };

    ghost view = { λ b. take b.len b.bytes };

    ghost invariant = { λ b. (b.len ≤ 3072) × IsIndex b.bytes b.index.heads b.index.links (b.len - 2) };
}

impl Buffer {
    /// No bytes.
    pub(crate) fn new() -> Self
        ensures { result ≡ [] }
    {
        Buffer {
            bytes: [0; ROOM],
            len: 0,
            index: Index {
                heads: [0; ROOM],
                links: [0; ROOM],
            },
        }
    }

    /// How many bytes there are.
    pub(crate) fn len(&self) -> usize
        ensures value { result ≡ length self.now }
        ensures fits { result ≤ 3072 }
    {
        self.len
    }

    /// The bytes.
    pub(crate) fn as_slice(&self) -> &[u8]
        ensures value { result.now ≡ self.now }
        ensures fits { length result.now ≤ 3072 }
    {
        &self.bytes[..self.len]
    }

    /// Appends a byte.
    pub(crate) fn push(&mut self, byte: u8)
        requires { length self.old < 3072 }
        ensures { self.new ≡ self.old ++ byte ∷ [] }
    {
        let at = self.len;
        self.bytes[at] = byte;
        if at >= 2 {
            note(&mut self.index, &self.bytes, at - 2);
        }
        self.len = at + 1;
    }

    /// Drops the bytes before `from`.
    pub(crate) fn keep_from(&mut self, from: usize)
        requires { from ≤ length self.old }
        ensures { self.new ≡ drop from self.old }
    {
        self.bytes.copy_within(from..self.len, 0);
        self.len -= from;
        note_all(&mut self.index, &self.bytes, self.len.saturating_sub(2));
    }

    /// The longest frame at the end of the bytes that begins at `from` or later.
    pub(crate) fn last_frame(&self, from: usize) -> Option<Frame<'_>>
        requires { from ≤ length self.now }
        ensures found { IfSome result (λ f. (k : ℕ) × IsLongest (drop from self.now) k f) }
        ensures none { IfNone result ((k : ℕ) (f : Parts)
            → FrameSpelling (drop k (drop from self.now)) f → ⊥) }
    {
        longest(&self.bytes, &self.index, from, self.len)
    }
}
