//! A frame and its bytes.
use crate::writing::text_of;
use arrayvec::ArrayVec;
use std::marker::Model;

/// An address of one, two or four bytes (IEC 62056-46, 6.4.2). The type alone doesn't bound its parts: an address with a part
/// that is too great is one that no frame can have.
#[derive(Clone, Copy, Debug, PartialEq, Eq)]
pub enum Address {
    /// An upper part of 7 bits, as a client's is.
    One(u8),
    /// An upper and a lower part of 7 bits each.
    Two(u8, u8),
    /// An upper and a lower part of 14 bits each.
    Four(u16, u16),
}

/// The part of a frame before the information.
#[derive(Clone, Copy)]
pub(crate) struct Header {
    pub(crate) segmented: bool,
    pub(crate) len: usize,
    pub(crate) dest: Address,
    pub(crate) src: Address,
    pub(crate) control: u8,
}

/// A frame of format type 3 (IEC 62056-46, 6.4.1): what stands between two flags, without its length and its checks. Its
/// addresses have parts of 7 or 14 bits, and it has at most 2,047 bytes between the flags. Its information is lent.
#[derive(Drop)]
pub struct Frame<'a> {
    pub segmented: bool,
    pub dest: Address,
    pub src: Address,
    pub control: u8,
    pub info: &'a [u8],
}

impl<'a> Model for Frame<'a> {
    ghost use Rattle.dlms_frame.specs.Frame.{Parts, IsFrame};

    ghost Value = { Parts };

    ghost view = { λ f. record { segmented = f.segmented; dest = f.dest; src = f.src; control = f.control; info = f.info.now } };

    ghost invariant = { λ f. IsFrame (record { segmented = f.segmented; dest = f.dest; src = f.src; control = f.control; info = f.info.now }) };
}

/// The most bytes of information of a frame that an end sends.
pub const MOST_SENT: usize = 128;

/// The most bytes of a frame that an end sends, flags included, and some more.
pub const MOST_TEXT: usize = 160;

/// A frame with information of its own: one that an end sends, and keeps until it needn't go again.
#[derive(Drop)]
pub struct SentFrame {
    segmented: bool,
    dest: Address,
    src: Address,
    control: u8,
    info: ArrayVec<u8, MOST_SENT>,
}

impl Model for SentFrame {
    ghost use Rattle.dlms_frame.specs.Frame.{Parts, IsFrame};

    ghost Value = { Parts };

    ghost view = { λ f. record { segmented = f.segmented; dest = f.dest; src = f.src; control = f.control; info = f.info.items } };

    ghost invariant = { λ f. IsFrame (record { segmented = f.segmented; dest = f.dest; src = f.src; control = f.control; info = f.info.items }) };
}

impl Address {
    ghost use Rattle.std.specs.Prelude.{◌≡◌, length};
    ghost use Rattle.dlms_frame.specs.Frame.{address_bytes};

    /// How many bytes it takes.
    pub fn len(self) -> usize
        ensures { result ≡ length (address_bytes self) }
    {
        match self {
            Address::One(_) => 1,
            Address::Two(_, _) => 2,
            Address::Four(_, _) => 4,
        }
    }
}

impl<'a> Frame<'a> {
    ghost use Rattle.std.specs.Prelude.{◌≡◌, ◌<◌, ◌≤◌, length, IfSome, IfNone};
    ghost use Rattle.dlms_frame.specs.Frame.{FrameSpelling, frame_len, IsAddress};

    /// A frame of these parts. This much information fits whatever forms the addresses have; a frame with short addresses and
    /// more information is written as a literal.
    pub fn new(
        segmented: bool,
        dest: Address,
        src: Address,
        control: u8,
        info: &'a [u8],
    ) -> Frame<'a>
        requires dest { IsAddress dest }
        requires src { IsAddress src }
        requires short { length info.now ≤ 2032 }
        ensures { result ≡ record {
          segmented = segmented;
          dest = dest;
          src = src;
          control = control;
          info = info.now;
        } }
    {
        Frame {
            segmented,
            dest,
            src,
            control,
            info,
        }
    }

    /// How many bytes stand between the flags.
    pub fn len(&self) -> usize
        ensures { result ≡ frame_len self.now }
    {
        let tail = if self.info.is_empty() {
            2
        } else {
            self.info.len() + 4
        };
        3 + self.dest.len() + self.src.len() + tail
    }

    /// The same frame with its own copy of the information, if that is no more than an end sends in a frame.
    pub fn owned(&self) -> Option<SentFrame>
        ensures same { IfSome result (λ frame. frame ≡ self.now) }
        ensures none { IfNone result (MOST_SENT < length self.now.info) }
    {
        if self.info.len() > MOST_SENT {
            return None;
        }
        Some(SentFrame::new(self.segmented, self.dest, self.src, self.control, self.info))
    }

    /// The bytes of the frame.
    pub fn put(&self) -> ArrayVec<u8, 2049>
        ensures { FrameSpelling result.items self.now }
    {
        let header = Header {
            segmented: self.segmented,
            len: self.len(),
            dest: self.dest,
            src: self.src,
            control: self.control,
        };
        text_of(header, self.info)
    }
}

impl SentFrame {
    ghost use Rattle.std.specs.Prelude.{◌≡◌, ◌≤◌, length};
    ghost use Rattle.dlms_frame.specs.Frame.{FrameSpelling, frame_len, IsAddress};

    /// A frame of these parts.
    pub fn new(segmented: bool, dest: Address, src: Address, control: u8, info: &[u8]) -> SentFrame
        requires dest { IsAddress dest }
        requires src { IsAddress src }
        requires short { length info.now ≤ MOST_SENT }
        ensures { result ≡ record {
          segmented = segmented;
          dest = dest;
          src = src;
          control = control;
          info = info.now;
        } }
    {
        let mut own = ArrayVec::new();
        let _ = own.try_extend_from_slice(info);
        SentFrame {
            segmented,
            dest,
            src,
            control,
            info: own,
        }
    }

    /// An equal frame.
    pub fn copy(&self) -> SentFrame
        ensures { result ≡ self.now }
    {
        let mut own = ArrayVec::new();
        let _ = own.try_extend_from_slice(self.info.as_slice());
        SentFrame {
            segmented: self.segmented,
            dest: self.dest,
            src: self.src,
            control: self.control,
            info: own,
        }
    }

    /// The same frame between these addresses.
    pub fn between(self, dest: Address, src: Address) -> SentFrame
        requires dest { IsAddress dest }
        requires src { IsAddress src }
        ensures { result ≡ record self { dest = dest; src = src } }
    {
        SentFrame {
            segmented: self.segmented,
            dest,
            src,
            control: self.control,
            info: self.info,
        }
    }

    /// The same frame, lent.
    pub fn lent(&self) -> Frame<'_>
        ensures { result ≡ self.now }
    {
        Frame {
            segmented: self.segmented,
            dest: self.dest,
            src: self.src,
            control: self.control,
            info: self.info.as_slice(),
        }
    }

    /// The bytes of the frame.
    pub fn put(&self) -> ArrayVec<u8, MOST_TEXT>
        ensures { FrameSpelling result.items self.now }
    {
        let header = Header {
            segmented: self.segmented,
            len: self.lent().len(),
            dest: self.dest,
            src: self.src,
            control: self.control,
        };
        text_of(header, self.info.as_slice())
    }
}
