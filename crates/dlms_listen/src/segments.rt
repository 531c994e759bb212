//! The APDU in the information of one HDLC frame, or joined of several (IEC 62056-46, segmentation).

ghost use Rattle.std.specs.Prelude.{◌≡◌, option_map};
ghost use Rattle.dlms_listen.specs.Joined.{behind_llc, carries_apdu, same_address};

use crate::fault::Skip;
use arrayvec::ArrayVec;
use dlms_frame::{Address, Frame};
use std::marker::Model;

/// The most octets of an APDU that is kept.
pub const MOST_JOINED: usize = 4096;

/// The control fields of a UI frame, without its poll bit and with it (IEC 62056-46, 6.4.3).
const UI: u8 = 0x03;

const UI_POLL: u8 = 0x13;

/// Segments of one APDU, from one address to another.
#[derive(Drop)]
pub struct Segments {
    octets: ArrayVec<u8, MOST_JOINED>,
    /// The addresses of the segments so far, while the last one has not come.
    ends: Option<(Address, Address)>,
}

impl Model for Segments {
    ghost use Rattle.dlms_listen.specs.Joined.{Segmented};

    ghost Value = { Segmented };

    ghost view = { λ s. record { octets = s.octets.items; ends = s.ends } };
}

/// Whether frames with this control field carry an APDU: UI frames, and information frames.
fn carries_apdu(control: u8) -> bool
    ensures { result ≡ carries_apdu control }
{
    control % 2 == 0 || control == UI || control == UI_POLL
}

/// The octets after an LLC header of either direction.
fn behind_llc(info: &[u8]) -> Option<&[u8]>
    ensures { option_map (λ a. a.now) result ≡ behind_llc info.now }
{
    match info {
        [0xe6, 0xe6 | 0xe7, 0, apdu @ ..] => Some(apdu),
        _ => None,
    }
}

/// Whether two addresses are the same.
fn same_address(a: Address, b: Address) -> bool
    ensures { result ≡ same_address a b }
{
    match (a, b) {
        (Address::One(a), Address::One(b)) => a == b,
        (Address::Two(a, b), Address::Two(c, d)) => a == c && b == d,
        (Address::Four(a, b), Address::Four(c, d)) => a == c && b == d,
        _ => false,
    }
}

impl Segments {
    ghost use Rattle.std.specs.Prelude.{◌≡◌, ◌++◌, [], None, Some, OnErr, OnOk, IfErr, IfOk, MatchResult, is_some};
    ghost use Rattle.dlms_listen.specs.Joined.{first_segment, behind_llc, is_between, segment_of, segments_so_far};

    /// Before the first frame.
    pub fn new() -> Self
        ensures { result ≡ record { octets = []; ends = None } }
    {
        Segments {
            octets: ArrayVec::new(),
            ends: None,
        }
    }

    /// The APDU, once it is complete.
    pub fn apdu(&self) -> &[u8]
        ensures { result.now ≡ self.now.octets }
    {
        self.octets.as_slice()
    }

    /// Nothing is kept. Returns whether segments were.
    pub fn clear(&mut self) -> bool
        ensures none { self.new ≡ record { octets = []; ends = None } }
        ensures open { result ≡ is_some self.old.ends }
    {
        self.octets.clear();
        self.ends.take().is_some()
    }

    /// Whether segments are open between these addresses.
    fn is_between(&self, dest: Address, src: Address) -> bool
        ensures { result ≡ is_between self.now.ends dest src }
    {
        match self.ends {
            Some((a, b)) => same_address(a, dest) && same_address(b, src),
            None => false,
        }
    }

    /// Adds octets to the APDU so far. Returns whether it is complete, and the cause of octets left out: `before`, or too
    /// many.
    fn add(
        &mut self,
        frame: &Frame<'_>,
        before: Option<Skip>,
        octets: &[u8],
    ) -> (bool, Option<Skip>)
        ensures outcome { record { complete = result.0; skip = result.1 }
            ≡ (segments_so_far frame.now before (self.old.octets ++ octets.now)).outcome }
        ensures kept { self.new ≡ (segments_so_far frame.now before
            (self.old.octets ++ octets.now)).kept }
    {
        if self.octets.try_extend_from_slice(octets).is_err() {
            self.clear();
            return (false, Some(Skip::Long));
        }
        self.ends = if frame.segmented {
            Some((frame.dest, frame.src))
        } else {
            None
        };
        (!frame.segmented, before)
    }

    /// Takes the first segment of an APDU, after its LLC header.
    fn begin(&mut self, frame: &Frame<'_>, apdu: Option<&[u8]>) -> (bool, Option<Skip>)
        ensures outcome { record { complete = result.0; skip = result.1 }
            ≡ (first_segment self.old frame.now (option_map (λ a. a.now) apdu.entry)).outcome }
        ensures kept { self.new ≡ (first_segment self.old frame.now
            (option_map (λ a. a.now) apdu.entry)).kept }
    {
        let is_torn = self.clear();
        match apdu {
            Some(apdu) => self.add(frame, if is_torn { Some(Skip::Torn) } else { None }, apdu),
            None => (false, Some(Skip::NoLlc)),
        }
    }

    /// Takes a frame. Returns whether an APDU is complete, and the cause of octets left out; a frame that begins an APDU within the
    /// segments of another leaves those out.
    pub fn take(&mut self, frame: &Frame<'_>) -> (bool, Option<Skip>)
        ensures outcome { record { complete = result.0; skip = result.1 }
            ≡ (segment_of self.old frame.now).outcome }
        ensures kept { self.new ≡ (segment_of self.old frame.now).kept }
    {
        if !carries_apdu(frame.control) {
            return (false, Some(Skip::Control(frame.control)));
        }
        let apdu = behind_llc(frame.info);
        if self.is_between(frame.dest, frame.src) && apdu.is_none() {
            return self.add(frame, None, frame.info);
        }
        self.begin(frame, apdu)
    }
}
