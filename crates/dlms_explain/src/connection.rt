//! A connection of a capture: which end is the meter's, the octets of both directions in their order, and what they carry.

use crate::explainer::Explainer;
use crate::place_text::{write_late, write_missing, write_segment};
use crate::session::Form;
use crate::words::Text;
use crate::wrapper::{begins_head, is_message};
use dlms_capture::{Ends, Order, Segment, Stamp, Transport};
use dlms_dissect::Side;
use dlms_frame::Deframer;
use dlms_security::Opener;
use std::alloc::{AllocError, Allocator};

/// The port of DLMS/COSEM (the registry of service names: dlms-cosem).
const PORT: u16 = 4059;

/// The flag of a frame.
const FLAG: u8 = 0x7e;

/// The content of a connection, by the first octets of a segment: HDLC frames, or APDUs in the wrapper. While it is unknown, octets
/// to or from the port of DLMS/COSEM are taken as frames.
#[derive(Clone, Copy)]
enum Carries {
    Nothing,
    Frames,
    Wrapped,
    Other,
}

/// How many segments of a direction may wait at most, and one more.
const MOST_WAITING: u32 = 65;

/// A connection, of which some segments have come.
#[derive(Drop)]
pub struct Connection<A: Allocator, O> {
    alloc: A,
    form: Form,
    /// The client's end, and the meter's.
    ends: Ends,
    up: Order<A>,
    down: Order<A>,
    carries: Carries,
    frames: Explainer<A, O>,
    /// The octets that are next, and not told yet.
    fresh: Vec<u8, A>,
    /// How many segments were of other traffic, and are not counted yet.
    others: u64,
}

/// Whether the end that a segment comes from is the meter's: its port is that of DLMS/COSEM, or the segment answers the one that
/// opened the connection; where neither is known, the meter's is the end with the lower port.
fn is_from_meter(segment: Segment<'_>) -> bool {
    let from = segment.ends.from.port;
    let to = segment.ends.to.port;
    if from == PORT || to == PORT {
        return to != PORT;
    }
    match segment.transport {
        Transport::Tcp {
            opens: true,
            answers,
            ..
        } => answers,
        _ => from < to,
    }
}

/// The content of a connection with these first octets.
fn content_of(ends: Ends, octets: &[u8]) -> Carries {
    match octets {
        [FLAG, ..] => Carries::Frames,
        _ if begins_head(octets) => Carries::Wrapped,
        _ if ends.to.port == PORT => Carries::Nothing,
        _ => later_content_of(octets),
    }
}

/// The content of a connection of other traffic so far, by the octets of a segment: one of which the capture does not have the
/// beginning is known by the first segment with a frame whose checks are right, or with messages of the wrapper alone.
fn later_content_of(octets: &[u8]) -> Carries {
    let mut deframer = Deframer::new();
    let _taken = deframer.feed(octets);
    if deframer.frame().is_some() {
        Carries::Frames
    } else if is_message(octets) {
        Carries::Wrapped
    } else {
        Carries::Other
    }
}

impl<A: Allocator + Copy, O: Opener> Connection<A, O> {
    /// Before its first segment.
    pub fn new(alloc: A, form: Form, opener: O, segment: Segment<'_>) -> Self {
        let Ends { from, to } = segment.ends;
        let ends = if is_from_meter(segment) {
            Ends { from: to, to: from }
        } else {
            segment.ends
        };
        Connection {
            alloc,
            form,
            ends,
            up: Order::new(alloc),
            down: Order::new(alloc),
            carries: Carries::Nothing,
            frames: Explainer::with_opener(alloc, form, opener),
            fresh: Vec::new(alloc),
            others: 0,
        }
    }

    /// Whether a segment between these ends is one of this connection.
    pub fn is_of(&self, ends: Ends) -> bool {
        self.ends == ends || (self.ends.from == ends.to && self.ends.to == ends.from)
    }

    /// The order of one direction.
    fn order(&self, side: Side) -> &Order<A> {
        match side {
            Side::Client => &self.up,
            Side::Meter => &self.down,
        }
    }

    /// Takes a segment into the order of its direction.
    fn take(
        &mut self,
        side: Side,
        stamp: Option<Stamp>,
        sequence: u32,
        octets: &[u8],
    ) -> Result<(), AllocError> {
        let fresh = &mut self.fresh;
        match side {
            Side::Client => self.up.take(self.alloc, stamp, sequence, octets, fresh),
            Side::Meter => self.down.take(self.alloc, stamp, sequence, octets, fresh),
        }
    }

    /// The octets of a segment of one direction that waited and does so no more, and when it came.
    fn give_due(&mut self, side: Side) -> Result<Option<Option<Stamp>>, AllocError> {
        match side {
            Side::Client => self.up.give_due(&mut self.fresh),
            Side::Meter => self.down.give_due(&mut self.fresh),
        }
    }

    /// One direction goes on at the first segment that waits; how many octets are missing before it.
    fn resume(&mut self, side: Side) -> u64 {
        match side {
            Side::Client => self.up.resume(),
            Side::Meter => self.down.resume(),
        }
    }

    /// The sender and receiver of the segments of one direction.
    fn ends_of(&self, side: Side) -> Ends {
        let Ends { from, to } = self.ends;
        match side {
            Side::Client => self.ends,
            Side::Meter => Ends { from: to, to: from },
        }
    }

    /// Whether the connection's content is explained, judged also by the octets that are next.
    fn is_told(&mut self) -> bool {
        match self.carries {
            Carries::Nothing => self.carries = content_of(self.ends, self.fresh.as_slice()),
            Carries::Other => self.carries = later_content_of(self.fresh.as_slice()),
            Carries::Frames | Carries::Wrapped => {}
        }
        !matches!(self.carries, Carries::Other)
    }

    /// When octets came, and between which ends.
    fn tell_stamp(&mut self, stamp: Option<Stamp>, ends: Ends, text: &mut Text<A>) {
        let mut told = Text::new(String::new(self.alloc));
        write_segment(&mut told, self.form.layout.is_one_line(), stamp, ends);
        if told.check_memory().is_err() {
            text.refuse();
        }
        match self.carries {
            Carries::Wrapped => self.frames.wrapped.stamp(told.as_str(), text),
            _ => self.frames.stamp(told.as_str(), text),
        }
    }

    /// Explains the octets that are next.
    fn tell(&mut self, side: Side, text: &mut Text<A>) {
        match self.carries {
            Carries::Frames | Carries::Nothing => {
                self.frames.take(Some(side), self.fresh.as_slice(), text);
            }
            Carries::Wrapped => self
                .frames
                .wrapped
                .octets(Some(side), self.fresh.as_slice(), text),
            Carries::Other => {}
        }
    }

    /// Explains the octets that are next, which came at this time, and reports how many are missing before them.
    fn tell_fresh(&mut self, side: Side, missing: u64, stamp: Option<Stamp>, text: &mut Text<A>) {
        if self.fresh.is_empty() {
            return;
        }
        if self.is_told() {
            let ends = self.ends_of(side);
            write_missing(text, self.form.layout, missing);
            self.tell_stamp(stamp, ends, text);
            self.tell(side, text);
        } else {
            self.others = self.others.saturating_add(1);
        }
        self.fresh.clear();
    }

    /// Explains the segments that waited and are due now that a segment has come.
    fn tell_due(&mut self, side: Side, text: &mut Text<A>) {
        for _ in 0..MOST_WAITING {
            match self.give_due(side) {
                Ok(Some(_)) => {
                    self.tell(side, text);
                    self.fresh.clear();
                }
                Ok(None) => return,
                Err(_) => {
                    text.refuse();
                    return;
                }
            }
        }
    }

    /// Explains the segments that waited and are due, each with its own time, and reports how many octets are missing before them.
    fn tell_waited(&mut self, side: Side, missing: u64, text: &mut Text<A>) {
        let mut missing = missing;
        for _ in 0..MOST_WAITING {
            match self.give_due(side) {
                Ok(Some(stamp)) => {
                    self.tell_fresh(side, missing, stamp, text);
                    missing = 0;
                }
                Ok(None) => return,
                Err(_) => {
                    text.refuse();
                    return;
                }
            }
        }
    }

    /// One direction continues without the octets before the first segment that waits: explains those that are then due.
    fn tell_resumed(&mut self, side: Side, text: &mut Text<A>) {
        let missing = self.resume(side);
        self.tell_waited(side, missing, text);
    }

    /// Explains the segments of one direction that wait and that the other end has taken, which awaits the octet with this number.
    fn tell_awaited(&mut self, side: Side, number: u32, text: &mut Text<A>) {
        for _ in 0..MOST_WAITING {
            if !self.order(side).is_acknowledged(number) {
                return;
            }
            self.tell_resumed(side, text);
        }
    }

    /// Explains all segments of one direction that wait.
    fn tell_rest(&mut self, side: Side, text: &mut Text<A>) {
        for _ in 0..MOST_WAITING {
            if !self.order(side).is_waiting() {
                return;
            }
            self.tell_resumed(side, text);
        }
    }

    /// A segment opens a direction. If it was open already, the waiting segments are explained first.
    fn open(&mut self, side: Side, sequence: u32, text: &mut Text<A>) {
        if self.order(side).is_repeated(sequence) {
            return;
        }
        if self.order(side).is_open() {
            self.tell_rest(side, text);
        }
        match side {
            Side::Client => self.up.open(sequence),
            Side::Meter => self.down.open(sequence),
        }
        self.tell_waited(side, 0, text);
    }

    /// Explains a segment of one direction.
    fn tell_segment(
        &mut self,
        side: Side,
        stamp: Option<Stamp>,
        sequence: u32,
        octets: &[u8],
        text: &mut Text<A>,
    ) {
        let late = self.order(side).late(sequence, octets.len());
        if !matches!(self.carries, Carries::Other) {
            write_late(text, self.form.layout, late);
        }
        if self.take(side, stamp, sequence, octets).is_err() {
            text.refuse();
            return;
        }
        self.tell_fresh(side, 0, stamp, text);
        self.tell_due(side, text);
        if self.order(side).is_full() {
            self.tell_resumed(side, text);
        }
    }

    /// Explains the octets of a datagram.
    fn tell_datagram(
        &mut self,
        side: Side,
        stamp: Option<Stamp>,
        octets: &[u8],
        text: &mut Text<A>,
    ) {
        if self.fresh.extend_from_slice(octets).is_err() {
            text.refuse();
            return;
        }
        self.tell_fresh(side, 0, stamp, text);
    }

    /// How many segments were of other traffic since this was asked last.
    fn count_others(&mut self) -> u64 {
        let others = self.others;
        self.others = 0;
        others
    }

    /// Explains a segment that came at this time, and those that waited for it; returns how many of these are of other traffic.
    pub fn explain(
        &mut self,
        stamp: Option<Stamp>,
        segment: Segment<'_>,
        text: &mut Text<A>,
    ) -> u64 {
        let (side, other) = if self.ends == segment.ends {
            (Side::Client, Side::Meter)
        } else {
            (Side::Meter, Side::Client)
        };
        let octets = segment.octets;
        if octets.is_empty() && matches!(self.carries, Carries::Other) {
            self.others = self.others.saturating_add(1);
        }
        match segment.transport {
            Transport::Udp => self.tell_datagram(side, stamp, octets, text),
            Transport::Tcp {
                sequence,
                awaited,
                opens,
                answers,
            } => {
                if answers {
                    self.tell_awaited(other, awaited, text);
                }
                if opens {
                    self.open(side, sequence, text);
                } else {
                    self.tell_segment(side, stamp, sequence, octets, text);
                }
            }
        }
        self.count_others()
    }

    /// No more segments come: explains those that wait and octets that are no frame; returns how many segments are of other
    /// traffic.
    pub fn end(&mut self, text: &mut Text<A>) -> u64 {
        self.tell_rest(Side::Client, text);
        self.tell_rest(Side::Meter, text);
        if !matches!(self.carries, Carries::Other) {
            self.frames.close(text);
        }
        self.count_others()
    }
}
