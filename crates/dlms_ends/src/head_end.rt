//! The head end's end of a line.
ghost use Rattle.std.specs.Prelude.{◌≡◌, ◌≤◌, ◌<◌, ◌-◌, None, [], IfErr, OnOk};
ghost use Rattle.dlms_frame.specs.Frame.{spelling};
ghost use Rattle.dlms_frame.specs.Stream.{Fits};
ghost use Rattle.dlms_headend.specs.declared.poll_fault.PollFault.TheVariants.{Protocol};
ghost use Rattle.dlms_ends.specs.Moments.{Puts};
ghost use Rattle.dlms_ends.specs.Calling.{HeadWorld, IsAt, IsIn, Begins, Dials, Repeats, TakesFrame, TakesPiece, TakesTurn, first_world};

use crate::end::{End, Heard, PIECE, READS, bytes_of};
use crate::fault::RunFault;
use dlms_frame::{Deframer, Frame, SentFrame};
use dlms_headend::{PollFault, PollStep, Poller, list_columns};
use std::alloc::{Allocator, Global};
use std::io;

/// The most bytes of a poll, those of some sixty thousand rows: more than a year of quarters of an hour.
pub const MOST_BYTES: usize = 2_097_152;

/// The outcome of a head end's turn.
#[derive(Clone, Copy, Debug, PartialEq, Eq)]
pub enum PollTurn {
    /// A frame is out.
    Sent,
    /// The poll is done.
    Done,
}

/// A poll, what came of a frame that is not whole yet, and how many bytes may still come.
#[derive(Drop)]
pub struct HeadEnd<A: Allocator = Global> {
    deframer: Deframer,
    left: usize,
    pub poller: Poller<A>,
}

/// A frame goes out.
#[inline(never)]
fn send<W: End>(end: &mut W, frame: &SentFrame) -> io::Result<()>
    ensures { Puts (W.past end.old) (W.past end.new) (spelling frame.now) result }
{
    end.put(frame.put().as_slice())
}

/// Takes a frame. Where the poll ends for the meter's columns, the answer tells which they are.
fn take_frame<W: End, A: Allocator + Copy>(
    poller: &mut Poller<A>,
    end: &mut W,
    frame: Frame<'_>,
) -> Result<Option<PollTurn>, RunFault>
    ensures { TakesFrame (W.past end.old)
        (W.past end.new) poller.old frame.entry result poller.new }
{
    match poller.on(&frame) {
        Ok(PollStep::Nothing) => Ok(None),
        Ok(PollStep::Send(next)) => {
            send(end, &next)?;
            Ok(Some(PollTurn::Sent))
        }
        Ok(PollStep::Done) => Ok(Some(PollTurn::Done)),
        Err(PollFault::Columns) => Err(RunFault::Columns(list_columns(poller.answer()))),
        Err(fault) => Err(RunFault::Poll(fault)),
    }
}

/// Sends the poll's first frame.
#[inline(never)]
pub fn dial<W: End, A: Allocator + Copy>(poller: &mut Poller<A>, end: &mut W) -> io::Result<()>
    ensures { Dials (W.past end.old) (W.past end.new) poller.old poller.new result }
{
    match poller.next() {
        Some(frame) => send(end, &frame),
        None => Ok(()),
    }
}

impl<A: Allocator + Copy> HeadEnd<A> {
    /// The head end of a poll whose first frame is out, at which nothing has come.
    pub fn of(poller: Poller<A>) -> Self
        ensures poller { result.poller ≡ poller }
        ensures stands { IsIn result (first_world poller) }
    {
        HeadEnd {
            deframer: Deframer::new(),
            left: MOST_BYTES,
            poller,
        }
    }

    /// Sends the poll's first frame.
    pub fn begin<W: End>(end: &mut W, poller: Poller<A>) -> io::Result<Self>
        ensures { Begins (W.past end.old) (W.past end.new) poller result }
    {
        let mut poller = poller;
        match dial(&mut poller, end) {
            Ok(()) => Ok(HeadEnd::of(poller)),
            Err(error) => Err(error),
        }
    }

    /// The poll as it stands.
    pub fn into_poller(self) -> Poller<A>
        ensures { result ≡ self.poller }
    {
        self.poller
    }

    /// Takes the frames among the bytes, up to the one that is answered or ends the poll. Bytes after it arrived before the request
    /// that is out now, and are dropped.
    fn take<W: End>(&mut self, end: &mut W, bytes: &[u8]) -> Result<Option<PollTurn>, RunFault>
        ensures { (h : HeadWorld) → IsAt self.old h → h.inflow.rest ≡ bytes.now
            → TakesPiece (W.past end.old) (W.past end.new) h self.new result }
    {
        let mut rest = bytes;
        'frames: while !rest.is_empty() {
            let taken = self.deframer.feed(rest);
            match self.deframer.frame() {
                Some(frame) => match take_frame(&mut self.poller, end, frame)? {
                    Some(turn) => {
                        self.deframer.idle();
                        return Ok(Some(turn));
                    }
                    None => {}
                },
                None => {}
            }
            rest = &rest[taken..];
        }
        Ok(None)
    }

    /// So many bytes more have come. More than a poll may have are a fault.
    fn count(&mut self, bytes: usize) -> Result<(), RunFault>
        ensures within { OnOk result (bytes ≤ self.old.left) }
        ensures counted { OnOk result
            (self.new ≡ record self.old { left = self.old.left - bytes }) }
        ensures more { IfErr result (λ fault. (fault ≡ RunFault.Poll Protocol)
            × (self.old.left < bytes) × (self.new ≡ self.old)) }
    {
        match self.left.checked_sub(bytes) {
            Some(left) => {
                self.left = left;
                Ok(())
            }
            None => Err(RunFault::Poll(PollFault::Protocol)),
        }
    }

    /// Nothing came: the frame that is out goes again, and the fourth time-out in a row is a fault.
    fn repeat<W: End>(&mut self, end: &mut W) -> Result<PollTurn, RunFault>
        ensures again { Repeats (W.past end.old)
            (W.past end.new) self.old.poller result self.new.poller }
        ensures idle { Fits self.new.deframer.bytes [] 0 }
        ensures left { self.new.left ≡ self.old.left }
    {
        self.deframer.idle();
        if !self.poller.is_waiting() {
            return Err(RunFault::Poll(PollFault::Line));
        }
        let frame = self.poller.timeout()?;
        send(end, &frame)?;
        Ok(PollTurn::Sent)
    }

    /// The head end takes what comes, until a frame of its own is out or the poll is done. What comes in more than so many pieces
    /// without one is a fault of the line.
    #[inline(never)]
    pub fn turn<S: End>(&mut self, end: &mut S) -> Result<PollTurn, RunFault>
        ensures { (h : HeadWorld) → IsIn self.old h
            → TakesTurn (S.past end.old) (S.past end.new) h self.new result }
    {
        let mut piece = [0u8; PIECE];
        'reads: for _read in 0..READS {
            match end.hear(&mut piece)? {
                Heard::Silence => return self.repeat(end),
                Heard::Bytes(count) => {
                    self.count(count)?;
                    match self.take(end, bytes_of(&piece, count))? {
                        Some(turn) => return Ok(turn),
                        None => {}
                    }
                }
            }
        }
        Err(RunFault::Poll(PollFault::Line))
    }
}
