//! The segments of the APDUs that come from one end.

ghost use Rattle.std.specs.Prelude.{◌≡◌, None, option_map, IfOk, IsErr, OnOk};
ghost use Rattle.dlms_dissect.specs.Segments.{Joins, JoinsFrame, JoinsFromStart, JoinsSegment, after, another, behind_llc, begun, came_of, expected, from_start, is_again, is_from, is_known, is_next, opened, passed, taken, told, with_octets, with_segment, without_rest};

use crate::parties::Side;
use std::alloc::{AllocError, Allocator};
use std::marker::Model;

/// The most octets of an APDU: the size that two ends agree on is a number of two octets.
pub const MOST_APDU: usize = 65_535;

/// The first of the three octets before an APDU (IEC 62056-46, the LLC sublayer; so are the next three): the destination.
const DESTINATION: u8 = 0xe6;

/// The second one, of the client.
const FROM_CLIENT: u8 = 0xe6;

/// The second one, of the meter.
const FROM_METER: u8 = 0xe7;

/// The third one.
const QUALITY: u8 = 0x00;

/// How far an APDU has come.
#[derive(Clone, Copy)]
pub enum Progress {
    /// No segment came.
    Fresh,
    /// The octets so far begin correctly and are not too many.
    Good,
    /// More than `MOST_APDU` octets came.
    TooLong,
    /// The first segment does not begin with the three octets of the LLC.
    BadStart,
}

/// The position of an information frame among those before it.
#[derive(Clone, Copy)]
pub enum Came {
    /// It has the number of the frame before, and is not taken again.
    Again,
    /// It is out of turn and is not taken; it holds an APDU as a whole.
    Apart,
    /// It is out of turn and is not taken; it is a piece of an APDU, or none.
    OutOfTurn,
    /// It is the client's and has no poll bit, and is not taken.
    NoPoll,
    /// A segment, of which others follow, and how many came so far.
    Segment(u32),
    /// The last segment of this many: the APDU is complete.
    Whole(u32),
    /// The last segment of an APDU that is too long.
    TooLong,
    /// The last segment of what does not begin with the LLC.
    NoLlc,
}

/// The information frames of one end.
#[derive(Drop)]
pub struct Segments<A: Allocator> {
    next: Option<u8>,
    progress: Progress,
    count: u32,
    apdu: Vec<u8, A>,
}

impl<A: Allocator> Model for Segments<A> {
    ghost use Rattle.dlms_dissect.specs.Following.{Following};

    ghost Value = { Following };

    ghost view = { λ s. record {
      next = s.next;
      progress = s.progress;
      count = s.count;
      apdu = s.apdu.items;
    } };
}

/// The number after this one.
fn after(number: u8) -> u8
    ensures { result ≡ after number }
{
    (number % 8 + 1) % 8
}

/// Whether the second octet of the LLC is that of this side, or of either side if it is not known.
fn is_from(side: Option<Side>, octet: u8) -> bool
    ensures { result ≡ is_from side octet }
{
    match side {
        Some(Side::Client) => octet == FROM_CLIENT,
        Some(Side::Meter) => octet == FROM_METER,
        None => octet == FROM_CLIENT || octet == FROM_METER,
    }
}

/// The octets after the LLC of this side, or of either side if it is not known; none if it is not at the front.
pub fn behind_llc(side: Option<Side>, info: &[u8]) -> Option<&[u8]>
    ensures { option_map (λ apdu. apdu.now) result ≡ behind_llc side info.now }
{
    match info {
        [a, b, c, apdu @ ..] if *a == DESTINATION && is_from(side, *b) && *c == QUALITY => {
            Some(apdu)
        }
        _ => None,
    }
}

/// The outcome after the last segment.
fn told(progress: Progress, count: u32) -> Came
    ensures { result ≡ told progress count }
{
    match progress {
        Progress::Good => Came::Whole(count),
        Progress::TooLong => Came::TooLong,
        Progress::Fresh | Progress::BadStart => Came::NoLlc,
    }
}

impl<A: Allocator> Segments<A> {
    /// Before the first frame, whose number is not known. No memory is taken here.
    pub fn new(alloc: A) -> Self
        ensures { result ≡ begun None }
    {
        Segments {
            next: None,
            progress: Progress::Fresh,
            count: 0,
            apdu: Vec::new(alloc),
        }
    }

    /// The next frame has this number, if it is known, and the APDU in progress is dropped.
    fn begin(&mut self, next: Option<u8>)
        ensures { self.new ≡ begun next }
    {
        self.next = next;
        self.progress = Progress::Fresh;
        self.count = 0;
        self.apdu.clear();
    }

    /// The link goes down, or may come up: nothing is known of the next frame.
    pub fn forget(&mut self)
        ensures { self.new ≡ begun None }
    {
        self.begin(None);
    }

    /// The link is up: the next frame has the number 0, unless a frame came before the answer that says so.
    pub fn open(&mut self)
        ensures { self.new ≡ opened self.old }
    {
        if self.next.is_none() {
            self.begin(Some(0));
        }
    }

    /// The other end awaits this number next. Where that is another one than the next here, frames are missing.
    pub fn expect(&mut self, number: u8)
        ensures { self.new ≡ expected self.old number }
    {
        if !self.is_known(number) {
            self.begin(Some(number));
        }
    }

    /// A whole APDU came from the other end: what is unsent of an older answer stays unsent.
    pub fn drop_unsent(&mut self)
        ensures { self.new ≡ without_rest self.old }
    {
        self.progress = Progress::Fresh;
        self.count = 0;
    }

    /// Whether it is known that the next frame has this number.
    pub fn is_known(&self, number: u8) -> bool
        ensures { result ≡ is_known self.now.next number }
    {
        match self.next {
            None => false,
            Some(next) => number == next,
        }
    }

    /// Whether the next frame has this number, so far as that is known.
    pub fn is_next(&self, number: u8) -> bool
        ensures { result ≡ is_next self.now.next number }
    {
        match self.next {
            None => true,
            Some(next) => number == next,
        }
    }

    /// Whether this is the number of the frame before.
    pub fn is_again(&self, number: u8) -> bool
        ensures { result ≡ is_again self.now.next number }
    {
        match self.next {
            None => false,
            Some(next) => after(number) == next,
        }
    }

    /// The APDU, if the last frame was the last segment of one.
    pub fn apdu(&self) -> &[u8]
        ensures { result.now ≡ self.now.apdu }
    {
        &self.apdu
    }

    /// Keeps octets of an APDU.
    fn keep(&mut self, octets: &[u8]) -> Result<(), AllocError>
        ensures kept { OnOk result (self.new ≡ with_octets self.old octets.now) }
        ensures memory { IsErr result → Joins self.old octets.now }
    {
        if octets.len() > MOST_APDU || self.apdu.len() > MOST_APDU - octets.len() {
            self.progress = Progress::TooLong;
            self.apdu.clear();
            return Ok(());
        }
        self.apdu.extend_from_slice(octets)?;
        self.progress = Progress::Good;
        Ok(())
    }

    /// Keeps the first segment.
    fn keep_first(&mut self, side: Option<Side>, info: &[u8]) -> Result<(), AllocError>
        ensures kept { OnOk result (self.new ≡ from_start self.old (behind_llc side info.now)) }
        ensures memory { IsErr result → JoinsFromStart self.old (behind_llc side info.now) }
    {
        self.apdu.clear();
        match behind_llc(side, info) {
            Some(octets) => self.keep(octets),
            None => {
                self.progress = Progress::BadStart;
                Ok(())
            }
        }
    }

    /// Keeps a segment, the first or a further one.
    fn keep_segment(&mut self, side: Option<Side>, info: &[u8]) -> Result<(), AllocError>
        ensures kept { OnOk result
            (self.new ≡ with_segment self.old.progress side self.old info.now) }
        ensures memory { IsErr result → JoinsSegment self.old.progress side self.old info.now }
    {
        match self.progress {
            Progress::Fresh => self.keep_first(side, info),
            Progress::Good => self.keep(info),
            Progress::TooLong | Progress::BadStart => Ok(()),
        }
    }

    /// The position of a frame that is not taken; `follows` states that another segment comes.
    pub fn pass_frame(&self, side: Option<Side>, number: u8, follows: bool, info: &[u8]) -> Came
        ensures { result ≡ passed self.now.next side number follows info.now }
    {
        if self.is_again(number) {
            Came::Again
        } else if !follows && behind_llc(side, info).is_some() {
            Came::Apart
        } else {
            Came::OutOfTurn
        }
    }

    /// One more frame came, of which another one follows or not.
    fn count_on(&mut self, number: u8, follows: bool) -> Came
        ensures came { result ≡ came_of self.old follows }
        ensures after { self.new ≡ another self.old number follows }
    {
        self.next = Some(after(number));
        self.count = self.count.saturating_add(1);
        if follows {
            return Came::Segment(self.count);
        }
        let came = told(self.progress, self.count);
        self.drop_unsent();
        came
    }

    /// Takes a frame with this number. A frame out of turn that begins with the LLC starts a new APDU, because frames before it may
    /// be missing from the log. Memory is needed only if octets are joined; if it is refused, the state afterwards is unspecified.
    pub fn take(
        &mut self,
        side: Option<Side>,
        number: u8,
        follows: bool,
        info: &[u8],
    ) -> Result<Came, AllocError>
        ensures came { IfOk result
            (λ came. came ≡ (taken self.old side number follows info.now).0) }
        ensures after { IfOk result
            (λ came. self.new ≡ (taken self.old side number follows info.now).1) }
        ensures memory { IsErr result → JoinsFrame self.old side number info.now }
    {
        if self.is_again(number) {
            return Ok(Came::Again);
        }
        if !self.is_next(number) {
            if behind_llc(side, info).is_none() {
                return Ok(Came::OutOfTurn);
            }
            self.forget();
        }
        self.keep_segment(side, info)?;
        Ok(self.count_on(number, follows))
    }
}
