//! The octets of one direction of a TCP connection, in the order of their numbers.

ghost use Rattle.std.specs.Prelude.{◌≡◌, ◌<◌, ◌≤◌, ◌%◌, ◌++◌, [], Some, None, true, false, nat_le, nat_lt, is_some, length, IfOk, IfSome, IfNone, OnErr, OnOk};
ghost use Rattle.std.specs.List.{HoldsAt};
ghost use Rattle.dlms_capture.specs.Streams.{AreEarly, GivesDue, LosesDue, Waits, added_by, behind, first_place, given_more, is_due, is_place, known_next, late_of, missing_at, next_at, next_more, number_behind, number_before, place_by, place_in, resumed_at, resumed_start};

use crate::interface::Stamp;
use std::alloc::{AllocError, Allocator};

/// How many segments may wait before the octets in front of them are passed over.
const MOST_EARLY: usize = 64;

/// How many numbers there are for octets.
const NUMBERS: u64 = 0x1_0000_0000;

/// A segment that waits: the place of its first octet, and when it came.
#[derive(Drop)]
struct Early<A: Allocator> {
    place: u64,
    stamp: Option<Stamp>,
    octets: Vec<u8, A>,
}

/// A direction of a connection.
#[derive(Drop)]
pub struct Order<A: Allocator> {
    /// The place of the octet that is next.
    given: u64,
    /// The number of that octet, if it is known.
    next: Option<u32>,
    /// The place of the first octet of this direction, once octets may be given.
    start: Option<u64>,
    /// The segments that wait for octets in front of them, or for the first one of this direction.
    early: Vec<Early<A>, A>,
}

/// The place of the octet with this number, near the place of the one with the number `next`.
fn place_of(next: u32, place: u64, number: u32) -> u64
    ensures { result ≡ place_by next place number }
{
    let ahead = u64::from(number.wrapping_sub(next));
    if ahead < NUMBERS / 2 {
        place.saturating_add(ahead)
    } else {
        place.saturating_sub(u64::from(next.wrapping_sub(number)))
    }
}

/// A count as numbers of octets count it, which go on from 2^32 - 1 with 0.
fn low_part(count: u64) -> u32
    ensures { result ≡ count % 4294967296 }
{
    (count % NUMBERS) as u32
}

/// The number of the octet that is this many places after the one with this number.
fn number_behind(number: u32, count: u64) -> u32
    ensures { result ≡ number_behind count number }
{
    number.wrapping_add(low_part(count))
}

/// The number of the octet so many places in front of the one with this number.
fn number_before(number: u32, count: u64) -> u32
    ensures { result ≡ number_before count number }
{
    number.wrapping_sub(low_part(count))
}

/// Those octets of a segment at this place that have not been given.
fn fresh(given: u64, place: u64, octets: &[u8]) -> &[u8]
    ensures { result.now ≡ behind given place octets.now }
{
    let old = given.saturating_sub(place);
    if old < octets.len() as u64 {
        &octets[old as usize..]
    } else {
        &[]
    }
}

/// The first place of these segments; of none the last place that there is.
fn first_place<A: Allocator>(segments: &[Early<A>]) -> u64
    ensures { result ≡ first_place segments.now }
{
    match segments {
        [] => u64::MAX,
        [first, rest @ ..] => first.place.min(first_place(rest)),
    }
}

impl<A: Allocator + Copy> Order<A> {
    /// Before the first segment. No memory is taken here.
    pub fn new(alloc: A) -> Self
        ensures given { result.given ≡ NUMBERS }
        ensures next { result.next ≡ None }
        ensures start { result.start ≡ None }
        ensures early { result.early.items ≡ [] }
    {
        Order {
            given: NUMBERS,
            next: None,
            start: None,
            early: Vec::new(alloc),
        }
    }

    /// The connection is opened by a segment with this number (SYN): the next number is that of the first octet. Segments that came
    /// before keep their places; if octets have been given already, it is another connection, and nothing is kept.
    pub fn open(&mut self, sequence: u32)
        ensures next { self.new.next ≡ Some (number_behind 1 sequence) }
        ensures start { self.new.start ≡ Some self.new.given }
        ensures first { self.old.start ≡ None
            → self.new.given ≡ place_in self.old (number_behind 1 sequence) }
        ensures waiting { self.old.start ≡ None → self.new.early ≡ self.old.early }
        ensures anew { is_some self.old.start ≡ true → (self.new.given ≡ NUMBERS) }
        ensures empty { is_some self.old.start ≡ true → self.new.early.items ≡ [] }
    {
        let first = number_behind(sequence, 1);
        self.given = match self.start {
            None => self.place(first),
            Some(_) => {
                self.early.clear();
                NUMBERS
            }
        };
        self.next = Some(first);
        self.start = Some(self.given);
    }

    /// Whether octets of this direction may be given.
    pub fn is_open(&self) -> bool
        ensures { result ≡ is_some self.now.start }
    {
        self.start.is_some()
    }

    /// Whether a segment with this number opens the connection once more, as it was opened.
    pub fn is_repeated(&self, sequence: u32) -> bool
        ensures { result ≡ is_place (place_in self.now (number_behind 1 sequence)) self.now.start }
    {
        let place = self.place(number_behind(sequence, 1));
        match self.start {
            Some(start) => place == start,
            None => false,
        }
    }

    /// So many octets more have been given.
    fn advance(&mut self, count: u64)
        ensures given { self.new.given ≡ given_more self.old.given count }
        ensures next { self.new.next ≡ next_more self.old.next count }
        ensures start { self.new.start ≡ self.old.start }
        ensures early { self.new.early ≡ self.old.early }
    {
        self.given = self.given.saturating_add(count);
        self.next = match self.next {
            Some(next) => Some(number_behind(next, count)),
            None => None,
        };
    }

    /// Appends those octets of a segment at this place that have not been given.
    fn append(
        &mut self,
        place: u64,
        octets: &[u8],
        output: &mut Vec<u8, A>,
    ) -> Result<(), AllocError>
        ensures octets { OnOk result (output.new.items ≡ output.old.items
            ++ behind self.old.given place octets.now) }
        ensures given { OnOk result (self.new.given ≡ given_more self.old.given
            (length (behind self.old.given place octets.now))) }
        ensures next { OnOk result (self.new.next ≡ next_more self.old.next
            (length (behind self.old.given place octets.now))) }
        ensures nothing { OnErr result (output.new.items ≡ output.old.items) }
        ensures same { OnErr result (self.new ≡ self.old) }
        ensures start { self.new.start ≡ self.old.start }
        ensures early { self.new.early ≡ self.old.early }
    {
        let fresh = fresh(self.given, place, octets);
        output.extend_from_slice(fresh)?;
        self.advance(fresh.len() as u64);
        Ok(())
    }

    /// Which of the segments that wait does so no more.
    fn due(&self) -> Option<usize>
        ensures some { IfSome result (λ at. at < length self.now.early.items) }
        ensures due { IfSome result (HoldsAt (λ e. e.place ≤ self.now.given) self.now.early.items) }
        ensures none { IfNone result (AreEarly self.now.given self.now.early.items) }
    {
        self.early
            .iter()
            .position(|early| early.place <= self.given)
    }

    /// Appends the octets of a waiting segment that is now due, and returns when it came; `None` if there is none, or if it is not
    /// known which octet is the first of this direction. Memory is needed only for the octets: if it is refused, they are lost.
    pub fn give_due(&mut self, output: &mut Vec<u8, A>) -> Result<Option<Option<Stamp>>, AllocError>
        ensures due { IfOk result (λ found. IfSome found
            (λ stamp. GivesDue self.old self.new output.old.items output.new.items stamp)) }
        ensures none { IfOk result (λ found. IfNone found (is_some self.old.start ≡ true
            → AreEarly self.old.given self.old.early.items)) }
        ensures lost { OnErr result (LosesDue self.old self.new output.old.items output.new.items) }
        ensures begun { IfOk result (λ found. IfSome found (λ _. is_some self.old.start ≡ true)) }
        ensures same { IfOk result (λ found. IfNone found (self.new ≡ self.old)) }
        ensures nothing { IfOk result
            (λ found. IfNone found (output.new.items ≡ output.old.items)) }
    {
        if self.start.is_none() {
            return Ok(None);
        }
        let Some(at) = self.due() else {
            return Ok(None);
        };
        let early = self.early.remove(at);
        self.append(early.place, early.octets.as_slice(), output)?;
        Ok(Some(early.stamp))
    }

    /// The place of the octet with this number, the nearest one to the next octet's.
    fn place(&self, number: u32) -> u64
        ensures { result ≡ place_in self.now number }
    {
        match self.next {
            Some(next) => place_of(next, self.given, number),
            None => self.given,
        }
    }

    /// The same; the first number that comes is that of the next octet.
    fn locate(&mut self, number: u32) -> u64
        ensures place { result ≡ place_in self.old number }
        ensures next { self.new.next ≡ known_next self.old.next number }
        ensures given { self.new.given ≡ self.old.given }
        ensures start { self.new.start ≡ self.old.start }
        ensures early { self.new.early ≡ self.old.early }
    {
        let place = self.place(number);
        if self.next.is_none() {
            self.next = Some(number);
        }
        place
    }

    /// Takes a segment whose first octet has this number, and which came at this time. Octets that are next are appended to the
    /// output, but for those that were given before; others wait. While it is not known which octet is the first of its direction,
    /// all wait.
    pub fn take(
        &mut self,
        alloc: A,
        stamp: Option<Stamp>,
        sequence: u32,
        octets: &[u8],
        output: &mut Vec<u8, A>,
    ) -> Result<(), AllocError>
        ensures octets { is_due self.old sequence ≡ true
            → OnOk result (output.new.items ≡ output.old.items
            ++ added_by self.old sequence octets.now) }
        ensures given { is_due self.old sequence ≡ true
            → OnOk result (self.new.given ≡ given_more self.old.given
            (length (added_by self.old sequence octets.now))) }
        ensures next { is_due self.old sequence ≡ true
            → OnOk result (self.new.next ≡ next_more (known_next self.old.next sequence)
            (length (added_by self.old sequence octets.now))) }
        ensures others { is_due self.old sequence ≡ true → self.new.early ≡ self.old.early }
        ensures nothing { is_due self.old sequence ≡ false → output.new.items ≡ output.old.items }
        ensures same { is_due self.old sequence ≡ false → self.new.given ≡ self.old.given }
        ensures known { is_due self.old sequence ≡ false
            → self.new.next ≡ known_next self.old.next sequence }
        ensures waits { is_due self.old sequence ≡ false → 0 < length octets.now
            → OnOk result (Waits self.old.early.items self.new.early.items
            (place_in self.old sequence) stamp octets.now) }
        ensures no_octets { is_due self.old sequence ≡ false → octets.now ≡ []
            → self.new.early ≡ self.old.early }
        ensures refused { OnErr result (output.new.items ≡ output.old.items) }
        ensures stays { OnErr result (self.new.given ≡ self.old.given) }
        ensures still { OnErr result (self.new.next ≡ known_next self.old.next sequence) }
        ensures kept { OnErr result (self.new.early.items ≡ self.old.early.items) }
        ensures start { self.new.start ≡ self.old.start }
    {
        let place = self.locate(sequence);
        if self.start.is_some() && place <= self.given {
            return self.append(place, octets, output);
        }
        if octets.is_empty() {
            return Ok(());
        }
        let octets = Vec::from_slice(alloc, octets)?;
        self.early.push(Early {
            place,
            stamp,
            octets,
        })?;
        Ok(())
    }

    /// Whether as many segments wait as may.
    pub fn is_full(&self) -> bool
        ensures { result ≡ nat_le MOST_EARLY (length self.now.early.items) }
    {
        self.early.len() >= MOST_EARLY
    }

    /// Whether a segment waits.
    pub fn is_waiting(&self) -> bool
        ensures { result ≡ nat_lt 0 (length self.now.early.items) }
    {
        !self.early.is_empty()
    }

    /// Whether a segment waits that the other end has taken, which has said that it awaits this number: what is in front of that
    /// segment comes no more, or is not in the capture.
    pub fn is_acknowledged(&self, number: u32) -> bool
        ensures { result ≡ nat_lt (first_place self.now.early.items) (place_in self.now number) }
    {
        first_place(self.early.as_slice()) < self.place(number)
    }

    /// How many of `count` octets from this number on come before the first ones of this direction.
    pub fn late(&self, sequence: u32, count: usize) -> u64
        ensures { result ≡ late_of self.now.start (place_in self.now sequence) count }
    {
        match self.start {
            Some(start) => start.saturating_sub(self.place(sequence)).min(count as u64),
            None => 0,
        }
    }

    /// The next octet is the one at this place.
    fn move_to(&mut self, place: u64)
        ensures given { self.new.given ≡ place }
        ensures next { self.new.next ≡ next_at self.old.next self.old.given place }
        ensures start { self.new.start ≡ self.old.start }
        ensures early { self.new.early ≡ self.old.early }
    {
        self.next = match self.next {
            Some(next) if place < self.given => Some(number_before(next, self.given - place)),
            Some(next) => Some(number_behind(next, place - self.given)),
            None => None,
        };
        self.given = place;
    }

    /// Goes on at the first waiting segment, without the octets before it, and returns how many are missing: none if it is the
    /// first one of its direction.
    pub fn resume(&mut self) -> u64
        ensures given { self.new.given ≡ resumed_at self.old.start self.old.given self.old.early.items }
        ensures next { 0 < length self.old.early.items
            → self.new.next ≡ next_at self.old.next self.old.given self.new.given }
        ensures nothing { self.old.early.items ≡ [] → self.new ≡ self.old }
        ensures missing { result ≡ missing_at self.old.start self.old.given self.old.early.items }
        ensures start { self.new.start ≡ resumed_start self.old.start self.new.given self.old.early.items }
        ensures early { self.new.early ≡ self.old.early }
    {
        if self.early.is_empty() {
            return 0;
        }
        let first = first_place(self.early.as_slice());
        match self.start {
            None => {
                self.move_to(first);
                self.start = Some(first);
                0
            }
            Some(_) => {
                let missing = first.saturating_sub(self.given);
                self.move_to(first.max(self.given));
                missing
            }
        }
    }
}
