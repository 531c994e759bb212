//! Each beginning of a talk's frames, and each of its frames with one byte changed to each other value, within the talk.

use crate::hostile::life::{counted, is_talked, reply_to};
use crate::hostile::stretch::next_frame;
use crate::hostile::talks::Step;
use crate::seen::seen_in;
use crate::tally::{Tally, Verdict};
use arrayvec::ArrayVec;
use dlms_frame::Deframer;
use std::alloc::{AllocError, Global};

/// A frame of a talk, or two.
pub type Bytes = ArrayVec<u8, 160>;

/// The bytes with one of them changed.
pub fn changed(bytes: &[u8], place: usize, value: u8) -> Bytes {
    let mut changed = ArrayVec::new();
    let _fits = changed.try_extend_from_slice(bytes);
    if let Some(byte) = changed.as_mut_slice().get_mut(place) {
        *byte = value;
    }
    changed
}

/// Whether a deframer finds exactly the frames in a stretch, each with its closing flag.
fn are_found(stretch: &[u8]) -> bool {
    let mut deframer = Deframer::new();
    let (mut taken, mut place) = (0usize, 0usize);
    for _ in 0..=stretch.len() {
        let rest = stretch.get(taken..).unwrap_or(&[]);
        let count = deframer.feed(rest);
        taken = taken.saturating_add(count);
        let (frame, begin, end) = match (deframer.frame(), next_frame(stretch, place)) {
            (None, None) => return count == rest.len(),
            (Some(frame), Some((begin, end))) => (frame.put(), begin, end),
            _ => return false,
        };
        let is_it = taken == end.saturating_add(1)
            && stretch
                .get(begin..taken)
                .is_some_and(|bytes| bytes == frame.as_slice());
        if !is_it {
            return false;
        }
        place = end;
    }
    false
}

/// Whether the frames are found in bytes, and in bytes followed by a whole frame.
pub fn are_found_behind(bytes: &[u8], whole: &[u8]) -> bool {
    let mut both: Bytes = ArrayVec::new();
    let fits = both.try_extend_from_slice(bytes).is_ok()
        && both.try_extend_from_slice(whole).is_ok();
    fits && are_found(bytes) && are_found(both.as_slice())
}

/// Whether bytes in the place of one of a talk's frames get no reply and change nothing, and the talk then goes on as if they
/// had not come.
pub fn is_left_alone(
    alloc: Global,
    talk: &[Step],
    place: usize,
    bytes: &[u8],
) -> Result<bool, AllocError> {
    let Some(mut meter) = counted(alloc, alloc)? else {
        return Ok(false);
    };
    let is_led = is_talked(&mut meter, talk.get(..place).unwrap_or(&[]));
    let seen = seen_in(&meter);
    let is_silent = reply_to(&mut meter, bytes).is_none() && seen_in(&meter) == seen;
    meter.idle();
    let goes_on = is_talked(&mut meter, talk.get(place..).unwrap_or(&[]));
    Ok(is_led && is_silent && goes_on)
}

/// The outcome of bytes in place of one of a session's frames.
fn judged(
    alloc: Global,
    talk: &[Step],
    place: usize,
    step: Step,
    bytes: &[u8],
) -> Result<Verdict, AllocError> {
    let has_frame = next_frame(bytes, 0).is_some();
    let is_found = are_found_behind(bytes, step.asks);
    Ok(Verdict {
        is_noted: has_frame,
        is_right: is_found && (has_frame || is_left_alone(alloc, talk, place, bytes)?),
    })
}

/// Each beginning of each frame of a talk.
pub fn beginnings(alloc: Global, talk: &[Step]) -> Result<Tally, AllocError> {
    let mut tally = Tally::new();
    for (place, step) in talk.iter().enumerate() {
        for len in 0..step.asks.len() {
            let bytes = step.asks.get(..len).unwrap_or(&[]);
            tally.count(judged(alloc, talk, place, *step, bytes)?);
        }
    }
    Ok(tally)
}

/// Each frame of a talk with one byte changed.
pub fn changes(alloc: Global, talk: &[Step]) -> Result<Tally, AllocError> {
    let mut tally = Tally::new();
    for (place, step) in talk.iter().enumerate() {
        for (index, byte) in step.asks.iter().enumerate() {
            for value in 0..=u8::MAX {
                if value != *byte {
                    let bytes = changed(step.asks, index, value);
                    tally.count(judged(alloc, talk, place, *step, bytes.as_slice())?);
                }
            }
        }
    }
    Ok(tally)
}
