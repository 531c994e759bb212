//! Each frame of a talk with one byte changed to each other value, and its checks made anew: what a hostile client sends.

use crate::hostile::garbled::{Bytes, are_found_behind, changed, is_left_alone};
use crate::hostile::life::{counted, is_talked, reply_to};
use crate::hostile::stretch::{address_len, check_of, header_len, is_frame, next_frame};
use crate::hostile::talks::Step;
use crate::seen::seen_in;
use crate::tally::{Tally, Verdict};
use std::alloc::{AllocError, Global};

/// The bytes of the meter's address in each of its forms, and those of the clients.
const METER: [&[u8]; 3] = [&[0x03], &[0x02, 0x23], &[0x00, 0x02, 0x00, 0x23]];

const CLIENTS: [&[u8]; 3] = [&[0x21], &[0x03], &[0x05]];

/// The poll bit of a control byte.
const POLL: u8 = 0x10;

/// The addresses of a frame, the bytes from its control byte on, and those after the header's check.
#[derive(Clone, Copy)]
struct Parts<'a> {
    destination: &'a [u8],
    source: &'a [u8],
    control: u8,
    information: &'a [u8],
}

/// The parts of bytes that are a frame.
fn parts_of(frame: &[u8]) -> Option<Parts<'_>> {
    let body = frame.get(1..frame.len().checked_sub(1)?)?;
    let destination = address_len(body.get(2..)?)?;
    let source = address_len(body.get(2 + destination..)?)?;
    let header = header_len(body)?;
    Some(Parts {
        destination: body.get(2..2 + destination)?,
        source: body.get(2 + destination..2 + destination + source)?,
        control: *body.get(2 + destination + source)?,
        information: body.get(header + 2..).unwrap_or(&[]),
    })
}

/// Puts the check of the bytes from the first one to a place after them.
fn put_check(bytes: &mut Bytes, place: usize) {
    let check = match bytes.as_slice().get(1..place) {
        Some(checked) => check_of(checked).to_le_bytes(),
        None => return,
    };
    for (index, byte) in check.iter().enumerate() {
        if let Some(to) = bytes.as_mut_slice().get_mut(place.saturating_add(index)) {
            *to = *byte;
        }
    }
}

/// A frame with one byte changed, and its checks, in their places, computed again.
fn mended(frame: &[u8], place: usize, value: u8) -> Bytes {
    let mut bytes = changed(frame, place, value);
    let header = frame.get(1..).and_then(header_len).unwrap_or(0);
    put_check(&mut bytes, header.saturating_add(1));
    put_check(&mut bytes, frame.len().saturating_sub(3));
    bytes
}

/// Whether an answer says that a SET or an ACTION succeeded.
fn is_success(answer: &[u8]) -> bool {
    match answer {
        [0xe6, 0xe7, 0x00, 0xc5, 0x01, _, 0x00, ..] => true,
        [0xe6, 0xe7, 0x00, 0xc7, 0x01, _, 0x00, 0x00, ..] => true,
        _ => false,
    }
}

/// Whether a frame may be replied to, and the reply goes back to its sender.
fn is_lawful(frame: &[u8], reply: &[u8]) -> bool {
    match (parts_of(frame), parts_of(reply)) {
        (Some(asked), Some(replied)) => {
            is_frame(reply)
                && METER.contains(&asked.destination)
                && CLIENTS.contains(&asked.source)
                && asked.control & POLL != 0
                && replied.destination == asked.source
                && replied.source == asked.destination
        }
        _ => false,
    }
}

/// Whether a frame in place of one of a session's is replied to lawfully or not at all, changes nothing unless the reply says that
/// it did, and leaves a meter with which the whole session is possible.
fn is_endured(
    alloc: Global,
    talk: &[Step],
    place: usize,
    frame: &[u8],
) -> Result<bool, AllocError> {
    let Some(mut meter) = counted(alloc, alloc)? else {
        return Ok(false);
    };
    let is_led = is_talked(&mut meter, talk.get(..place).unwrap_or(&[]));
    let seen = seen_in(&meter);
    let (is_allowed, succeeds) = match reply_to(&mut meter, frame) {
        None => (true, false),
        Some(reply) => {
            let reply = reply.as_slice();
            let answer = parts_of(reply).is_some_and(|parts| is_success(parts.information));
            (is_lawful(frame, reply), answer)
        }
    };
    let is_kept = succeeds || seen_in(&meter) == seen;
    Ok(is_led && is_allowed && is_kept && is_talked(&mut meter, talk))
}

/// The outcome of a frame with one byte changed and its checks computed again.
fn judged(
    alloc: Global,
    talk: &[Step],
    place: usize,
    step: Step,
    bytes: &[u8],
) -> Result<Verdict, AllocError> {
    let has_frame = next_frame(bytes, 0).is_some();
    let is_right = if has_frame {
        is_endured(alloc, talk, place, bytes)?
    } else {
        is_left_alone(alloc, talk, place, bytes)?
    };
    Ok(Verdict {
        is_noted: has_frame,
        is_right: is_right && are_found_behind(bytes, step.asks),
    })
}

/// Each frame of a talk with one byte changed and its checks made anew.
pub fn mended_changes(alloc: Global, talk: &[Step]) -> Result<Tally, AllocError> {
    let mut tally = Tally::new();
    for (place, step) in talk.iter().enumerate() {
        for (index, byte) in step.asks.iter().enumerate() {
            for value in 0..=u8::MAX {
                let bytes = mended(step.asks, index, value);
                if value != *byte && bytes.as_slice() != step.asks {
                    tally.count(judged(alloc, talk, place, *step, bytes.as_slice())?);
                }
            }
        }
    }
    Ok(tally)
}
