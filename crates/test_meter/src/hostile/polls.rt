//! A poller and a readings file on heaps of rising sizes: each growth is refused in turn.

use crate::client::reply_to;
use crate::plan::managements_plan;
use crate::tally::{Tally, Verdict};
use dlms_frame::SentFrame;
use dlms_headend::{Columns, PollFault, PollStep, Poller, Readings, Row};
use dlms_meter::Meter;
use dlms_pages::{MemoryPages, Pages};
use dlms_store::PAGES;
use linked_list_allocator::LocalHeap;
use std::alloc::{AllocError, Allocator, Global};

/// The most frames of a poll.
const FRAMES: u16 = 400;

/// The seconds of a capture period.
const PERIOD: u32 = 900;

/// The row of the capture after a period, on a meter that counts nothing.
fn is_capture(period: usize, row: &Row) -> bool {
    row.clock as usize == period.saturating_mul(PERIOD as usize) && row.registers == [0; 3]
}

/// Whether rows are the captures after this many periods.
pub fn are_captures(rows: &[Row], count: usize) -> bool {
    let mut period = 0usize;
    for row in rows {
        period = period.saturating_add(1);
        if !is_capture(period, row) {
            return false;
        }
    }
    period == count
}

/// A meter with a capture after each of this many periods; none if it can't be made.
pub fn meter_with<P: Pages + Drop, A: Allocator + Copy>(
    alloc: A,
    device: P,
    periods: u32,
) -> Option<Meter<P, A>> {
    let Ok(mut meter) = Meter::format(alloc, device) else {
        return None;
    };
    for period in 1..=periods {
        if meter.moment(period.saturating_mul(PERIOD)).is_err() {
            return None;
        }
    }
    Some(meter)
}

/// A finished poll of this many rows, and the frames of the meter's replies; none if it was not finished.
fn polled(
    alloc: Global,
    periods: u32,
    replies: &mut Vec<SentFrame>,
) -> Result<Option<Poller>, AllocError> {
    let device = MemoryPages::new(alloc, PAGES)?;
    let Some(mut meter) = meter_with(alloc, device, periods) else {
        return Ok(None);
    };
    let mut poller = Poller::new(alloc, managements_plan(None, Columns::Trusted));
    let Some(mut frame) = poller.next() else {
        return Ok(None);
    };
    for _ in 0..FRAMES {
        let Some(reply) = reply_to(&mut meter, &frame) else {
            return Ok(None);
        };
        let step = poller.on(&reply.lent());
        replies.push(reply)?;
        match step {
            Ok(PollStep::Send(next)) => frame = next,
            Ok(PollStep::Done) => return Ok(Some(poller)),
            _ => return Ok(None),
        }
    }
    Ok(None)
}

/// The outcome of a poll.
#[derive(Clone, Copy, PartialEq, Eq)]
enum Ended {
    Done,
    Refused,
    Otherwise,
}

/// How a poll ends that is given these replies: done with its rows; or refused memory, without any, and so for good.
fn ended_by<A: Allocator + Copy>(
    poller: &mut Poller<A>,
    replies: &[SentFrame],
    rows: usize,
) -> Ended {
    if poller.next().is_none() {
        return Ended::Otherwise;
    }
    let mut is_refused = false;
    for reply in replies {
        match poller.on(&reply.lent()) {
            Ok(PollStep::Done) if !is_refused && are_captures(poller.rows(), rows) => {
                return Ended::Done;
            }
            Ok(PollStep::Send(_)) if !is_refused => {}
            Err(PollFault::Memory) => is_refused = true,
            _ => return Ended::Otherwise,
        }
    }
    if is_refused && poller.rows().is_empty() {
        Ended::Refused
    } else {
        Ended::Otherwise
    }
}

/// Polls of this many rows by pollers on heaps, each larger by a step from none on: notes how many were refused. One of no row
/// takes no memory.
pub fn polls(alloc: Global, rows: u32, step: usize, cases: usize) -> Result<Tally, AllocError> {
    let mut tally = Tally::new();
    let mut replies = Vec::new(alloc);
    let is_done = polled(alloc, rows, &mut replies)?.is_some();
    for case in 0..cases {
        let heap = LocalHeap::new(alloc, case.saturating_mul(step))?;
        let mut poller = Poller::new(&heap, managements_plan(None, Columns::Trusted));
        let ended = ended_by(&mut poller, replies.as_slice(), rows as usize);
        drop(poller);
        let is_right = match ended {
            Ended::Done => case > 0 || rows == 0,
            Ended::Refused => case.saturating_add(1) < cases,
            Ended::Otherwise => false,
        };
        tally.count(Verdict {
            is_noted: ended == Ended::Refused,
            is_right: is_done && is_right && heap.used() == 0,
        });
    }
    Ok(tally)
}

/// The longest line of a readings file.
const LINE: &str = "3155759999,4294967295,4294967295,4294967295\n";

/// A file of this many longest lines.
fn long_file(alloc: Global, lines: u32) -> Result<String, AllocError> {
    let mut text = String::new(alloc);
    for _ in 0..lines {
        text.push_str(LINE)?;
    }
    Ok(text)
}

/// Whether the text of a file is returned, if its memory is not refused: none if it is.
fn is_text<A: Allocator + Copy>(file: &Readings<A>, expected: &str) -> Option<bool> {
    match file.text() {
        Ok(text) => Some(text.as_str() == expected),
        Err(_) => None,
    }
}

/// The outcome of a file: each of its calls is answered, or refused.
fn read_on(heap: &LocalHeap, text: &str) -> Ended {
    match Readings::open(heap, text) {
        Ok(file) => match is_text(&file, text) {
            Some(true) => Ended::Done,
            Some(false) => Ended::Otherwise,
            None => Ended::Refused,
        },
        Err(dlms_headend::ReadingsFault::Memory) => Ended::Refused,
        Err(_) => Ended::Otherwise,
    }
}

/// The outcome of merging the rows of a poll into an empty file: all are in it, or none.
fn merged_on(heap: &LocalHeap, poller: &Poller) -> Ended {
    let rows = poller.rows();
    let Ok(mut file) = Readings::open(heap, "") else {
        return Ended::Otherwise;
    };
    match file.merge(rows) {
        Ok(count) if count == rows.len() && file.last() == rows.last().map(|row| row.clock) => {
            Ended::Done
        }
        Err(_) if file.last().is_none() && is_text(&file, "") == Some(true) => Ended::Refused,
        _ => Ended::Otherwise,
    }
}

/// Counts what came of a case.
fn count(tally: &mut Tally, ended: Ended, is_first: bool, is_last: bool) {
    tally.count(Verdict {
        is_noted: ended == Ended::Refused,
        is_right: match ended {
            Ended::Done => !is_first,
            Ended::Refused => !is_last,
            Ended::Otherwise => false,
        },
    });
}

/// A file of 960 longest lines, and 960 rows that are merged, on heaps each larger by a step.
pub fn files(alloc: Global, step: usize, cases: usize) -> Result<Tally, AllocError> {
    let mut tally = Tally::new();
    let text = long_file(alloc, 960)?;
    let Some(poller) = polled(alloc, 960, &mut Vec::new(alloc))? else {
        return Ok(tally);
    };
    for case in 0..cases {
        let heap = LocalHeap::new(alloc, case.saturating_mul(step))?;
        let (is_first, is_last) = (case == 0, case.saturating_add(1) == cases);
        count(&mut tally, read_on(&heap, text.as_str()), is_first, is_last);
        count(&mut tally, merged_on(&heap, &poller), is_first, is_last);
        if heap.used() != 0 {
            tally.differ = tally.differ.saturating_add(1);
        }
    }
    Ok(tally)
}
