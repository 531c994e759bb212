//! Requests on a meter whose heap has little left: each growth is refused in turn.

use crate::client::{associated, exchange};
use crate::hostile::life::MemoryMeter;
use crate::seen::seen_in;
use crate::tally::{Tally, Verdict};
use dlms_frame::Client;
use dlms_meter::Meter;
use dlms_pages::MemoryPages;
use dlms_store::PAGES;
use linked_list_allocator::LocalHeap;
use std::alloc::{AllocError, Allocator, Global};

/// The heap of the meter, ample for every request.
const HEAP: usize = 1_048_576;

/// The seconds of a capture period, and the rows of a full buffer.
const PERIOD: u32 = 900;

pub const ROWS: u32 = 960;

/// A request, and what its answer is.
pub struct Asked {
    pub client: Client,
    pub apdu: &'static [u8],
    /// The beginning of the answer with all memory.
    pub given: &'static [u8],
    /// The answers without memory; none if the request needs none.
    pub refused: &'static [&'static [u8]],
    /// How many bytes more are left in each case than in the one before, and how many cases there are.
    pub step: usize,
    pub cases: usize,
}

/// Temporary failure of a GET, and the exception for want of memory.
const TEMPORARY: &[u8] = &[0xc4, 0x01, 0xc1, 0x01, 0x02];

const EXCEPTION: &[u8] = &[0xd8, 0x01, 0x03];

/// A value, and a first block of one.
const WHOLE: &[u8] = &[0xc4, 0x01, 0xc1, 0x00];

const BLOCK: &[u8] = &[0xc4, 0x02, 0xc1, 0x00, 0x00, 0x00, 0x00, 0x01, 0x00];

/// GET of the first register, which is the smallest value.
pub const REGISTER: Asked = Asked {
    client: Client::Public,
    apdu: &[0xc0, 0x01, 0xc1, 0, 3, 1, 0, 1, 8, 0, 255, 2, 0],
    given: WHOLE,
    refused: &[TEMPORARY],
    step: 16,
    cases: 16,
};

/// GET of the object list.
pub const LIST: Asked = Asked {
    client: Client::Public,
    apdu: &[0xc0, 0x01, 0xc1, 0, 15, 0, 0, 40, 0, 0, 255, 2, 0],
    given: BLOCK,
    refused: &[TEMPORARY],
    step: 16,
    cases: 1024,
};

/// GET of the columns of the load profile.
pub const COLUMNS: Asked = Asked {
    client: Client::Public,
    apdu: &[0xc0, 0x01, 0xc1, 0, 7, 1, 0, 99, 1, 0, 255, 3, 0],
    given: WHOLE,
    refused: &[TEMPORARY],
    step: 16,
    cases: 256,
};

/// GET of the longest text.
pub const TEXT: Asked = Asked {
    client: Client::Public,
    apdu: &[0xc0, 0x01, 0xc1, 0, 1, 0, 0, 96, 1, 1, 255, 2, 0],
    given: &[0xc4, 0x01, 0xc1, 0x00, 0x09, 0x81, 0xf0],
    refused: &[TEMPORARY],
    step: 16,
    cases: 64,
};

/// GET of the rows from the first second that the clock has to the last one: 960 of them.
pub const ALL_ROWS: Asked = Asked {
    client: Client::Management,
    apdu: &[
        0xc0, 0x01, 0xc1, 0, 7, 1, 0, 99, 1, 0, 255, 2, 1, 1, 2, 4, 2, 4, 0x12, 0, 8, 9, 6, 0, 0,
        1, 0, 0, 255, 0x0f, 2, 0x12, 0, 0, 9, 12, 0x07, 0xd0, 1, 1, 6, 0, 0, 0, 0, 0, 0, 0, 9, 12,
        0x08, 0x33, 12, 31, 4, 23, 59, 59, 0, 0, 0, 0, 1, 0,
    ],
    given: BLOCK,
    refused: &[TEMPORARY, EXCEPTION],
    step: 256,
    cases: 1280,
};

/// The same of one second's row, 2000-01-01 00:30:00, in a full buffer.
pub const ONE_ROW: Asked = Asked {
    client: Client::Management,
    apdu: &[
        0xc0, 0x01, 0xc1, 0, 7, 1, 0, 99, 1, 0, 255, 2, 1, 1, 2, 4, 2, 4, 0x12, 0, 8, 9, 6, 0, 0,
        1, 0, 0, 255, 0x0f, 2, 0x12, 0, 0, 9, 12, 0x07, 0xd0, 1, 1, 6, 0, 30, 0, 0, 0, 0, 0, 9, 12,
        0x07, 0xd0, 1, 1, 6, 0, 30, 0, 0, 0, 0, 0, 1, 0,
    ],
    given: &[0xc4, 0x01, 0xc1, 0x00, 1, 1],
    refused: &[TEMPORARY, EXCEPTION],
    step: 16,
    cases: 128,
};

/// SET of the text.
pub const SET_TEXT: Asked = Asked {
    client: Client::Management,
    apdu: &[
        0xc1, 0x01, 0xc1, 0, 1, 0, 0, 96, 1, 1, 255, 2, 0, 0x09, 3, b'a', b'b', b'c',
    ],
    given: &[0xc5, 0x01, 0xc1, 0x00],
    refused: &[EXCEPTION],
    step: 16,
    cases: 16,
};

/// GET of 1.0.9.8.0.255, which no object has: result 4, whatever memory is there.
pub const UNKNOWN: Asked = Asked {
    client: Client::Public,
    apdu: &[0xc0, 0x01, 0xc1, 0, 3, 1, 0, 9, 8, 0, 255, 2, 0],
    given: &[0xc4, 0x01, 0xc1, 0x01, 0x04],
    refused: &[],
    step: 16,
    cases: 16,
};

/// SET of the longest text.
fn sets_longest_text<A: Allocator + Copy>(meter: &mut MemoryMeter<A>) -> bool {
    let mut request = [0x41u8; 256];
    let head = [
        0xc1, 0x01, 0xc1, 0, 1, 0, 0, 96, 1, 1, 255, 2, 0, 0x09, 0x81, 240,
    ];
    for (to, from) in request.iter_mut().zip(head) {
        *to = from;
    }
    let Some(mut link) = associated(meter, Client::Management) else {
        return false;
    };
    match exchange(meter, &mut link, &request) {
        Some(answer) => answer.as_slice() == [0xc5, 0x01, 0xc1, 0x00].as_slice(),
        None => false,
    }
}

/// A meter with this many rows and the longest text, which takes its memory from a heap; none if it can't be made.
pub fn filled<A: Allocator + Copy>(
    alloc: Global,
    heap: A,
    rows: u32,
) -> Result<Option<MemoryMeter<A>>, AllocError> {
    let Ok(mut meter) = Meter::format(heap, MemoryPages::new(alloc, PAGES)?) else {
        return Ok(None);
    };
    for period in 1..=rows {
        if meter.moment(period.saturating_mul(PERIOD)).is_err() {
            return Ok(None);
        }
    }
    let is_set = sets_longest_text(&mut meter);
    Ok(is_set.then_some(meter))
}

/// The outcome of a request.
#[derive(Clone, Copy, PartialEq, Eq)]
pub enum Ended {
    Given,
    Refused,
    Otherwise,
}

pub fn ended_by(asked: &Asked, answer: &[u8]) -> Ended {
    if answer.starts_with(asked.given) {
        return Ended::Given;
    }
    for refused in asked.refused {
        if answer == *refused {
            return Ended::Refused;
        }
    }
    Ended::Otherwise
}

/// A request in an association, with this many bytes left of the heap.
fn asked_with(
    heap: &LocalHeap,
    meter: &mut MemoryMeter<&LocalHeap>,
    asked: &Asked,
    left: usize,
) -> Ended {
    let Some(mut link) = associated(meter, asked.client) else {
        return Ended::Otherwise;
    };
    let seen = seen_in(meter);
    let taken = heap.free().saturating_sub(left);
    let Ok(ballast) = Vec::<u8, &LocalHeap>::with_capacity(heap, taken) else {
        return Ended::Otherwise;
    };
    let answer = exchange(meter, &mut link, asked.apdu);
    drop(ballast);
    match answer {
        None => Ended::Otherwise,
        Some(answer) => match ended_by(asked, answer.as_slice()) {
            Ended::Refused if seen_in(meter) != seen => Ended::Otherwise,
            ended => ended,
        },
    }
}

/// Whether it ended as it may: with little left it is refused, if it needs memory at all, and with most left it is given.
pub fn is_right(asked: &Asked, case: usize, cases: usize, ended: Ended) -> bool {
    match ended {
        Ended::Given => asked.refused.is_empty() || case > 0,
        Ended::Refused => case.saturating_add(1) < cases,
        Ended::Otherwise => false,
    }
}

/// A request on heaps that have ever more left, beside a full buffer: how many were refused is noted.
pub fn refused_in_turn(alloc: Global, asked: &Asked) -> Result<Tally, AllocError> {
    let mut tally = Tally::new();
    let heap = LocalHeap::new(alloc, HEAP)?;
    let Some(mut meter) = filled(alloc, &heap, ROWS)? else {
        return Ok(tally);
    };
    let _link = associated(&mut meter, asked.client);
    let used = heap.used();
    for case in 0..asked.cases {
        let ended = asked_with(&heap, &mut meter, asked, case.saturating_mul(asked.step));
        let is_up = associated(&mut meter, asked.client).is_some();
        tally.count(Verdict {
            is_noted: ended == Ended::Refused,
            is_right: is_right(asked, case, asked.cases, ended) && is_up && heap.used() == used,
        });
    }
    Ok(tally)
}
