//! A meter that has counted and captured.

use crate::hostile::talks::Step;
use dlms_meter::{Meter, Reply};
use dlms_pages::{MemoryPages, Pages};
use dlms_store::PAGES;
use std::alloc::{AllocError, Allocator, Global};

/// A meter over pages in memory.
pub type MemoryMeter<A = Global> = Meter<MemoryPages, A>;

/// A meter with forty-two pulses and one captured row; none if it can't be made.
pub fn counted<A: Allocator + Copy>(
    alloc: A,
    pages: Global,
) -> Result<Option<MemoryMeter<A>>, AllocError> {
    let Ok(mut meter) = Meter::format(alloc, MemoryPages::new(pages, PAGES)?) else {
        return Ok(None);
    };
    let is_counted = meter.pulses(0, 42).is_ok() && meter.moment(900).is_ok();
    Ok(is_counted.then_some(meter))
}

/// The first reply to bytes.
pub fn reply_to<P: Pages, A: Allocator + Copy>(
    meter: &mut Meter<P, A>,
    bytes: &[u8],
) -> Option<Reply> {
    let mut rest = bytes;
    for _ in bytes {
        let (taken, reply) = meter.feed(rest);
        if reply.is_some() {
            return reply;
        }
        rest = &rest[taken..];
    }
    None
}

/// Whether each step of a talk gets its reply.
pub fn is_talked<P: Pages, A: Allocator + Copy>(meter: &mut Meter<P, A>, talk: &[Step]) -> bool {
    for step in talk {
        match reply_to(meter, step.asks) {
            Some(reply) if reply.as_slice() == step.reply => {}
            _ => return false,
        }
    }
    true
}
