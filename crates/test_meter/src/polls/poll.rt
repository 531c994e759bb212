//! One poll of a meter, frame by frame.

ghost use Rattle.std.specs.Prelude.{◌≤◌, IfSome};

use crate::client::reply_to;
use crate::plan::managements_plan;
use dlms_data::LAST_SECOND;
use dlms_headend::{Columns, PollStep, Poller};
use dlms_meter::Meter;
use dlms_pages::MemoryPages;
use std::alloc::Global;

/// A meter over pages in memory.
pub type MemoryMeter = Meter<MemoryPages<Global>, Global>;

/// The most frames of a poll.
const FRAMES: u16 = 400;

/// A finished poll, from a second of the clock on; none if it fails.
pub fn polled(meter: &mut MemoryMeter, after: Option<u32>, alloc: Global) -> Option<Poller>
    requires { IfSome after (λ second. second ≤ LAST_SECOND) }
{
    let mut poller = Poller::new(alloc, managements_plan(after, Columns::Asked));
    let mut frame = poller.next()?;
    for _ in 0..FRAMES {
        let reply = reply_to(meter, &frame)?;
        match poller.on(&reply.lent()) {
            Ok(PollStep::Send(next)) => frame = next,
            Ok(PollStep::Done) => return Some(poller),
            _ => return None,
        }
    }
    None
}
