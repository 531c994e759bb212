//! The whole meter on one heap of a fixed size: it is made, it captures 960 rows, two clients read them in blocks at once while the
//! third has a transfer open too, and it is recovered.

ghost use Rattle.std.specs.Prelude.{◌≡◌, None};

use crate::client::{associated, exchange, reply_to};
use crate::hostile::polls::{are_captures, meter_with};
use crate::plan::managements_plan;
use crate::seen::seen_in;
use arrayvec::ArrayVec;
use dlms_frame::{Client, SentFrame};
use dlms_headend::{Columns, Plan, PollStep, Poller};
use dlms_link::ClientLink;
use dlms_meter::Meter;
use dlms_pages::{MemoryPages, Pages};
use dlms_store::PAGES;
use linked_list_allocator::LocalHeap;
use std::alloc::{AllocError, Allocator, Global};

/// The rows of a full buffer.
const ROWS: u32 = 960;

/// GET of the object list, and of its second block.
const GET_LIST: [u8; 13] = [0xc0, 0x01, 0xc1, 0, 15, 0, 0, 40, 0, 0, 255, 2, 0];

const GET_SECOND: [u8; 7] = [0xc0, 0x02, 0xc1, 0, 0, 0, 1];

/// Whether the public client is given this block of the object list.
fn is_given<P: Pages + Drop, A: Allocator + Copy>(
    meter: &mut Meter<P, A>,
    link: &mut ClientLink,
    request: &[u8],
    number: u8,
) -> bool {
    match exchange(meter, link, request) {
        Some(answer) => {
            matches!(answer.as_slice(), [0xc4, 0x02, _, _, 0, 0, 0, last, 0, ..] if *last == number)
        }
        None => false,
    }
}

/// The reader's first secret.
const READERS_SECRET: &[u8] = b"23456789";

/// The reader's plan, with its first secret.
fn readers_plan() -> Plan
    ensures second { result.after ≡ None }
    ensures whole { result.until ≡ None }
{
    let mut secret = ArrayVec::new();
    let _fits = secret.try_extend_from_slice(READERS_SECRET);
    Plan {
        client: Client::Reader,
        secret,
        after: None,
        until: None,
        columns: Columns::Trusted,
    }
}

/// A poll in progress, and the frame that it sends next; none if it is done. The head end has its own memory.
#[derive(Drop)]
struct Polling {
    poller: Poller,
    next: Option<SentFrame>,
}

impl Polling {
    fn new(alloc: Global, plan: Plan) -> Polling
        requires second { plan.after ≡ None }
        requires whole { plan.until ≡ None }
    {
        let mut poller = Poller::new(alloc, plan);
        let next = poller.next();
        Polling { poller, next }
    }

    /// Sends the next frame, and takes its reply. Says whether the poll is well.
    fn go_on<P: Pages + Drop, A: Allocator + Copy>(&mut self, meter: &mut Meter<P, A>) -> bool {
        let Some(frame) = self.next.take() else {
            return true;
        };
        let Some(reply) = reply_to(meter, &frame) else {
            return false;
        };
        match self.poller.on(&reply.lent()) {
            Ok(PollStep::Send(next)) => {
                self.next = Some(next);
                true
            }
            Ok(PollStep::Done) => true,
            _ => false,
        }
    }

    /// Whether it is done, with this many rows.
    fn has(&self, rows: usize) -> bool {
        self.next.is_none() && are_captures(self.poller.rows(), rows)
    }
}

/// Whether management and the reader poll this many rows in blocks, a frame of the one and then one of the other.
fn are_polled<P: Pages + Drop, A: Allocator + Copy>(
    alloc: Global,
    meter: &mut Meter<P, A>,
    rows: usize,
) -> bool {
    let mut managements = Polling::new(alloc, managements_plan(None, Columns::Trusted));
    let mut readers = Polling::new(alloc, readers_plan());
    for _ in 0..400u16 {
        if !managements.go_on(meter) || !readers.go_on(meter) {
            return false;
        }
    }
    managements.has(rows) && readers.has(rows)
}

/// Whether all clients are served at once: the two polls stand between two blocks of the public client's transfer.
fn serves_all<P: Pages + Drop, A: Allocator + Copy>(
    alloc: Global,
    meter: &mut Meter<P, A>,
) -> bool {
    let Some(mut link) = associated(meter, Client::Public) else {
        return false;
    };
    is_given(meter, &mut link, &GET_LIST, 1)
        && are_polled(alloc, meter, ROWS as usize)
        && is_given(meter, &mut link, &GET_SECOND, 2)
}

/// Whether a meter over this device, with memory from this allocator, does all that, and is found again after its close.
fn lives<P: Pages + Drop, A: Allocator + Copy>(alloc: Global, own: A, device: P) -> bool {
    let Some(mut meter) = meter_with(own, device, ROWS) else {
        return false;
    };
    let is_served = serves_all(alloc, &mut meter);
    let seen = seen_in(&meter);
    match Meter::recover(own, meter.close()) {
        Ok(meter) => is_served && seen_in(&meter) == seen,
        Err(_) => false,
    }
}

/// Whether a heap of this many bytes suffices for a meter whose device has its own memory.
pub fn suffices(alloc: Global, size: usize) -> Result<bool, AllocError> {
    let heap = LocalHeap::new(alloc, size)?;
    let device = MemoryPages::new(alloc, PAGES)?;
    Ok(lives(alloc, &heap, device))
}

/// Whether a heap of this many bytes suffices for a meter and the pages of its device.
pub fn suffices_with_pages(alloc: Global, size: usize) -> Result<bool, AllocError> {
    let heap = LocalHeap::new(alloc, size)?;
    match MemoryPages::new(&heap, PAGES) {
        Ok(device) => Ok(lives(alloc, &heap, device)),
        Err(_) => Ok(false),
    }
}
