//! An instance of the laws: a run in memory, with a stop of the power.
ghost use Rattle.std.specs.Prelude.{◌≡◌, length, Some, IfSome};
ghost use Rattle.dlms_pages.specs.Memory.{view_of as memory_view};
ghost use Rattle.dlms_counters.specs.Fingerprint.{fingerprint_of};
ghost use Rattle.dlms_counters.specs.Instance.{instance_of};
ghost use Rattle.dlms_counters.specs.Writing.{IsSettled};

use crate::file::{CounterFile, SLOTS};
use crate::laws::open_fits_what_a_stop_left;
use dlms_pages::{MemoryPages, Pick};
use std::alloc::Allocator;

/// A new file in memory, a reservation of 1,000 counters, and counter 7 accepted from a peer; none without memory.
pub fn before_the_stop<A: Allocator + Copy>(
    alloc: A,
    own: &[u8; 8],
    key: &[u8; 16],
    peer: &[u8; 8],
) -> Option<MemoryPages<A>>
    ensures settled { IfSome result (λ pages. IsSettled (memory_view pages)
        (instance_of own.now (fingerprint_of own.now key.now) peer.now)) }
    ensures count { IfSome result (λ pages. length (memory_view pages).seen ≡ 2) }
{
    let Ok(device) = MemoryPages::new(alloc, SLOTS) else {
        return None;
    };
    let Ok(file) = CounterFile::create(device, own, key, 0) else {
        return None;
    };
    let mut file = file;
    let Ok(_end) = file.reserve(1000) else {
        return None;
    };
    let Ok(()) = file.accept(peer, 7) else {
        return None;
    };
    Some(file.into_device())
}

/// The power stops, whatever it leaves of the last writes, and the file is opened again: it has both numbers.
pub fn a_run_with_a_stop<A: Allocator + Copy>(
    alloc: A,
    own: &[u8; 8],
    key: &[u8; 16],
    peer: &[u8; 8],
    pick: Pick<'_>,
) -> Option<(u32, Option<u32>)>
    ensures { IfSome result (λ found. (found.0 ≡ 1000) × (found.1 ≡ Some 7)) }
{
    let Some(pages) = before_the_stop(alloc, own, key, peer) else {
        return None;
    };
    let device = pages.cut(pick);
    match open_fits_what_a_stop_left(device, own, key) {
        Ok(file) => Some((file.reserved(), file.accepted(peer))),
        Err(_) => None,
    }
}
