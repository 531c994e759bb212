//! The ring pages of a checkpoint, written.
ghost use Rattle.std.specs.Prelude.{◌≡◌, ◌≤◌, ◌/◌, ◌^◌, max, length, true};
ghost use Rattle.dlms_pages.specs.Device.{Goes};
ghost use Rattle.dlms_profile.specs.Rows.{first_number};
ghost use Rattle.dlms_checkpoint.specs.Checkpoint.{IsNamed};
ghost use Rattle.dlms_checkpoint.specs.declared.writing.TheConstants.{RING_ROWS};
ghost use Rattle.dlms_store.specs.Writing.{IsEachRingPage, PutsRing};
ghost use Rattle.dlms_store.specs.declared.layout.TheConstants.{PAGES};

use crate::layout::{RING, ring_index};
use dlms_checkpoint::{RING_ROWS, ring_page_of};
use dlms_journal::{PageKind, page_of};
use dlms_pages::{DeviceFault, Pages};
use dlms_state::State;
use std::alloc::Allocator;

/// The ring pages that a state's checkpoint names and an earlier one, before which this many rows were captured, does not: the
/// first of them, and the first after them.
pub(crate) fn fresh_pages<A: Allocator + Copy>(state: &State<A>, checkpointed: u128) -> (u64, u64)
    requires { checkpointed ≤ state.now.rows.next }
    ensures first { result.0 ≡ max (first_number state.now.rows) checkpointed / RING_ROWS }
    ensures behind { result.1 ≡ state.now.rows.next / RING_ROWS }
    ensures named { IsEachRingPage result.0 result.1 (IsNamed state.now.rows) }
    ensures numbers { state.now.rows.next ≤ 2 ^ 64 }
{
    let rows = RING_ROWS as u128;
    let behind = state.next_number() / rows;
    let first = state.first_number().max(checkpointed) / rows;
    (first as u64, behind as u64)
}

/// Writes these ring pages of a state one after another, then syncs. Does nothing if there are none.
pub(crate) fn put_rings<P: Pages, A: Allocator + Copy>(
    device: &mut P,
    state: &State<A>,
    first: u64,
    behind: u64,
) -> Result<(), DeviceFault>
    requires room { PAGES ≤ length (P.view device.old).seen }
    requires named { IsEachRingPage first behind (IsNamed state.now.rows) }
    ensures goes { Goes (P.view device.old) (P.view device.new) result }
    ensures puts { (P.view device.old).honest ≡ true
        → PutsRing first behind state.now (P.view device.old) (P.view device.new) result }
{
    if first >= behind {
        return Ok(());
    }
    state.has_events();
    for number in first..behind {
        let index = ring_index(number);
        let places = ring_page_of(state, number);
        let page = page_of(PageKind::Ring, index, number, places.as_slice());
        device.write(RING + index, &page)?;
    }
    device.sync()
}
