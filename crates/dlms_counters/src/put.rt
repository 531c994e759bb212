//! Contents written into a slot, and kept through a stop.
ghost use Rattle.std.specs.Prelude.{◌≡◌, ◌<◌, ◌+◌, ◌%◌, length, true};
ghost use Rattle.dlms_pages.specs.Device.{Goes};
ghost use Rattle.dlms_counters.specs.Slot.{CounterState};
ghost use Rattle.dlms_counters.specs.Writing.{IsSettled, Puts, Stores};

use crate::counters::Counters;
use crate::slot::slot_of;
use dlms_pages::{DeviceFault, PAGE_BYTES, Pages};

/// Writes a page and syncs.
pub fn put<P: Pages>(
    device: &mut P,
    index: u16,
    bytes: &[u8; PAGE_BYTES],
) -> Result<(), DeviceFault>
    requires { index < length (P.view device.old).seen }
    ensures goes { Goes (P.view device.old) (P.view device.new) result }
    ensures puts { (P.view device.old).honest ≡ true
        → Puts index bytes.now (P.view device.old) (P.view device.new) result }
{
    device.write(index, bytes)?;
    device.sync()
}

/// The place of contents: slots are written in turn.
fn place_of(counters: &Counters) -> u16
    ensures value { result ≡ counters.now.sequence % 2 }
    ensures within { result < 2 }
{
    (counters.sequence % 2) as u16
}

/// Writes the next contents into the slot that does not count, and syncs.
pub fn store<P: Pages>(device: &mut P, next: &Counters) -> Result<(), DeviceFault>
    requires { length (P.view device.old).seen ≡ 2 }
    ensures goes { Goes (P.view device.old) (P.view device.new) result }
    ensures stores { (c : CounterState) → IsSettled (P.view device.old) c
        → next.now.sequence ≡ c.sequence + 1
        → Stores c next.now (P.view device.old) (P.view device.new) result }
{
    let page = slot_of(next);
    let place = place_of(next);
    put(device, place, &page)
}
