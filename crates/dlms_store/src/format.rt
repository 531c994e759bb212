//! A device made empty.
ghost use Rattle.std.specs.Prelude.{◌≡◌, ◌≤◌, ◌⊎◌, ◌↔◌, [], length, true, Err, IfErr, OnOk};
ghost use Rattle.dlms_pages.specs.Device.{Goes, Rose};
ghost use Rattle.dlms_state.specs.StateValue.{state_of};
ghost use Rattle.dlms_checkpoint.specs.Checkpoint.{checkpoint_bytes};
ghost use Rattle.dlms_store.specs.declared.layout.Slot.TheVariants as SlotOf;
ghost use Rattle.dlms_store.specs.Writing.{IsClear, IsFormatted, Leaves};
ghost use Rattle.dlms_store.specs.Later.{GoesOn};
ghost use Rattle.dlms_store.specs.Store.{IsTooSmall};
ghost use Rattle.dlms_store.specs.Image.{Stands};
ghost use Rattle.dlms_store.specs.Page.{present};
ghost use Rattle.dlms_checkpoint.specs.Bodies.{body_count};
ghost use Rattle.dlms_store.specs.declared.layout.TheConstants.{BODIES, PAGES};

use crate::fault::OpenFault;
use crate::layout::{PAGES, Slot};
use crate::put::put;
use crate::slot::put_bodies;
use dlms_checkpoint::Checkpoint;
use dlms_journal::{PageKind, page_of};
use dlms_pages::{DeviceFault, PAGE_BYTES, Pages};

/// Writes zeros to every page, and syncs.
pub(crate) fn clear<P: Pages>(device: &mut P) -> Result<(), DeviceFault>
    ensures goes { Goes (P.view device.old) (P.view device.new) result }
    ensures clear { (P.view device.old).honest ≡ true
        → OnOk result (Leaves (P.view device.new) IsClear) }
{
    for index in 0..device.count() {
        device.write(index, &[0; PAGE_BYTES])?;
    }
    device.sync()
}

/// Clears a device that has pages enough for a store.
pub(crate) fn make_clear<P: Pages>(device: &mut P) -> Result<(), OpenFault>
    ensures room { OnOk result (PAGES ≤ length (P.view device.new).seen) }
    ensures clear { (P.view device.old).honest ≡ true
        → OnOk result (Leaves (P.view device.new) IsClear) }
    ensures size { (result ≡ Err OpenFault.Size) ↔ IsTooSmall (P.view device.old) }
    ensures small { result ≡ Err OpenFault.Size → device.new ≡ device.old }
    ensures device { result ≡ Err OpenFault.Device
        → Rose (P.view device.old).faults (P.view device.new).faults }
    ensures later { GoesOn (P.view device.old) (P.view device.new) }
    ensures faults { IfErr result (λ fault. (fault ≡ OpenFault.Size) ⊎ (fault ≡ OpenFault.Device)) }
{
    let count = device.count();
    if count < PAGES {
        return Err(OpenFault::Size);
    }
    if let Err(fault) = clear(device) {
        return Err(fault.into());
    }
    Ok(())
}

/// Writes the first checkpoint of a device that was cleared: the bodies of the first slot, and its gate.
pub(crate) fn begin<P: Pages>(device: &mut P, bytes: &Checkpoint) -> Result<(), DeviceFault>
    requires room { PAGES ≤ length (P.view device.old).seen }
    requires few { body_count bytes.now ≤ BODIES }
    ensures goes { Goes (P.view device.old) (P.view device.new) result }
    ensures formatted { Leaves (P.view device.old) IsClear
        → OnOk result (Leaves (P.view device.new) IsFormatted) }
    ensures starts { bytes.now ≡ checkpoint_bytes (state_of []) → Leaves (P.view device.old) IsClear
        → OnOk result (Leaves (P.view device.new) (Stands SlotOf.First (present 1) [] [])) }
{
    let gate = Slot::First.gate();
    put_bodies(device, gate, 1, bytes)?;
    let open = page_of(PageKind::OpenGate, Slot::First.index(), 1, &[]);
    put(device, gate, &open)
}
