//! The first contents of a file.
ghost use Rattle.std.specs.Prelude.{◌≡◌, ◌≢◌, ◌↔◌, length, true, Err, IfOk, OnOk, IsTrue};
ghost use Rattle.dlms_pages.specs.Device.{Goes, Rose};
ghost use Rattle.dlms_pages.specs.Stops.{IsFixed};
ghost use Rattle.dlms_counters.specs.Create.{Begins, IsUnused};
ghost use Rattle.dlms_counters.specs.Writing.{GoesOn, IsSettled, Spares};

use crate::counters::Counters;
use crate::fault::CreateFault;
use crate::find::{is_blank, settle};
use crate::put::put;
use crate::slot::slot_of;
use dlms_pages::{DeviceFault, Pages};

/// Syncs a device, and returns whether both pages hold nothing.
fn is_unused<P: Pages>(device: &mut P) -> Result<bool, DeviceFault>
    requires { length (P.view device.old).seen ≡ 2 }
    ensures goes { Goes (P.view device.old) (P.view device.new) result }
    ensures unused { (P.view device.old).honest ≡ true
        → IfOk result (λ unused. IsTrue unused ↔ IsUnused (P.view device.old).seen) }
    ensures fixed { (P.view device.old).honest ≡ true
        → OnOk result (IsFixed (P.view device.new) (P.view device.old).seen) }
    ensures spares { (P.view device.old).honest ≡ true
        → Spares (P.view device.old) (P.view device.new) }
{
    let (first, second) = settle(device)?;
    Ok(is_blank(&first) && is_blank(&second))
}

/// Writes the first contents.
pub fn begin<P: Pages>(device: &mut P, first: &Counters) -> Result<(), CreateFault>
    requires two { length (P.view device.old).seen ≡ 2 }
    requires turn { first.now.sequence ≡ 1 }
    ensures later { GoesOn (P.view device.old) (P.view device.new) }
    ensures size { result ≢ Err CreateFault.Size }
    ensures device { result ≡ Err CreateFault.Device
        → Rose (P.view device.old).faults (P.view device.new).faults }
    ensures unused { (P.view device.old).honest ≡ true
        → OnOk result (IsUnused (P.view device.old).seen) }
    ensures occupied { (P.view device.old).honest ≡ true → result ≡ Err CreateFault.Occupied
        → (IsUnused (P.view device.old).seen → ⊥) × Spares (P.view device.old) (P.view device.new) }
    ensures settled { (P.view device.old).honest ≡ true
        → OnOk result (IsSettled (P.view device.new) first.now) }
    ensures begins { (P.view device.old).honest ≡ true
        → Begins first.now (P.view device.old) (P.view device.new) }
{
    let unused = is_unused(device)?;
    if !unused {
        return Err(CreateFault::Occupied);
    }
    let page = slot_of(first);
    put(device, 1, &page)?;
    Ok(())
}
