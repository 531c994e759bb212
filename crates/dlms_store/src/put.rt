//! A page written, and kept through a stop.
ghost use Rattle.std.specs.Prelude.{◌≡◌, ◌<◌, length, true};
ghost use Rattle.dlms_pages.specs.Device.{Goes};
ghost use Rattle.dlms_store.specs.Writing.{Puts};

use dlms_pages::{DeviceFault, PAGE_BYTES, Pages};

/// Writes a page and syncs.
pub(crate) fn put<P: Pages>(
    device: &mut P,
    index: u16,
    bytes: &[u8; PAGE_BYTES],
) -> Result<(), DeviceFault>
    requires { index < length (P.view device.old).seen }
    ensures goes { Goes (P.view device.old) (P.view device.new) result }
    ensures puts { (P.view device.old).honest ≡ true
        → Puts index bytes.now (P.view device.old) (P.view device.new) result }
{
    device.write(index, bytes)?;
    device.sync()
}
