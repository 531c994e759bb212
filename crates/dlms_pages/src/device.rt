//! A device of pages: what reads return, and what a stop may leave.
ghost use Rattle.std.specs.Prelude.{◌≡◌, ◌<◌, true, length};
ghost use Rattle.dlms_pages.specs.Device.{View, Goes, Reads, Writes, Syncs, Rules};

use thiserror::Error;

/// The bytes of a page.
pub const PAGE_BYTES: usize = 512;

/// The result of reading a page.
#[derive(Clone, Copy, Debug, PartialEq, Eq)]
pub enum PageRead {
    /// The 512 bytes that were written there.
    Content([u8; PAGE_BYTES]),
    /// The page was never written as a whole: a write was torn, or nothing has been written yet.
    Damaged,
}

/// The device failed.
#[derive(Clone, Copy, Debug, PartialEq, Eq, Error)]
#[error("device")]
pub struct DeviceFault;

/// A device of pages of 512 bytes.
///
/// What reads return and what a stop may leave is stated only for an honest device, one that keeps the disk rules. Everything else
/// is stated for every device.
pub trait Pages {
    /// The facts known about the device at this moment.
    ghost view: { Self → View };

    /// How many pages it has. That never changes.
    fn count(&self) -> u16
        ensures { result ≡ length (view self.now).seen };

    /// How many faults there were. At the greatest number the count stays.
    fn faults(&self) -> u64
        ensures { result ≡ (view self.now).faults };

    /// Reads a page.
    fn read(&mut self, index: u16) -> Result<PageRead, DeviceFault>
        requires { index < length (view self.old).seen }
        ensures goes { Goes (view self.old) (view self.new) result }
        ensures page { (view self.old).honest ≡ true
            → Reads index (view self.old) (view self.new) result };

    /// Writes a page. A stop before the next sync may undo it, or tear the page.
    fn write(&mut self, index: u16, bytes: &[u8; PAGE_BYTES]) -> Result<(), DeviceFault>
        requires { index < length (view self.old).seen }
        ensures goes { Goes (view self.old) (view self.new) result }
        ensures written { (view self.old).honest ≡ true
            → Writes index bytes.now (view self.old) (view self.new) result };

    /// Makes everything that was written outlast a stop.
    fn sync(&mut self) -> Result<(), DeviceFault>
        ensures goes { Goes (view self.old) (view self.new) result }
        ensures synced { (view self.old).honest ≡ true
            → Syncs (view self.old) (view self.new) result };

    /// The rules that hold at each moment.
    ghost rules: { (device : Self) → (view device).honest ≡ true → Rules (view device) };
}
