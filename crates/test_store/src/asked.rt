//! Calls of a device, and the expected outcome of each.

use crate::report::Report;
use dlms_pages::{DeviceFault, PageRead, Pages};

/// A call of a device.
#[derive(Clone, Copy, Debug)]
pub enum Ask {
    /// How many pages it has.
    Count,
    /// How many faults there were.
    Faults,
    /// Reads a page.
    Get(u16),
    /// Fills a page with a byte.
    Put(u16, u8),
    Sync,
}

/// The outcome of a call.
#[derive(Clone, Copy, Debug, PartialEq, Eq)]
pub enum Came {
    Number(u64),
    /// A page that is full of this byte.
    Full(u8),
    /// A page of several bytes.
    Mixed,
    Damaged,
    Done,
    Fault,
    /// The device has no such page, and was not asked.
    NoPage,
}

/// The outcome of a read by its page.
fn came_of_page(page: &PageRead) -> Came {
    match page {
        PageRead::Content(bytes) if *bytes == [bytes[0]; 512] => Came::Full(bytes[0]),
        PageRead::Content(_) => Came::Mixed,
        PageRead::Damaged => Came::Damaged,
    }
}

/// The outcome of reading a page.
pub fn get<P: Pages>(device: &mut P, index: u16) -> Came {
    if device.count() <= index {
        return Came::NoPage;
    }
    match device.read(index) {
        Ok(page) => came_of_page(&page),
        Err(DeviceFault) => Came::Fault,
    }
}

/// The outcome of a call without a result.
fn came_of_call(ended: Result<(), DeviceFault>) -> Came {
    match ended {
        Ok(()) => Came::Done,
        Err(DeviceFault) => Came::Fault,
    }
}

/// Fills a page with a byte.
fn put<P: Pages>(device: &mut P, index: u16, byte: u8) -> Came {
    if device.count() <= index {
        return Came::NoPage;
    }
    came_of_call(device.write(index, &[byte; 512]))
}

/// Makes a call.
pub fn asked<P: Pages>(device: &mut P, ask: Ask) -> Came {
    match ask {
        Ask::Count => Came::Number(u64::from(device.count())),
        Ask::Faults => Came::Number(device.faults()),
        Ask::Get(index) => get(device, index),
        Ask::Put(index, byte) => put(device, index, byte),
        Ask::Sync => came_of_call(device.sync()),
    }
}

/// Makes the calls, and compares what comes of each.
pub fn play<P: Pages>(
    report: &mut Report<'_>,
    name: &'static str,
    device: &mut P,
    calls: &[(Ask, Came)],
) {
    for (ask, came) in calls {
        report.compare((name, *ask), asked(device, *ask), *came);
    }
}
