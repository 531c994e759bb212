//! Steps on a store and its device, and the expected outcome of each step.
//!
//! A store has 62 pages: a gate and two bodies from page 0 on, the same from page 3 on, 16 pages of the journal from page 6 on, and
//! 40 ring pages from page 22 on. A page begins with its kind (1 an open gate, 3 a body, 4 of the journal, 5 of the ring), the
//! version 2, its index (two bytes), the generation (eight bytes), the length of its payload (two bytes), and two zeros.

use crate::bytes::{Body, Bytes, Gate, Page};
use crate::stops::Left;
use dlms_state::Refused;
use dlms_store::{AddFault, OpenFault, PAGES, StoreFault};

/// The calls of a format: the 62 pages and a sync; a body and a sync; a gate and a sync.
pub const FORMATS: u64 = 67;

/// A call of a store.
#[derive(Clone, Copy)]
pub enum OnStore {
    /// So many events of one pulse each are taken.
    Pulses(u32),
    /// An event of this many pulses on a channel.
    Adds(u8, u32, Result<(), AddFault>),
    /// So many captures are taken.
    Captures(u32),
    /// The profile is emptied.
    Empties,
    Commits(Result<(), StoreFault>),
    Checkpoints(Result<(), StoreFault>),
    /// The first so many of these columns are set.
    SetsColumns(usize, [u8; 4], Result<(), AddFault>),
}

/// A look at a store.
#[derive(Clone, Copy)]
pub enum Look {
    /// So many bytes of records wait.
    Pending(usize),
    Registers([u32; 3]),
    /// The number of the oldest row, and the one that the next row gets.
    Numbers(u128, u128),
    /// The columns are the first so many of these.
    Columns(usize, [u8; 4]),
    /// The values of the row at this index, counted from the oldest, are the first so many of these.
    Row(usize, usize, [u32; 4]),
}

/// A call of a device, or a look at it.
#[derive(Clone, Copy)]
pub enum OnDevice {
    /// A page is filled with zeros.
    Clears(u16),
    /// A page gets these bytes at the front, and zeros after them.
    Puts(u16, Bytes),
    /// A page becomes an open gate of a version and a generation.
    Gate(u16, u8, u8),
    /// A page becomes the first body of version 1 of a generation, with no row, and with these bytes in front.
    Body(u16, u8, Bytes),
    /// The journal's first page becomes one of a version and a generation, with these records.
    Journal(u8, u8, Bytes),
    /// A byte of a page, at this place, becomes this one.
    Changes(u16, usize, u8),
    /// A page has these bytes from this place on, and zeros after them.
    Ends(u16, usize, Bytes),
    /// A page begins with these bytes.
    Begins(u16, Bytes),
    /// A page has these bytes at the front, and zeros after them.
    Holds(u16, Bytes),
}

/// A step of a script. It has no reference in it, which keeps the proofs about the tables of steps short.
#[derive(Clone, Copy)]
pub enum Step {
    /// A script begins, with a new device of this many pages.
    Device(u16),
    /// Every call of the device after this many fails.
    Fails(u64),
    Formats(Option<OpenFault>),
    Opens(Option<OpenFault>),
    Closes,
    /// The power of the device stops.
    Stops(Left),
    Store(OnStore),
    Shows(Look),
    At(OnDevice),
}

/// The place of the numbers at the end of a body's head.
const NUMBERS: usize = 324;

/// The scripts, one behind the other.
pub static SCRIPTS: [Step; 215] = [
    // A journal page.
    Step::Device(PAGES),
    Step::Formats(None),
    Step::Store(OnStore::Adds(0, 42, Ok(()))),
    Step::Shows(Look::Pending(6)),
    Step::Store(OnStore::Commits(Ok(()))),
    Step::Shows(Look::Pending(0)),
    Step::Shows(Look::Registers([42, 0, 0])),
    Step::Closes,
    Step::At(OnDevice::Holds(6, Bytes::Page(Page::Of42Pulses))),
    Step::At(OnDevice::Holds(7, Bytes::Nothing)),
    // 82 records wait.
    Step::Device(PAGES),
    Step::Fails(FORMATS),
    Step::Formats(None),
    Step::Store(OnStore::Pulses(82)),
    Step::Shows(Look::Pending(492)),
    Step::Closes,
    Step::Stops(Left::New),
    Step::At(OnDevice::Holds(6, Bytes::Nothing)),
    // The first page before the 83rd record. A page is a write and a sync, a checkpoint of no row three of each.
    Step::Device(PAGES),
    Step::Fails(FORMATS + 2),
    Step::Formats(None),
    Step::Store(OnStore::Pulses(83)),
    Step::Shows(Look::Pending(6)),
    Step::Closes,
    Step::Stops(Left::Old),
    Step::At(OnDevice::Begins(6, Bytes::Page(Page::FirstFull))),
    // The last page before the 1313th record.
    Step::Device(PAGES),
    Step::Fails(FORMATS + 32),
    Step::Formats(None),
    Step::Store(OnStore::Pulses(1313)),
    Step::Shows(Look::Pending(6)),
    Step::Closes,
    Step::Stops(Left::Old),
    Step::At(OnDevice::Begins(21, Bytes::Page(Page::LastFull))),
    // A checkpoint before the 1395th record.
    Step::Device(PAGES),
    Step::Fails(FORMATS + 38),
    Step::Formats(None),
    Step::Store(OnStore::Pulses(1395)),
    Step::Shows(Look::Pending(6)),
    Step::Closes,
    Step::Stops(Left::Old),
    Step::At(OnDevice::Begins(3, Bytes::Gate(Gate::Second))),
    // Pages fill, and then a checkpoint is made. Closing commits the last pulse into the journal of the new generation.
    Step::Device(PAGES),
    Step::Formats(None),
    Step::Store(OnStore::Pulses(83)),
    Step::Shows(Look::Pending(6)),
    Step::Store(OnStore::Pulses(1230)),
    Step::Shows(Look::Pending(6)),
    Step::Store(OnStore::Pulses(82)),
    Step::Shows(Look::Pending(6)),
    Step::Shows(Look::Registers([1395, 0, 0])),
    Step::Closes,
    Step::At(OnDevice::Begins(21, Bytes::Page(Page::LastFull))),
    Step::At(OnDevice::Holds(3, Bytes::Gate(Gate::Second))),
    Step::At(OnDevice::Begins(6, Bytes::Page(Page::Next))),
    // A recovery makes a checkpoint once. Opened again it writes nothing: a sync, two gates, a body and a journal page,
    // and then every call fails.
    Step::Device(PAGES),
    Step::Formats(None),
    Step::Store(OnStore::Pulses(7)),
    Step::Closes,
    Step::Opens(None),
    Step::Shows(Look::Pending(0)),
    Step::Shows(Look::Registers([7, 0, 0])),
    Step::Closes,
    Step::At(OnDevice::Holds(3, Bytes::Gate(Gate::Second))),
    Step::Fails(5),
    Step::Opens(None),
    Step::Shows(Look::Registers([7, 0, 0])),
    Step::Closes,
    Step::Stops(Left::Old),
    Step::At(OnDevice::Holds(3, Bytes::Gate(Gate::Second))),
    // A damaged page hides its records.
    Step::Device(PAGES),
    Step::Formats(None),
    Step::Store(OnStore::Pulses(3)),
    Step::Closes,
    Step::At(OnDevice::Clears(6)),
    Step::Stops(Left::Damaged),
    Step::Opens(None),
    Step::Shows(Look::Registers([0, 0, 0])),
    Step::Closes,
    Step::At(OnDevice::Holds(3, Bytes::Gate(Gate::Second))),
    // No checkpoint.
    Step::Device(PAGES),
    Step::Opens(Some(OpenFault::NoCheckpoint)),
    // Too few pages to open.
    Step::Device(PAGES - 1),
    Step::Opens(Some(OpenFault::Size)),
    // Too few pages to format.
    Step::Device(PAGES - 1),
    Step::Formats(Some(OpenFault::Size)),
    // A damaged body.
    Step::Device(PAGES),
    Step::Formats(None),
    Step::Closes,
    Step::At(OnDevice::Clears(1)),
    Step::Opens(Some(OpenFault::Corrupt(1))),
    // Refused, failed and stopped.
    Step::Device(PAGES),
    Step::Fails(FORMATS),
    Step::Formats(None),
    Step::Store(OnStore::Adds(3, 1, Err(AddFault::Refused(Refused::Channel)))),
    Step::Store(OnStore::Commits(Ok(()))),
    Step::Store(OnStore::Adds(0, 5, Ok(()))),
    Step::Store(OnStore::Commits(Err(StoreFault::Device))),
    Step::Store(OnStore::Adds(3, 1, Err(AddFault::Stopped))),
    Step::Store(OnStore::Checkpoints(Err(StoreFault::Stopped))),
    Step::Shows(Look::Pending(6)),
    Step::Shows(Look::Registers([5, 0, 0])),
    Step::Closes,
    Step::Stops(Left::New),
    Step::Opens(None),
    Step::Shows(Look::Registers([0, 0, 0])),
    // 240 rows wait, and no ring page is written. The calls of the device end with the format.
    Step::Device(PAGES),
    Step::Fails(FORMATS),
    Step::Formats(None),
    Step::Store(OnStore::Captures(240)),
    Step::Shows(Look::Pending(240)),
    Step::Shows(Look::Numbers(0, 240)),
    Step::Closes,
    Step::Stops(Left::New),
    Step::At(OnDevice::Holds(22, Bytes::Nothing)),
    Step::At(OnDevice::Holds(61, Bytes::Nothing)),
    // A checkpoint before the 241st row. A gate and a sync, eight ring pages and a sync, a body and a sync, a gate and a sync.
    Step::Device(PAGES),
    Step::Fails(FORMATS + 15),
    Step::Formats(None),
    Step::Store(OnStore::Captures(241)),
    Step::Shows(Look::Pending(1)),
    Step::Shows(Look::Numbers(0, 241)),
    Step::Closes,
    Step::Stops(Left::Old),
    Step::At(OnDevice::Holds(3, Bytes::Gate(Gate::Second))),
    Step::At(OnDevice::Begins(4, Bytes::Body(Body::Second))),
    Step::At(OnDevice::Ends(4, NUMBERS, Bytes::Body(Body::From0To240))),
    Step::At(OnDevice::Holds(5, Bytes::Nothing)),
    Step::At(OnDevice::Holds(22, Bytes::Page(Page::Ring0))),
    Step::At(OnDevice::Holds(29, Bytes::Page(Page::Ring7))),
    Step::At(OnDevice::Holds(30, Bytes::Nothing)),
    Step::Opens(None),
    Step::Shows(Look::Numbers(0, 240)),
    // An emptied profile keeps its numbers.
    Step::Device(PAGES),
    Step::Formats(None),
    Step::Store(OnStore::Captures(241)),
    Step::Store(OnStore::Empties),
    Step::Store(OnStore::Checkpoints(Ok(()))),
    Step::Shows(Look::Numbers(241, 241)),
    Step::Closes,
    Step::At(OnDevice::Holds(0, Bytes::Gate(Gate::Third))),
    Step::At(OnDevice::Begins(1, Bytes::Body(Body::Third))),
    Step::At(OnDevice::Ends(1, NUMBERS, Bytes::Body(Body::From241))),
    Step::Opens(None),
    Step::Shows(Look::Numbers(241, 241)),
    // The first ring page that does not fit is named.
    Step::Device(PAGES),
    Step::Formats(None),
    Step::Store(OnStore::Captures(241)),
    Step::Closes,
    Step::At(OnDevice::Clears(27)),
    Step::At(OnDevice::Clears(24)),
    Step::Opens(Some(OpenFault::Corrupt(24))),
    Step::At(OnDevice::Puts(24, Bytes::Page(Page::Ring7))),
    Step::Opens(Some(OpenFault::Corrupt(24))),
    // A ring page with a clock out of range is named. Its fourth row's clock begins with the byte that is changed.
    Step::Device(PAGES),
    Step::Formats(None),
    Step::Store(OnStore::Captures(241)),
    Step::Closes,
    Step::At(OnDevice::Changes(25, 64, 0xff)),
    Step::Opens(Some(OpenFault::Corrupt(25))),
    // A torn ring page is named.
    Step::Device(PAGES),
    Step::Formats(None),
    Step::Store(OnStore::Captures(241)),
    Step::Closes,
    Step::At(OnDevice::Clears(29)),
    Step::Stops(Left::Damaged),
    Step::Opens(Some(OpenFault::Corrupt(29))),
    // The first body that does not fit is named.
    Step::Device(PAGES),
    Step::Formats(None),
    Step::Store(OnStore::Captures(29)),
    Step::Store(OnStore::Checkpoints(Ok(()))),
    Step::Closes,
    Step::At(OnDevice::Clears(5)),
    Step::Opens(Some(OpenFault::Corrupt(5))),
    Step::At(OnDevice::Clears(4)),
    Step::Opens(Some(OpenFault::Corrupt(4))),
    // Bodies of no state name the first of them. The first byte of the last row's clock is in the second body, and an
    // unused byte of the secret is in the first.
    Step::Device(PAGES),
    Step::Formats(None),
    Step::Store(OnStore::Captures(29)),
    Step::Store(OnStore::Checkpoints(Ok(()))),
    Step::Closes,
    Step::At(OnDevice::Changes(5, 292, 0xff)),
    Step::Opens(Some(OpenFault::Corrupt(4))),
    // An unused byte that is not zero names the first body.
    Step::Device(PAGES),
    Step::Formats(None),
    Step::Closes,
    Step::At(OnDevice::Changes(1, 60, 1)),
    Step::Opens(Some(OpenFault::Corrupt(1))),
    // Of two open gates of one generation the second is named.
    Step::Device(PAGES),
    Step::Formats(None),
    Step::Closes,
    Step::At(OnDevice::Puts(3, Bytes::Gate(Gate::First))),
    Step::Opens(Some(OpenFault::Corrupt(3))),
    // A ring page that no row needs is not looked at.
    Step::Device(PAGES),
    Step::Formats(None),
    Step::Store(OnStore::Captures(241)),
    Step::Store(OnStore::Empties),
    Step::Store(OnStore::Checkpoints(Ok(()))),
    Step::Closes,
    Step::At(OnDevice::Clears(27)),
    Step::Opens(None),
    Step::Shows(Look::Numbers(241, 241)),
    // A journal page that does not fit into the ring ends the journal.
    Step::Device(PAGES),
    Step::Formats(None),
    Step::Store(OnStore::Captures(200)),
    Step::Store(OnStore::Commits(Ok(()))),
    Step::Closes,
    Step::At(OnDevice::Puts(7, Bytes::Page(Page::Of41Rows))),
    Step::Opens(None),
    Step::Shows(Look::Numbers(0, 200)),
    Step::Closes,
    Step::At(OnDevice::Holds(3, Bytes::Gate(Gate::Second))),
    // Pages of version 0 are not known.
    Step::Device(PAGES),
    Step::At(OnDevice::Puts(0, Bytes::Gate(Gate::OfVersion0))),
    Step::Opens(Some(OpenFault::NoCheckpoint)),
];
