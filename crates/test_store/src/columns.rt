//! Scripts that set columns: what the journal, the bodies and the ring pages then hold, and what a recovery finds.

use crate::bytes::{Body, Bytes, Page, Records};
use crate::scripts::{Look, OnDevice, OnStore, Step};
use crate::stops::Left;
use dlms_state::Refused;
use dlms_store::{AddFault, OpenFault, PAGES};

/// The answer to columns that no state has.
const REFUSED: Result<(), AddFault> = Err(AddFault::Refused(Refused::Columns));

/// The place of the columns in a body's page.
const COLUMNS_PLACE: usize = 302;

/// The scripts, one behind the other.
pub static COLUMNS: [Step; 92] = [
    // Columns that no state has are refused.
    Step::Device(PAGES),
    Step::Formats(None),
    Step::Store(OnStore::Captures(2)),
    Step::Store(OnStore::SetsColumns(0, [0, 0, 0, 0], REFUSED)),
    Step::Store(OnStore::SetsColumns(1, [4, 0, 0, 0], REFUSED)),
    Step::Store(OnStore::SetsColumns(2, [1, 1, 0, 0], REFUSED)),
    Step::Store(OnStore::SetsColumns(4, [0, 1, 2, 0], REFUSED)),
    Step::Shows(Look::Columns(4, [0, 1, 2, 3])),
    Step::Shows(Look::Numbers(0, 2)),
    Step::Shows(Look::Pending(2)),
    // A checkpoint has the columns, and places of their width.
    Step::Device(PAGES),
    Step::Formats(None),
    Step::Store(OnStore::SetsColumns(2, [3, 0, 0, 0], Ok(()))),
    Step::Shows(Look::Pending(4)),
    Step::Store(OnStore::Captures(31)),
    Step::Shows(Look::Row(30, 2, [0, 0, 0, 0])),
    Step::Store(OnStore::Checkpoints(Ok(()))),
    Step::Closes,
    Step::At(OnDevice::Begins(4, Bytes::Body(Body::OfTwoColumns))),
    Step::At(OnDevice::Ends(4, COLUMNS_PLACE, Bytes::Body(Body::ColumnsAndNumbers))),
    Step::At(OnDevice::Holds(22, Bytes::Page(Page::RingOfTwoColumns))),
    Step::Opens(None),
    Step::Shows(Look::Columns(2, [3, 0, 0, 0])),
    Step::Shows(Look::Numbers(0, 31)),
    Step::Shows(Look::Row(0, 2, [0, 0, 0, 0])),
    // The journal has the columns, and rows behind them have their values.
    Step::Device(PAGES),
    Step::Formats(None),
    Step::Store(OnStore::Adds(0, 42, Ok(()))),
    Step::Store(OnStore::SetsColumns(1, [1, 0, 0, 0], Ok(()))),
    Step::Store(OnStore::Captures(1)),
    Step::Store(OnStore::Commits(Ok(()))),
    Step::Closes,
    Step::At(OnDevice::Holds(6, Bytes::Page(Page::OfOneColumn))),
    Step::Opens(None),
    Step::Shows(Look::Columns(1, [1, 0, 0, 0])),
    Step::Shows(Look::Row(0, 1, [42, 0, 0, 0])),
    Step::Shows(Look::Numbers(0, 1)),
    // Columns that are set empty the buffer and keep the numbers.
    Step::Device(PAGES),
    Step::Formats(None),
    Step::Store(OnStore::Captures(241)),
    Step::Store(OnStore::SetsColumns(4, [0, 1, 2, 3], Ok(()))),
    Step::Shows(Look::Numbers(241, 241)),
    Step::Store(OnStore::SetsColumns(1, [2, 0, 0, 0], Ok(()))),
    Step::Store(OnStore::Captures(1)),
    Step::Store(OnStore::Checkpoints(Ok(()))),
    Step::Closes,
    Step::At(OnDevice::Clears(22)),
    Step::Opens(None),
    Step::Shows(Look::Numbers(241, 242)),
    Step::Shows(Look::Row(0, 1, [0, 0, 0, 0])),
    // Columns that are not settled are gone with the power.
    Step::Device(PAGES),
    Step::Fails(67),
    Step::Formats(None),
    Step::Store(OnStore::SetsColumns(1, [1, 0, 0, 0], Ok(()))),
    Step::Closes,
    Step::Stops(Left::New),
    Step::Opens(None),
    Step::Shows(Look::Columns(4, [0, 1, 2, 3])),
    // A record of columns that no state has ends the journal.
    Step::Device(PAGES),
    Step::Formats(None),
    Step::Closes,
    Step::At(OnDevice::Journal(2, 1, Bytes::Records(Records::OfColumn4))),
    Step::Opens(None),
    Step::Shows(Look::Columns(4, [0, 1, 2, 3])),
    Step::Closes,
    Step::At(OnDevice::Journal(2, 1, Bytes::Records(Records::OfColumn3))),
    Step::Opens(None),
    Step::Shows(Look::Columns(1, [3, 0, 0, 0])),
    // A ring page has the width of its columns. A ring page of rows of one column has 120 bytes; one of 376 does not
    // fit. A register has any value.
    Step::Device(PAGES),
    Step::Formats(None),
    Step::Store(OnStore::SetsColumns(1, [1, 0, 0, 0], Ok(()))),
    Step::Store(OnStore::Captures(31)),
    Step::Store(OnStore::Checkpoints(Ok(()))),
    Step::Closes,
    Step::At(OnDevice::Changes(22, 12, 1)),
    Step::Opens(Some(OpenFault::Corrupt(22))),
    Step::At(OnDevice::Changes(22, 12, 0)),
    Step::At(OnDevice::Changes(22, 16, 0xff)),
    Step::Opens(None),
    Step::Shows(Look::Row(0, 1, [0xff00_0000, 0, 0, 0])),
    // A clock out of range is looked for where the clock stands.
    Step::Device(PAGES),
    Step::Formats(None),
    Step::Store(OnStore::SetsColumns(2, [1, 0, 0, 0], Ok(()))),
    Step::Store(OnStore::Captures(31)),
    Step::Store(OnStore::Checkpoints(Ok(()))),
    Step::Closes,
    Step::At(OnDevice::Changes(22, 20, 0xff)),
    Step::Opens(Some(OpenFault::Corrupt(22))),
    Step::At(OnDevice::Changes(22, 20, 0)),
    Step::At(OnDevice::Changes(22, 16, 0xff)),
    Step::Opens(None),
    Step::Shows(Look::Row(0, 2, [0xff00_0000, 0, 0, 0])),
];
