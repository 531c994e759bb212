//! Where everything stands: two slots of a gate and 2 bodies, 16 journal pages, and 40 ring pages.
ghost use Rattle.std.specs.Prelude.{◌≡◌, ◌≤◌, ◌<◌, ◌+◌, ◌%◌};
ghost use Rattle.dlms_store.specs.Layout.{gate_of, index_of, other_of};
ghost use Rattle.dlms_store.specs.declared.layout.TheConstants.{BODIES, RING_PAGES};

use dlms_checkpoint::RING_ROWS;
use dlms_profile::CAPACITY;

/// How many pages a store needs: 62.
pub const PAGES: u16 = RING + RING_PAGES;

/// How many journal pages there are.
pub const JOURNAL_PAGES: u16 = 16;

/// Where the journal begins: 6.
pub const JOURNAL: u16 = 2 * (1 + BODIES);

/// How many bodies a slot has.
pub const BODIES: u16 = 2;

/// Where the ring pages begin: 22.
pub const RING: u16 = JOURNAL + JOURNAL_PAGES;

/// The rows of a ring page.
const ROWS_A_PAGE: u16 = RING_ROWS as u16;

/// The most ring pages that a checkpoint names, those of a full buffer: 32.
pub(crate) const MOST_NAMED: u16 = CAPACITY as u16 / ROWS_A_PAGE;

/// How many ring pages more there are than a checkpoint names.
const SPARE_PAGES: u16 = 8;

/// How many ring pages there are: 40.
pub const RING_PAGES: u16 = MOST_NAMED + SPARE_PAGES;

/// The most rows that are captured between two checkpoints, so that no ring page that the active one names is written over: 240.
pub(crate) const MOST_CAPTURED: u16 = SPARE_PAGES * ROWS_A_PAGE;

/// The last number that a checkpoint can have.
pub(crate) const LAST_GENERATION: u64 = 18_446_744_073_709_551_615;

/// One of the two places for a checkpoint.
#[derive(Clone, Copy, Debug, PartialEq, Eq)]
pub enum Slot {
    First,
    Second,
}

impl Slot {
    /// The slot's number, which its gate has as index.
    pub fn index(self) -> u16
        ensures { result ≡ index_of self }
    {
        match self {
            Slot::First => 0,
            Slot::Second => 1,
        }
    }

    /// The page of its gate, which its bodies follow.
    pub fn gate(self) -> u16
        ensures value { result ≡ gate_of self }
        ensures within { result ≤ 1 + BODIES }
    {
        match self {
            Slot::First => 0,
            Slot::Second => 1 + BODIES,
        }
    }

    /// The slot that the next checkpoint is written to if this one is active.
    pub fn other(self) -> Slot
        ensures { result ≡ other_of self }
    {
        match self {
            Slot::First => Slot::Second,
            Slot::Second => Slot::First,
        }
    }
}

/// Where a ring page stands among the ring pages.
pub(crate) fn ring_index(page: u64) -> u16
    ensures value { result ≡ page % RING_PAGES }
    ensures within { result < RING_PAGES }
{
    (page % u64::from(RING_PAGES)) as u16
}
