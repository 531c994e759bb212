//! Which rows of a readings file, and which register, are plotted.

ghost use Rattle.std.specs.Prelude.{◌≡◌, None};

use crate::quantity::Quantity;
use dlms_data::LAST_SECOND;
use dlms_headend::Row;

/// The register that is plotted, and from which second of the clock to which one, both included.
#[derive(Clone, Copy, PartialEq, Eq)]
pub struct Choice {
    /// The register. If there is none, it is the first one with different values in the first row and the last one.
    pub quantity: Option<Quantity>,
    /// The second of the earliest row, counted from 2000-01-01 00:00:00.
    pub from: u32,
    /// The second of the latest row.
    pub to: u32,
}

impl Choice {
    /// All rows.
    pub fn all() -> Choice
        ensures { result ≡ record { quantity = None; from = 0; to = LAST_SECOND } }
    {
        Choice {
            quantity: None,
            from: 0,
            to: LAST_SECOND,
        }
    }

    /// Whether a row is chosen.
    pub fn has(&self, row: &Row) -> bool {
        self.from <= row.clock && row.clock <= self.to
    }
}
