//! The cell of a row.

use dlms_values::Value;

/// What a column shows in a row: the last value that its column gives, and how many rows ago the meter gave it.
#[derive(Clone, Copy)]
pub struct Cell<'a> {
    pub value: Value<'a>,
    /// 0 if this row gives the value. A clock is this many capture periods after the value.
    pub age: u64,
}
