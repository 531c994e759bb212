//! A row of the load profile, as it was polled.

ghost use Rattle.std.specs.Prelude.{◌≡◌, ◌++◌, ◌∷◌, [], OnOk, OnErr};

use std::alloc::{AllocError, Allocator};

/// A capture: the second that the meter's clock showed, counted from 2000-01-01 00:00:00, and the three registers.
#[derive(Clone, Copy, Debug, PartialEq, Eq)]
pub struct Row {
    pub clock: u32,
    pub registers: [u32; 3],
}

/// Appends a row.
pub fn keep<A: Allocator>(rows: &mut Vec<Row, A>, row: Row) -> Result<(), AllocError>
    ensures ok { OnOk result (rows.new.items ≡ rows.old.items ++ row ∷ []) }
    ensures err { OnErr result (rows.new.items ≡ rows.old.items) }
{
    rows.push(row)?;
    Ok(())
}
