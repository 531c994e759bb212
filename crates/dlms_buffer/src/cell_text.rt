//! Cells as text.

ghost use Rattle.std.specs.Prelude.{OnOk};
ghost use Rattle.dlms_buffer.specs.Texts.{GrewBy};
ghost use Rattle.dlms_buffer.specs.CellTexts.{IsCellText, IsOctetsText};
ghost use Rattle.dlms_buffer.specs.View.{cell_view};

use crate::cell::Cell;
use crate::clock::append_clock;
use crate::text::{append_octets, append_value};
use dlms_values::Value;
use std::alloc::{AllocError, Allocator};

/// Appends octets as text: a date-time as ISO 8601, moved on by this many seconds.
fn append_dated<A: Allocator>(
    text: &mut Vec<u8, A>,
    octets: &[u8],
    later: u64,
) -> Result<(), AllocError>
    ensures { OnOk result (GrewBy (IsOctetsText later octets.now) text.old.items text.new.items) }
{
    if append_clock(text, octets, later)? {
        return Ok(());
    }
    append_octets(text, octets)?;
    Ok(())
}

/// Appends the text of a cell: a date-time as ISO 8601, moved on by `period` seconds for each row since it was given, and any other
/// value as text. The period is 0 for a column that is not a clock.
pub fn append_cell<A: Allocator>(
    text: &mut Vec<u8, A>,
    cell: &Cell<'_>,
    period: u32,
    scaler: i8,
) -> Result<(), AllocError>
    ensures { OnOk result (GrewBy (IsCellText period scaler
        (cell_view cell.now)) text.old.items text.new.items) }
{
    match cell.value {
        Value::Octets(_, octets) => {
            append_dated(text, octets, cell.age.saturating_mul(u64::from(period)))
        }
        _ => append_value(text, &cell.value, scaler),
    }
}
