//! The row that is captured: the value of each column.
ghost use Rattle.std.specs.Prelude.{◌≡◌, ◌<◌, ◌≤◌, All, length};
ghost use Rattle.dlms_state.specs.Columns.{row_of_columns, value_of};

use crate::event::LAST_COLUMN;
use arrayvec::ArrayVec;
use dlms_profile::{MOST_VALUES, Row};

/// The value of a column.
fn value_of(clock: u32, registers: [u32; 3], id: u8) -> u32
    requires { id ≤ LAST_COLUMN }
    ensures { result ≡ value_of clock registers id }
{
    match id {
        0 => clock,
        _ => registers[id as usize - 1],
    }
}

/// The row of these columns, at a second and with these registers.
pub(crate) fn row_of(columns: &[u8], clock: u32, registers: [u32; 3]) -> Row
    requires count { length columns.now ≤ MOST_VALUES }
    requires known { All (λ id. id ≤ LAST_COLUMN) columns.now }
    ensures { result ≡ row_of_columns columns.now clock registers }
{
    let mut values = ArrayVec::new();
    for id in columns {
        values.push(value_of(clock, registers, *id));
    }
    Row { values }
}
