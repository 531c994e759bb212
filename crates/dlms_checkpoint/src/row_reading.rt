//! Reads rows of consecutive places.
ghost use Rattle.std.specs.Prelude.{◌≡◌, ◌≤◌, ◌<◌, ◌*◌, ◌+◌, ◌↔◌, ◌-◌, IfSome, length, IsTrue};
ghost use Rattle.byteorder.specs.Endian.{big_from};
ghost use Rattle.dlms_state.specs.Columns.{IsRowOf};
ghost use Rattle.dlms_state.specs.StateValue.{HasEvents};
ghost use Rattle.dlms_checkpoint.specs.Checkpoint.{row_width};
ghost use Rattle.dlms_checkpoint.specs.declared.writing.TheConstants.{RING_ROWS};
ghost use Rattle.dlms_checkpoint.specs.Reading.{MayTake, RowsFit, row_at, with_places, with_rows};

use crate::writing::RING_ROWS;
use arrayvec::ArrayVec;
use byteorder::{BigEndian, ByteOrder};
use dlms_profile::Row;
use dlms_state::{LAST_SECOND, State};
use std::alloc::Allocator;

/// The number of four bytes from this place on.
pub(crate) fn word_at(bytes: &[u8], place: usize) -> u32
    requires { place + 4 ≤ length bytes.now }
    ensures { result ≡ big_from place 4 bytes.now }
{
    BigEndian::read_u32(&bytes[place..])
}

/// The row at this place among rows of `width` values.
fn row_of(rows: &[u8], width: usize, index: usize) -> Row
    requires few { width ≤ 4 }
    requires within { 4 * width * (index + 1) ≤ length rows.now }
    ensures { result ≡ row_at width (4 * width * index) rows.now }
{
    let place = 4 * width * index;
    let mut values = ArrayVec::new();
    for nth in 0..width {
        values.push(word_at(rows, place + 4 * nth));
    }
    Row { values }
}

/// Whether a row with a value a column has the clock's in its range.
fn is_in_time(columns: &[u8], row: &Row) -> bool
    requires { length row.now.values.items ≡ length columns.now }
    ensures { IsTrue result ↔ IsRowOf columns.now row.now }
{
    let values = row.values.as_slice();
    for nth in 0..columns.len() {
        if columns[nth] == 0 && values[nth] > LAST_SECOND {
            return false;
        }
    }
    true
}

/// Whether the row at this place is one of these columns.
fn fits_at(rows: &[u8], columns: &[u8], index: usize) -> bool
    requires few { length columns.now ≤ 4 }
    requires within { row_width columns.now * (index + 1) ≤ length rows.now }
    ensures { IsTrue result ↔ IsRowOf columns.now
        (row_at (length columns.now) (row_width columns.now * index) rows.now) }
{
    let row = row_of(rows, columns.len(), index);
    is_in_time(columns, &row)
}

/// Whether each row from the one numbered `first` on is one of these columns, if the rows' numbers begin with `from`.
pub(crate) fn are_rows(rows: &[u8], columns: &[u8], first: u128, from: u128) -> bool
    requires some { 0 < length columns.now }
    requires few { length columns.now ≤ 4 }
    ensures { IsTrue result ↔ RowsFit columns.now first from rows.now }
{
    let skipped = first.saturating_sub(from);
    for index in 0..rows.len() / (4 * columns.len()) {
        if skipped <= index as u128 && !fits_at(rows, columns, index) {
            return false;
        }
    }
    true
}

/// Restores consecutive rows from this place on.
pub(crate) fn restore_rows<A: Allocator + Copy>(
    state: &mut State<A>,
    places: &[u8],
    skipped: usize,
    count: usize,
)
    requires { MayTake state.old places.now skipped count }
    ensures value { state.new ≡ with_rows state.old places.now skipped count }
    ensures events { HasEvents state.new }
{
    let width = state.columns().len();
    for index in 0..count {
        state.restore_row(row_of(places, width, skipped + index));
    }
    state.has_events();
}

/// Restores the rows of a ring page's places after the skipped ones, if there is a state.
pub(crate) fn restore_page<A: Allocator + Copy>(
    state: &mut Option<State<A>>,
    places: &[u8],
    skipped: usize,
)
    requires near { skipped ≤ RING_ROWS }
    requires rows { IfSome state.old (λ s. MayTake s places.now skipped (RING_ROWS - skipped)) }
    ensures { state.new ≡ with_places state.old places.now skipped }
{
    if let Some(state) = state {
        restore_rows(state, places, skipped, RING_ROWS - skipped);
    }
}
