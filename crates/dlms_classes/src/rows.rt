//! The rows of the load profile as values.

ghost use Rattle.std.specs.Prelude.{◌≡◌, ◌≢◌, ◌≤◌, ◌<◌, ◌++◌, ◌==◌, [], List, Some, map, slice_range, All, IfOk, IsErr, OnOk, length};
ghost use Rattle.dlms_data.specs.View.{value_of};
ghost use Rattle.dlms_profile.specs.declared.rows.Row.{Row};
ghost use Rattle.dlms_state.specs.Columns.{IsRowOf};
ghost use Rattle.dlms_classes.specs.declared.rows.Cell.{Cell};
ghost use Rattle.dlms_classes.specs.Shown.{cell_of as field_of, cells as cells_of, HasRows, HasTime, Match, IsCell, IsRow, IsTable, Part, part_shown, Shows, columns_between, last_column as last_of};
ghost use Rattle.dlms_profile.specs.Rows.{in_range, entries as cut_out};
ghost use Rattle.dlms_classes.specs.Choice.{Picks, IsProper};

use crate::choosing::{CLOCK_ID, Choice, last_column};
use dlms_data::{Data, Items, room, time_of};
use dlms_profile::{Row, Rows};
use std::alloc::{AllocError, Allocator};

/// A field of a row.
#[derive(Clone, Copy)]
pub enum Cell {
    /// A second of the clock.
    Second(u32),
    Number(u32),
}

/// The field of a column.
pub fn field(id: u8, value: u32) -> Cell
    ensures { result ≡ field_of id value }
{
    if id == CLOCK_ID {
        Cell::Second(value)
    } else {
        Cell::Number(value)
    }
}

/// The value of a field.
fn cell_of<A: Allocator + Copy>(alloc: A, cell: Cell) -> Result<Data<A>, AllocError>
    requires { HasTime cell }
    ensures { IfOk result (λ v. IsCell cell (value_of v)) }
{
    match cell {
        Cell::Second(second) => time_of(alloc, second),
        Cell::Number(number) => Ok(Data::DoubleLongUnsigned(number)),
    }
}

/// The structure of some columns of a row, from `first` to before `end`.
fn row_of<A: Allocator + Copy>(
    alloc: A,
    columns: &[u8],
    row: &Row,
    first: usize,
    end: usize,
) -> Result<Data<A>, AllocError>
    requires row { IsRowOf columns.now row.now }
    requires order { first ≤ end }
    requires end { end ≤ length columns.now }
    ensures { IfOk result (λ v. IsRow (slice_range (cells_of columns.now row.now) first end)
        (value_of v)) }
{
    let values = row.values.as_slice();
    let mut items = room(alloc, end - first)?;
    for i in first..end {
        items.push(cell_of(alloc, field(columns[i], values[i]))?)?;
    }
    Ok(Data::Structure(items))
}

/// Appends some columns of rows.
fn put_rows<A: Allocator + Copy>(
    alloc: A,
    items: &mut Items<A>,
    columns: &[u8],
    rows: &[Row],
    first: usize,
    end: usize,
) -> Result<(), AllocError>
    requires rows { All (IsRowOf columns.now) rows.now }
    requires order { first ≤ end }
    requires end { end ≤ length columns.now }
    ensures { OnOk result ((done : List (List Cell)) → Match IsRow done items.old
        → Match IsRow (done ++ map (λ row. slice_range
        (cells_of columns.now row) first end) rows.now) items.new) }
{
    for row in rows {
        items.push(row_of(alloc, columns, row, first, end)?)?;
    }
    Ok(())
}

/// Whether there are no rows.
fn are_none(older: &[Row], newer: &[Row]) -> bool
    ensures { result ≡ (length (older.now ++ newer.now) == 0) }
{
    older.is_empty() && newer.is_empty()
}

/// The array of some columns of rows, which are in two slices.
fn table_of<A: Allocator + Copy>(
    alloc: A,
    columns: &[u8],
    older: &[Row],
    newer: &[Row],
    count: usize,
    first: usize,
    end: usize,
) -> Result<Data<A>, AllocError>
    requires older { All (IsRowOf columns.now) older.now }
    requires newer { All (IsRowOf columns.now) newer.now }
    requires order { first ≤ end }
    requires end { end ≤ length columns.now }
    ensures table { IfOk result (λ v. IsTable
        (map (λ row. slice_range (cells_of columns.now row) first end) (older.now ++ newer.now))
        (value_of v)) }
    ensures lacks { IsErr result → older.now ++ newer.now ≢ [] }
{
    if are_none(older, newer) {
        return Ok(Data::Array(Items::from_vec(Vec::new(alloc))));
    }
    let mut items = room(alloc, count)?;
    put_rows(alloc, &mut items, columns, older, first, end)?;
    put_rows(alloc, &mut items, columns, newer, first, end)?;
    Ok(Data::Array(items))
}

/// The array of all rows.
fn whole<A: Allocator + Copy>(
    alloc: A,
    columns: &[u8],
    rows: &Rows<A>,
) -> Result<Data<A>, AllocError>
    requires rows { All (IsRowOf columns.now) rows.now.items }
    ensures table { IfOk result (λ v. IsTable (map (cells_of columns.now) rows.now.items)
        (value_of v)) }
    ensures lacks { IsErr result → rows.now.items ≢ [] }
{
    let (older, newer) = rows.as_slices();
    table_of(alloc, columns, older, newer, rows.len(), 0, columns.len())
}

/// The array of the rows whose clock, at its place among the columns, lies between two seconds.
fn between<A: Allocator + Copy>(
    alloc: A,
    columns: &[u8],
    rows: &Rows<A>,
    place: usize,
    from: u32,
    to: u32,
) -> Result<Data<A>, AllocError>
    requires rows { All (IsRowOf columns.now) rows.now.items }
    ensures table { IfOk result (λ v. IsTable
        (map (cells_of columns.now) (in_range place from to rows.now.items)) (value_of v)) }
    ensures lacks { IsErr result → in_range place from to rows.now.items ≢ [] }
{
    let found = rows.by_range(place, from, to)?;
    table_of(
        alloc,
        columns,
        found.as_slice(),
        &[],
        found.len(),
        0,
        columns.len(),
    )
}

/// The array of some entries and columns.
fn cut<A: Allocator + Copy>(
    alloc: A,
    columns: &[u8],
    rows: &Rows<A>,
    entries: (u32, u32),
    shown: (u16, u16),
) -> Result<Data<A>, AllocError>
    requires rows { All (IsRowOf columns.now) rows.now.items }
    requires entry { 0 < entries.0 }
    requires column { 0 < shown.0 }
    requires order { shown.0 ≤ last_of (length columns.now) shown.1 }
    ensures table { IfOk result (λ v. IsTable
        (map (λ row. columns_between (length columns.now) shown.0 shown.1
        (cells_of columns.now row)) (cut_out entries.0 entries.1 rows.now.items))
        (value_of v)) }
    ensures lacks { IsErr result → cut_out entries.0 entries.1 rows.now.items ≢ [] }
{
    let found = rows.by_entry(entries.0, entries.1)?;
    let first = usize::from(shown.0) - 1;
    let end = last_column(columns.len(), shown.1);
    table_of(
        alloc,
        columns,
        found.as_slice(),
        &[],
        found.len(),
        first,
        end,
    )
}

/// The array of the selected part of rows with these columns. Out of memory is reported only if that part has a row.
pub fn buffer<A: Allocator + Copy>(
    alloc: A,
    columns: &[u8],
    rows: &Rows<A>,
    choice: Choice,
) -> Result<Data<A>, AllocError>
    requires rows { All (IsRowOf columns.now) rows.now.items }
    requires proper { IsProper columns.now choice }
    ensures shows { (p : Part) → Picks columns.now p choice
        → IfOk result (λ v. Shows (part_shown columns.now p rows.now.items) (value_of v)) }
    ensures lacks { (p : Part) → Picks columns.now p choice → IsErr result
        → HasRows columns.now rows.now.items p }
{
    match choice {
        Choice::Whole => whole(alloc, columns, rows),
        Choice::Between(place, from, to) => between(alloc, columns, rows, place, from, to),
        Choice::Cut(first, last, first_col, last_col) => {
            cut(alloc, columns, rows, (first, last), (first_col, last_col))
        }
    }
}
