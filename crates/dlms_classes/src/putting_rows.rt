//! The rows of the load profile as they are encoded.

ghost use Rattle.std.specs.Prelude.{◌≡◌, ◌≤◌, ◌<◌, ◌^◌, ◌++◌, ◌∷◌, [], map, filter, slice_range, nat_eq, if◌then◌else◌, All, IfOk, OnOk, length};
ghost use Rattle.dlms_data.specs.Building.{IsTime};
ghost use Rattle.dlms_profile.specs.Rows.{entries as cut_out};
ghost use Rattle.dlms_profile.specs.declared.rows.TheConstants.{CAPACITY};
ghost use Rattle.dlms_state.specs.Columns.{IsRowOf};
ghost use Rattle.dlms_data.specs.declared.date_time.TheConstants.{LAST_SECOND};
ghost use Rattle.dlms_classes.specs.Choice.{Picks, IsProper};
ghost use Rattle.dlms_classes.specs.Encoded.{IsPut, ArePut, chooses};
ghost use Rattle.dlms_classes.specs.Shown.{cells as cells_of, HasTime, IsCell, IsRow, IsTable, Part, part_shown, Shows, columns_between, last_column as last_of};

use crate::choosing::{CLOCK_ID, Choice, last_column};
use crate::putting::{ARRAY, STRUCTURE, put_count, put_number, put_octets};
use crate::rows::{Cell, field};
use dlms_data::octets;
use dlms_profile::{Row, Rows};
use std::alloc::{AllocError, Allocator};

/// How many bytes a second takes, and how many a number.
const SECOND_BYTES: usize = 14;

const NUMBER_BYTES: usize = 5;

/// Says what the type of bytes says, for a proof.
fn bytes_fit(bytes: &[u8])
    ensures { All (λ octet. octet < 2 ^ 8) bytes.now }
{
    let _bytes = bytes;
}

/// Appends the date-time of a second.
fn put_time<A: Allocator>(out: &mut Vec<u8, A>, second: u32) -> Result<(), AllocError>
    requires { second ≤ LAST_SECOND }
    ensures { OnOk result (IsPut (IsTime second) out.old.items out.new.items) }
{
    let octets = octets(second);
    bytes_fit(octets.as_slice());
    put_octets(out, octets.as_slice())
}

/// Appends a field.
fn put_cell<A: Allocator>(out: &mut Vec<u8, A>, cell: Cell) -> Result<(), AllocError>
    requires { HasTime cell }
    ensures { OnOk result (IsPut (IsCell cell) out.old.items out.new.items) }
{
    match cell {
        Cell::Second(second) => put_time(out, second),
        Cell::Number(number) => put_number(out, number),
    }
}

/// Appends the structure of some columns of a row, from `first` to before `end`.
fn put_row<A: Allocator>(
    out: &mut Vec<u8, A>,
    columns: &[u8],
    row: &Row,
    first: usize,
    end: usize,
) -> Result<(), AllocError>
    requires row { IsRowOf columns.now row.now }
    requires order { first ≤ end }
    requires end { end ≤ length columns.now }
    ensures { OnOk result (IsPut (IsRow
        (slice_range
        (cells_of columns.now row.now) first end)) out.old.items out.new.items) }
{
    let values = row.values.as_slice();
    put_count(out, STRUCTURE, (end - first) as u16)?;
    for i in first..end {
        put_cell(out, field(columns[i], values[i]))?;
    }
    Ok(())
}

/// Whether a row is selected: its clock is in the selected range, or no range is selected.
fn is_chosen(choice: Choice, row: &Row) -> bool
    ensures { result ≡ chooses choice row.now }
{
    match choice {
        Choice::Between(place, from, to) => match row.values.as_slice().get(place) {
            Some(second) => from <= *second && *second <= to,
            None => false,
        },
        _ => true,
    }
}

/// How many rows are chosen.
fn count_chosen(rows: &[Row], choice: Choice) -> usize
    ensures { result ≡ length (filter (chooses choice) rows.now) }
{
    rows.iter().filter(|row| is_chosen(choice, row)).count()
}

/// Appends some columns of a row, if it is chosen.
fn put_if_chosen<A: Allocator>(
    out: &mut Vec<u8, A>,
    columns: &[u8],
    row: &Row,
    choice: Choice,
    first: usize,
    end: usize,
) -> Result<(), AllocError>
    requires row { IsRowOf columns.now row.now }
    requires order { first ≤ end }
    requires end { end ≤ length columns.now }
    ensures { OnOk result (ArePut IsRow
        (map (λ row. slice_range (cells_of columns.now row) first end)
        (filter (chooses choice) (row.now ∷ []))) out.old.items out.new.items) }
{
    if is_chosen(choice, row) {
        put_row(out, columns, row, first, end)
    } else {
        Ok(())
    }
}

/// Appends some columns of the rows that are chosen.
fn put_rows<A: Allocator>(
    out: &mut Vec<u8, A>,
    columns: &[u8],
    rows: &[Row],
    choice: Choice,
    first: usize,
    end: usize,
) -> Result<(), AllocError>
    requires rows { All (IsRowOf columns.now) rows.now }
    requires order { first ≤ end }
    requires end { end ≤ length columns.now }
    ensures { OnOk result (ArePut IsRow
        (map (λ row. slice_range (cells_of columns.now row) first end)
        (filter (chooses choice) rows.now)) out.old.items out.new.items) }
{
    for row in rows {
        put_if_chosen(out, columns, row, choice, first, end)?;
    }
    Ok(())
}

/// The size in bytes of a table of `count` rows with these columns.
fn table_len(count: usize, columns: &[u8]) -> usize {
    let mut row_len = 2usize;
    for id in columns {
        let field_len = if *id == CLOCK_ID {
            SECOND_BYTES
        } else {
            NUMBER_BYTES
        };
        row_len = row_len.saturating_add(field_len);
    }
    let head_len = if count < 128 {
        2
    } else if count < 256 {
        3
    } else {
        4
    };
    count.saturating_mul(row_len).saturating_add(head_len)
}

/// The encoding of the array of some columns of the selected rows, which are in two slices.
fn table<A: Allocator + Copy>(
    alloc: A,
    columns: &[u8],
    older: &[Row],
    newer: &[Row],
    choice: Choice,
    first: usize,
    end: usize,
) -> Result<Vec<u8, A>, AllocError>
    requires older { All (IsRowOf columns.now) older.now }
    requires newer { All (IsRowOf columns.now) newer.now }
    requires few { length (older.now ++ newer.now) ≤ CAPACITY }
    requires order { first ≤ end }
    requires end { end ≤ length columns.now }
    ensures { IfOk result (λ out. IsPut
        (IsTable (map (λ row. slice_range (cells_of columns.now row) first end)
        (filter (chooses choice) (older.now ++ newer.now)))) [] out.items) }
{
    let count = count_chosen(older, choice) + count_chosen(newer, choice);
    let mut out = Vec::with_capacity(alloc, table_len(count, &columns[first..end]))?;
    put_count(&mut out, ARRAY, count as u16)?;
    put_rows(&mut out, columns, older, choice, first, end)?;
    put_rows(&mut out, columns, newer, choice, first, end)?;
    Ok(out)
}

/// The rows after the first `skipped`, up to before `end`.
fn part(rows: &[Row], skipped: usize, end: usize) -> &[Row]
    ensures { result.now ≡ slice_range rows.now skipped end }
{
    let end = end.min(rows.len());
    if skipped < end {
        &rows[skipped..end]
    } else {
        &[]
    }
}

/// The number of rows, of `count`, up to this entry, counted from 1; 0 means the last one.
fn end_of(last: u32, count: usize) -> usize
    ensures { result ≡ if nat_eq last 0 then count else last }
{
    if last == 0 { count } else { last as usize }
}

/// The encoding of the rows from one entry to another, and of each the columns from one to another.
fn cut<A: Allocator + Copy>(
    alloc: A,
    columns: &[u8],
    rows: &Rows<A>,
    entries: (u32, u32),
    shown: (u16, u16),
) -> Result<Vec<u8, A>, AllocError>
    requires rows { All (IsRowOf columns.now) rows.now.items }
    requires entry { 0 < entries.0 }
    requires column { 0 < shown.0 }
    requires order { shown.0 ≤ last_of (length columns.now) shown.1 }
    ensures { IfOk result (λ out. IsPut
        (IsTable (map (λ row. columns_between (length columns.now) shown.0 shown.1
        (cells_of columns.now row))
        (cut_out entries.0 entries.1 rows.now.items))) [] out.items) }
{
    let skipped = entries.0 as usize - 1;
    let until = end_of(entries.1, rows.len());
    let first = usize::from(shown.0) - 1;
    let end = last_column(columns.len(), shown.1);
    let (older, newer) = rows.as_slices();
    let behind = older.len();
    table(
        alloc,
        columns,
        part(older, skipped, until),
        part(
            newer,
            skipped.saturating_sub(behind),
            until.saturating_sub(behind),
        ),
        Choice::Whole,
        first,
        end,
    )
}

/// The encoding of the rows that are chosen, with all their columns.
fn whole<A: Allocator + Copy>(
    alloc: A,
    columns: &[u8],
    rows: &Rows<A>,
    choice: Choice,
) -> Result<Vec<u8, A>, AllocError>
    requires rows { All (IsRowOf columns.now) rows.now.items }
    ensures { IfOk result (λ out. IsPut
        (IsTable (map (cells_of columns.now)
        (filter (chooses choice) rows.now.items))) [] out.items) }
{
    let _few = rows.len();
    let (older, newer) = rows.as_slices();
    table(alloc, columns, older, newer, choice, 0, columns.len())
}

/// The encoding of the part that is wanted, of rows with these columns.
pub fn encoded_buffer<A: Allocator + Copy>(
    alloc: A,
    columns: &[u8],
    rows: &Rows<A>,
    choice: Choice,
) -> Result<Vec<u8, A>, AllocError>
    requires rows { All (IsRowOf columns.now) rows.now.items }
    requires proper { IsProper columns.now choice }
    ensures { (p : Part) → Picks columns.now p choice
        → IfOk result (λ out. IsPut (Shows
        (part_shown columns.now p rows.now.items)) [] out.items) }
{
    match choice {
        Choice::Whole => whole(alloc, columns, rows, Choice::Whole),
        Choice::Between(place, from, to) => {
            whole(alloc, columns, rows, Choice::Between(place, from, to))
        }
        Choice::Cut(first, last, first_col, last_col) => {
            cut(alloc, columns, rows, (first, last), (first_col, last_col))
        }
    }
}
