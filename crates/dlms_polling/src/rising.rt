//! The rows of an answer that a readings file takes, and how many it does not.

ghost use Rattle.std.specs.Prelude.{◌≡◌, ◌<◌, ◌-◌, length, filter, slice_get, IfOk, OnErr};
ghost use Rattle.dlms_headend.specs.Merged.{is_later};
ghost use Rattle.dlms_polling.specs.Risers.{count_left_out, is_last, risers, same};

use dlms_headend::Row;
use std::alloc::{AllocError, Global};

/// Whether a row is later than this clock; any row is, if there is none.
fn is_later(latest: Option<u32>, row: &Row) -> bool
    ensures { result ≡ is_later latest row.now }
{
    match latest {
        None => true,
        Some(clock) => clock < row.clock,
    }
}

/// The rows of an answer that are later than every row before them, in their order. Memory is needed only for an answer with rows.
pub fn risers(alloc: Global, rows: &[Row]) -> Result<Vec<Row>, AllocError>
    ensures rows { IfOk result (λ kept. kept.items ≡ risers rows.now) }
    ensures memory { OnErr result (0 < length rows.now) }
{
    let mut kept = Vec::new(alloc);
    let mut latest = None;
    for row in rows {
        if is_later(latest, row) {
            kept.push(*row)?;
            latest = Some(row.clock);
        }
    }
    Ok(kept)
}

/// Whether two rows are the same.
fn is_same(one: &Row, other: &Row) -> bool
    ensures { result ≡ same one.now other.now }
{
    one.clock == other.clock && one.registers.as_slice() == other.registers.as_slice()
}

/// Whether a row is the last one of a file.
fn is_last(last: Option<Row>, row: &Row) -> bool
    ensures { result ≡ is_last last row.now }
{
    match last {
        None => false,
        Some(last) => is_same(&last, row),
    }
}

/// How many rows are the last one of a file.
fn count_last(last: Option<Row>, rows: &[Row]) -> usize
    ensures { result ≡ length (filter (is_last last) rows.now) }
{
    rows.iter().filter(|row| is_last(last, row)).count()
}

/// How many rows are later than this clock.
fn count_later(latest: Option<u32>, rows: &[Row]) -> usize
    ensures { result ≡ length (filter (is_later latest) rows.now) }
{
    rows.iter().filter(|row| is_later(latest, row)).count()
}

/// The last row.
fn last_row(rows: &[Row]) -> Option<Row>
    ensures { result ≡ slice_get rows.now (length rows.now - 1) }
{
    rows.last().copied()
}

/// How many rows of an answer are left out of the readings before it, where `kept` are those that are later than every row before
/// them. The last row of the readings, which each answer repeats, is not counted.
pub fn left_out(before: &[Row], rows: &[Row], kept: &[Row]) -> usize
    requires { kept.now ≡ risers rows.now }
    ensures { result ≡ count_left_out before.now rows.now }
{
    let last = last_row(before);
    let same = count_last(last, rows);
    let added = count_later(last.map(|row| row.clock), kept);
    rows.len().saturating_sub(same).saturating_sub(added)
}

/// The clock of the first row that is left out.
pub fn first_left_out(before: &[Row], rows: &[Row]) -> Option<u32> {
    let last = last_row(before);
    let mut latest = last.map(|row| row.clock);
    for row in rows {
        if is_later(latest, row) {
            latest = Some(row.clock);
        } else if !is_last(last, row) {
            return Some(row.clock);
        }
    }
    None
}
