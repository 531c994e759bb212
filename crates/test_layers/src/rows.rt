//! Rows of captures, as answers show them.

use crate::answers::{put_number, put_with_number};
use crate::fault::RowFault;
use crate::words::Words;
use dlms_profile::{Row, Rows};
use linked_list_allocator::LocalHeap;

/// The most rows that are shown whole.
const MOST: usize = 4;

/// The values of a row: `value,value,value,value`.
pub fn put_values(answer: &mut String, values: &[u32]) -> Result<(), RowFault> {
    let mut before = " ";
    for value in values {
        put_with_number(answer, before, u64::from(*value))?;
        before = ",";
    }
    Ok(())
}

fn put_one(answer: &mut String, row: &Row) -> Result<(), RowFault> {
    put_values(answer, row.values.as_slice())
}

/// How many rows there are, and the rows; of more than four the first and the last.
pub fn put_rows(answer: &mut String, rows: &[Row]) -> Result<(), RowFault> {
    put_number(answer, rows.len() as u64)?;
    match rows {
        [first, .., last] if rows.len() > MOST => {
            put_one(answer, first)?;
            put_one(answer, last)
        }
        _ => {
            for row in rows {
                put_one(answer, row)?;
            }
            Ok(())
        }
    }
}

/// The rows whose value at a place, counted from 0, is of a range.
pub fn put_range(
    rows: &Rows<&LocalHeap>,
    place: usize,
    words: &mut Words<'_>,
    answer: &mut String,
) -> Result<(), RowFault> {
    let first = words.number()?;
    match rows.by_range(place, first, words.number()?) {
        Ok(found) => put_rows(answer, &found),
        Err(_) => Ok(answer.push_str("memory")?),
    }
}

/// The rows from one entry to another.
pub fn put_entries(
    rows: &Rows<&LocalHeap>,
    words: &mut Words<'_>,
    answer: &mut String,
) -> Result<(), RowFault> {
    let first = words.number()?;
    let last = words.number()?;
    if first == 0 {
        return Err(RowFault::Form);
    }
    match rows.by_entry(first, last) {
        Ok(found) => put_rows(answer, &found),
        Err(_) => Ok(answer.push_str("memory")?),
    }
}

/// The row of an index.
pub fn put_row(rows: &Rows<&LocalHeap>, index: u32, answer: &mut String) -> Result<(), RowFault> {
    match rows.get(index as usize) {
        Some(row) => put_rows(answer, &[row.copy()]),
        None => Ok(answer.push_str("no")?),
    }
}
