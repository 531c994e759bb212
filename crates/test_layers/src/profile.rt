//! Rows of `dlms_profile`.

use crate::answers::{put_number, put_number_and, put_shown, put_wide};
use crate::bench::Bench;
use crate::fault::RowFault;
use crate::rows::{put_entries, put_range, put_row};
use crate::state::{row_of, row_with};
use crate::words::{NUMBERS_END, Words};
use dlms_profile::{Row, Rows};
use linked_list_allocator::LocalHeap;

/// A buffer of rows that takes its memory from a heap.
#[derive(Drop)]
pub struct ProfileBench<'h> {
    heap: &'h LocalHeap,
    rows: Option<Rows<&'h LocalHeap>>,
}

/// Appends a row, if a number is left for it.
fn push(rows: &mut Rows<&LocalHeap>, row: Row) -> Result<(), RowFault> {
    if rows.next_number() >= NUMBERS_END {
        return Err(RowFault::Form);
    }
    rows.push(row);
    Ok(())
}

/// Rows of four values: 900, 1800 .., the same once more, 1 and 2.
fn push_periods(rows: &mut Rows<&LocalHeap>, count: u32) -> Result<(), RowFault> {
    for period in 1..=count {
        let clock = period.saturating_mul(900);
        push(rows, row_with(&[clock, clock, 1, 2]))?;
    }
    Ok(())
}

/// The first value of each row, oldest first.
fn put_clocks(rows: &Rows<&LocalHeap>, answer: &mut String) -> Result<(), RowFault> {
    for row in rows.iter() {
        if let Some(clock) = row.values.first() {
            put_number_and(answer, u64::from(*clock), ',')?;
        }
    }
    Ok(())
}

/// How many rows the two slices have.
fn put_slices(rows: &Rows<&LocalHeap>, answer: &mut String) -> Result<(), RowFault> {
    let (older, newer) = rows.as_slices();
    put_number(answer, older.len().saturating_add(newer.len()) as u64)
}

impl<'h> ProfileBench<'h> {
    pub fn new(heap: &'h LocalHeap) -> Self {
        ProfileBench { heap, rows: None }
    }

    /// An empty buffer, whose first row gets this number.
    fn begin(&mut self, next: u128, answer: &mut String) -> Result<(), RowFault> {
        self.rows = None;
        if next > NUMBERS_END {
            return Err(RowFault::Form);
        }
        match Rows::new(self.heap, next) {
            Ok(rows) => {
                self.rows = Some(rows);
                Ok(())
            }
            Err(_) => Ok(answer.push_str("memory")?),
        }
    }

    fn rows(&self) -> Result<&Rows<&'h LocalHeap>, RowFault> {
        self.rows.as_ref().ok_or(RowFault::Missing)
    }

    fn rows_mut(&mut self) -> Result<&mut Rows<&'h LocalHeap>, RowFault> {
        self.rows.as_mut().ok_or(RowFault::Missing)
    }

    /// The calls that change the rows.
    fn change(&mut self, call: &str, words: &mut Words<'_>) -> Result<(), RowFault> {
        match call {
            "push" => {
                let row = row_of(words)?;
                push(self.rows_mut()?, row)
            }
            "periods" => push_periods(self.rows_mut()?, words.number()?),
            _ => {
                self.rows_mut()?.clear();
                Ok(())
            }
        }
    }
}

/// The calls that show the rows.
fn put_view(
    rows: &Rows<&LocalHeap>,
    call: &str,
    words: &mut Words<'_>,
    answer: &mut String,
) -> Result<(), RowFault> {
    match call {
        "len" => put_number(answer, rows.len() as u64),
        "first" => put_wide(answer, rows.first_number()),
        "next" => put_wide(answer, rows.next_number()),
        "is-empty" => put_shown(answer, &rows.is_empty()),
        "slices" => put_slices(rows, answer),
        "clocks" => put_clocks(rows, answer),
        "range" => put_range(rows, 0, words, answer),
        "range-at" => {
            let place = words.number()?;
            put_range(rows, place as usize, words, answer)
        }
        "entries" => put_entries(rows, words, answer),
        "row" => put_row(rows, words.number()?, answer),
        _ => Err(RowFault::Form),
    }
}

impl Bench for ProfileBench<'_> {
    fn step(&mut self, words: &mut Words<'_>, answer: &mut String) -> Result<(), RowFault> {
        let call = words.word()?;
        match call {
            "rows" => self.begin(0, answer),
            "rows-from" => self.begin(words.row_number()?, answer),
            "push" | "periods" | "clear" => self.change(call, words),
            _ => put_view(self.rows()?, call, words, answer),
        }
    }
}
