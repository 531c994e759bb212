//! The cells of the last row, as text.

use crate::table::{ColumnShape, Table};
use dlms_buffer::Cell;
use dlms_values::{Items, OctetsKind, Value};
use std::alloc::{AllocError, Global};
use std::mem::swap;

/// Where the text of a cell ends, and the date-time that it shows if that goes up with the rows, with how many rows ago it was given.
#[derive(Clone, Copy)]
struct TextCell {
    end: usize,
    clock: Option<[u8; 12]>,
    age: u64,
}

/// The texts of the last row, one after another. It borrows nothing from the buffer, so that the buffer may grow.
#[derive(Drop)]
pub struct LastTexts {
    cells: Vec<TextCell>,
    texts: Vec<u8>,
    next: Vec<u8>,
}

/// Twelve octets, if there are so many.
fn twelve(octets: &[u8]) -> Option<[u8; 12]> {
    let mut twelve = [0; 12];
    if octets.len() != 12 {
        return None;
    }
    twelve.copy_from_slice(octets);
    Some(twelve)
}

/// The date-time that a value is, if a null below it means a later one.
fn clock_of(table: &Table<'_>, shape: &ColumnShape, value: &Value<'_>) -> Option<[u8; 12]> {
    match value {
        Value::Octets(_, octets) if table.moves_on(shape) => twelve(octets),
        _ => None,
    }
}

/// A date-time as a value.
fn value_of(clock: &[u8; 12]) -> Value<'_> {
    Value::Octets(OctetsKind::OctetString, clock)
}

/// Appends what a cell shows in the next row, which has this value; `shown` is what it showed before.
fn append_next(
    alloc: Global,
    table: &Table<'_>,
    shape: &ColumnShape,
    cell: &mut TextCell,
    value: Value<'_>,
    shown: &[u8],
    text: &mut Vec<u8>,
) -> Result<(), AllocError> {
    if !matches!(value, Value::Null) {
        cell.clock = clock_of(table, shape, &value);
        cell.age = 0;
        return table.append_cell(alloc, text, shape, &Cell { value, age: 0 });
    }
    let Some(clock) = cell.clock else {
        return text.extend_from_slice(shown);
    };
    let age = cell.age.saturating_add(1);
    cell.age = age;
    let value = value_of(&clock);
    table.append_cell(alloc, text, shape, &Cell { value, age })
}

/// Appends what the cells show in the next row, which has these values; `shown` is what they showed before.
fn append_all(
    alloc: Global,
    table: &Table<'_>,
    cells: &mut [TextCell],
    values: Items<'_>,
    shown: &[u8],
    text: &mut Vec<u8>,
) -> Result<(), AllocError> {
    let mut rest = values;
    let mut start = 0;
    for (shape, cell) in table.shapes.iter().zip(cells.iter_mut()) {
        let Some(value) = rest.next_value() else {
            return Ok(());
        };
        let shown = shown.get(start..cell.end).unwrap_or(b"");
        start = cell.end;
        append_next(alloc, table, shape, cell, value, shown, text)?;
        cell.end = text.len();
    }
    Ok(())
}

impl LastTexts {
    /// No row yet, of this many columns.
    pub fn new(alloc: Global, width: usize) -> Result<Self, AllocError> {
        let none = TextCell {
            end: 0,
            clock: None,
            age: 0,
        };
        let mut cells = Vec::with_capacity(alloc, width)?;
        for _ in 0..width {
            cells.push(none)?;
        }
        Ok(LastTexts {
            cells,
            texts: Vec::new(alloc),
            next: Vec::new(alloc),
        })
    }

    /// Reads the next row, which has a value for each column.
    pub fn take(
        &mut self,
        alloc: Global,
        table: &Table<'_>,
        values: Items<'_>,
    ) -> Result<(), AllocError> {
        self.next.clear();
        append_all(
            alloc,
            table,
            &mut self.cells,
            values,
            self.texts.as_slice(),
            &mut self.next,
        )?;
        swap(&mut self.texts, &mut self.next);
        Ok(())
    }

    /// The text of the cell of a column.
    pub fn field(&self, at: usize) -> &[u8] {
        let start = match self.cells.get(at.saturating_sub(1)) {
            Some(cell) if at > 0 => cell.end,
            _ => 0,
        };
        match self.cells.get(at) {
            Some(cell) => self.texts.get(start..cell.end).unwrap_or(b""),
            None => b"",
        }
    }
}
