//! The rows of a profile as a table, as CSV or as JSON.

use crate::buffer_rows::BufferRows;
use crate::other_values::{append_float, is_float};
use crate::progress::{RowsSeen, append_blanks};
use crate::typed::is_time;
use crate::values::{Teller, append_code, append_labelled};
use dlms_buffer::{BufferFault, Cell, Column, LastRow, append_cell, append_value};
use dlms_faults::Fault;
use dlms_names::{code_name, unit_name};
use dlms_words::TableFormat;
use std::alloc::{AllocError, Global};
use std::io::Write;

/// The attribute that is a column's usually, and is not named then.
const USUAL: i8 = 2;

/// The class Clock (IEC 62056-6-2, Blue Book 4.5.1).
const CLOCK: u16 = 8;

/// The unit of a value without a unit.
const COUNT: u8 = 255;

/// A column, and the scaler and the unit of its numbers.
#[derive(Clone, Copy)]
pub struct ColumnShape {
    pub column: Column,
    pub scaler: i8,
    pub unit: Option<u8>,
}

impl ColumnShape {
    /// A column whose numbers are printed as they are.
    pub fn new(column: Column) -> Self {
        ColumnShape {
            column,
            scaler: 0,
            unit: None,
        }
    }

    /// Whether it is the time of a clock.
    pub fn is_time(&self) -> bool {
        self.column.class == CLOCK && self.column.attribute == USUAL
    }

    /// Whether its values are times.
    pub fn has_times(&self) -> bool {
        is_time(self.column.class, i16::from(self.column.attribute))
    }

    /// The name of its unit, if it has one.
    pub fn unit(&self) -> Option<&'static str> {
        match self.unit {
            Some(COUNT) | None => None,
            Some(unit) => unit_name(unit),
        }
    }

    /// Appends its name: the logical name, the attribute if it is not the second, the code's name, and the unit.
    fn append_title(&self, text: &mut Vec<u8>) -> Result<(), AllocError> {
        append_code(text, self.column.name)?;
        if self.column.attribute != USUAL {
            append_labelled(text, b"/", u64::from(self.column.attribute.unsigned_abs()))?;
        }
        if let Some(name) = code_name(self.column.name) {
            text.extend_from_slice(b" ")?;
            text.extend_from_slice(name.as_bytes())?;
        }
        if let Some(unit) = self.unit() {
            text.extend_from_slice(b" (")?;
            text.extend_from_slice(unit.as_bytes())?;
            text.extend_from_slice(b")")?;
        }
        Ok(())
    }
}

/// The profile of a table, its columns, the capture period in seconds, whether values are printed as the meter sends them, and how many of the
/// last rows are printed, if not all of them are.
#[derive(Clone, Copy)]
pub struct Table<'p> {
    pub code: [u8; 6],
    pub shapes: &'p [ColumnShape],
    pub period: u32,
    pub raw: bool,
    pub last: Option<u32>,
}

/// Appends a field of CSV (RFC 4180): in quotes if it has a comma, a quote or a line end.
pub fn append_field(text: &mut Vec<u8>, field: &[u8]) -> Result<(), AllocError> {
    let is_plain = field.iter().all(|octet| *octet != b','
        && *octet != b'"'
        && *octet != b'\r'
        && *octet != b'\n');
    if is_plain {
        return text.extend_from_slice(field);
    }
    text.extend_from_slice(b"\"")?;
    for octet in field {
        if *octet == b'"' {
            text.extend_from_slice(b"\"")?;
        }
        text.extend_from_slice(&[*octet])?;
    }
    text.extend_from_slice(b"\"")
}

impl<'p> Table<'p> {
    /// Appends what a cell shows: a time as ISO 8601, a number with its scaler, octets as text if they are printable. With `raw` it is
    /// the value as the meter sends it.
    pub fn append_cell(
        &self,
        alloc: Global,
        text: &mut Vec<u8>,
        shape: &ColumnShape,
        cell: &Cell<'_>,
    ) -> Result<(), AllocError> {
        if self.raw {
            return append_value(text, &cell.value, 0);
        }
        if is_float(&cell.value) {
            return append_float(alloc, text, &cell.value, shape.scaler);
        }
        let period = if shape.has_times() { self.period } else { 0 };
        append_cell(text, cell, period, shape.scaler)
    }

    /// Whether a null of this column means a later time than that of the row before it.
    pub fn moves_on(&self, shape: &ColumnShape) -> bool {
        !self.raw && self.period > 0 && shape.has_times()
    }

    /// The column of the rows' times: the first clock, unless values are printed as the meter sends them.
    pub fn clock_column(&self) -> Option<usize> {
        if self.raw {
            return None;
        }
        for (at, shape) in self.shapes.iter().enumerate() {
            if shape.is_time() {
                return Some(at);
            }
        }
        None
    }

    /// Notes a row that is printed, with its time if it has one.
    fn note(
        &self,
        alloc: Global,
        cells: &[Cell<'_>],
        seen: &mut RowsSeen,
    ) -> Result<(), AllocError> {
        let mut time = Vec::new(alloc);
        if let Some(at) = self.clock_column() {
            if let (Some(shape), Some(cell)) = (self.shapes.get(at), cells.get(at)) {
                self.append_cell(alloc, &mut time, shape, cell)?;
            }
        }
        seen.note(time.as_slice())
    }

    /// Appends a field after those before it: of CSV after a comma, of a table with blanks up to the next column.
    fn append_part(
        &self,
        text: &mut Vec<u8>,
        format: TableFormat,
        widths: &[usize],
        at: usize,
        field: &[u8],
    ) -> Result<(), AllocError> {
        if format != TableFormat::Csv {
            return append_padded(text, field, widths, at);
        }
        if at > 0 {
            text.extend_from_slice(b",")?;
        }
        append_field(text, field)
    }

    /// Appends a row of CSV, or of a table with these widths.
    fn append_row(
        &self,
        alloc: Global,
        text: &mut Vec<u8>,
        format: TableFormat,
        widths: &[usize],
        cells: &[Cell<'_>],
    ) -> Result<(), AllocError> {
        let mut field = Vec::new(alloc);
        for (at, (shape, cell)) in self.shapes.iter().zip(cells.iter()).enumerate() {
            field.clear();
            self.append_cell(alloc, &mut field, shape, cell)?;
            self.append_part(text, format, widths, at, field.as_slice())?;
        }
        text.extend_from_slice(b"\n")
    }

    /// Appends the titles of CSV, or of a table with these widths.
    pub fn append_head(
        &self,
        alloc: Global,
        text: &mut Vec<u8>,
        format: TableFormat,
        widths: &[usize],
    ) -> Result<(), AllocError> {
        let mut field = Vec::new(alloc);
        for (at, shape) in self.shapes.iter().enumerate() {
            field.clear();
            shape.append_title(&mut field)?;
            self.append_part(text, format, widths, at, field.as_slice())?;
        }
        text.extend_from_slice(b"\n")
    }

    /// The widths of the titles.
    pub fn title_widths(&self, alloc: Global) -> Result<Vec<usize>, AllocError> {
        let mut widths = Vec::new(alloc);
        let mut field = Vec::new(alloc);
        for shape in self.shapes {
            field.clear();
            shape.append_title(&mut field)?;
            widths.push(field.len())?;
        }
        Ok(widths)
    }

    /// Makes each column as wide as its widest cell.
    fn widen(
        &self,
        alloc: Global,
        field: &mut Vec<u8>,
        widths: &mut [usize],
        cells: &[Cell<'_>],
    ) -> Result<(), AllocError> {
        for ((shape, cell), width) in self.shapes.iter().zip(cells.iter()).zip(widths.iter_mut()) {
            field.clear();
            self.append_cell(alloc, field, shape, cell)?;
            *width = (*width).max(field.len());
        }
        Ok(())
    }

    /// Counts the rows of a buffer, and makes each column of a table as wide as its widest cell.
    fn measure(
        &self,
        alloc: Global,
        format: TableFormat,
        bytes: &[u8],
        widths: &mut [usize],
    ) -> Result<u32, BufferFault> {
        let mut rows = BufferRows::of(bytes)?;
        let mut row = LastRow::new(alloc, self.shapes.len())?;
        let mut field = Vec::new(alloc);
        let mut count = 0u32;
        for _ in 0..u32::MAX {
            if !rows.next_row(alloc, &mut row)? {
                break;
            }
            count = count.saturating_add(1);
            if format == TableFormat::Table {
                self.widen(alloc, &mut field, widths, row.cells.as_slice())?;
            }
        }
        Ok(count)
    }

    /// Prints a row, and sends it out.
    fn put_row<'a, W: Write>(
        &self,
        teller: &mut Teller<'a, '_, W>,
        format: TableFormat,
        widths: &[usize],
        is_first: bool,
        cells: &[Cell<'_>],
    ) -> Result<(), Fault<'a>> {
        if format == TableFormat::Json {
            self.put_row_json(teller, is_first, cells)?;
        } else {
            self.append_row(teller.alloc, &mut teller.text, format, widths, cells)?;
        }
        teller.flush()
    }

    /// Prints the rows in the whole encoding of a buffer, and notes them.
    pub fn put<'a, W: Write>(
        &self,
        alloc: Global,
        name: &'a str,
        format: TableFormat,
        bytes: &[u8],
        output: &mut W,
        seen: &mut RowsSeen,
    ) -> Result<(), Fault<'a>> {
        let mut widths = self.title_widths(alloc)?;
        let count = match self.measure(alloc, format, bytes, &mut widths) {
            Ok(count) => count,
            Err(fault) => return Err(Fault::of_buffer(name, fault)),
        };
        let skipped = match self.last {
            Some(last) => count.saturating_sub(last),
            None => 0,
        };
        let mut teller = Teller::new(alloc, name, output);
        teller.put_table(self, format, bytes, widths.as_slice(), skipped, seen)
    }
}

impl<'a, W: Write> Teller<'a, '_, W> {
    /// Prints the head of a table, the rows of a buffer after the first `skipped` ones, and of JSON the end.
    fn put_table(
        &mut self,
        table: &Table<'_>,
        format: TableFormat,
        bytes: &[u8],
        widths: &[usize],
        skipped: u32,
        seen: &mut RowsSeen,
    ) -> Result<(), Fault<'a>> {
        if format != TableFormat::Json {
            table.append_head(self.alloc, &mut self.text, format, widths)?;
            self.flush()?;
            return self.put_rows(table, format, bytes, widths, skipped, seen);
        }
        table.append_head_json(&mut self.text)?;
        self.flush()?;
        self.put_rows(table, format, bytes, widths, skipped, seen)?;
        self.text.extend_from_slice(b"\n]}\n")?;
        self.flush()
    }

    /// Prints the rows of a buffer after the first `skipped` ones.
    fn put_rows(
        &mut self,
        table: &Table<'_>,
        format: TableFormat,
        bytes: &[u8],
        widths: &[usize],
        skipped: u32,
        seen: &mut RowsSeen,
    ) -> Result<(), Fault<'a>> {
        let alloc = self.alloc;
        let mut rows = match BufferRows::of(bytes) {
            Ok(rows) => rows,
            Err(fault) => return Err(Fault::of_buffer(self.place, fault)),
        };
        let mut row = LastRow::new(alloc, table.shapes.len())?;
        for at in 0..u32::MAX {
            match rows.next_row(alloc, &mut row) {
                Ok(true) => {}
                Ok(false) => break,
                Err(fault) => return Err(Fault::of_buffer(self.place, fault)),
            }
            if at >= skipped {
                let cells = row.cells.as_slice();
                table.put_row(self, format, widths, at == skipped, cells)?;
                table.note(alloc, cells, seen)?;
            }
        }
        Ok(())
    }
}

/// Appends a field of a table, and the blanks to the next column, if there is one.
pub fn append_padded(
    text: &mut Vec<u8>,
    field: &[u8],
    widths: &[usize],
    at: usize,
) -> Result<(), AllocError> {
    text.extend_from_slice(field)?;
    let width = match widths.get(at) {
        Some(width) if at.saturating_add(1) < widths.len() => *width,
        _ => return Ok(()),
    };
    append_blanks(text, width.saturating_sub(field.len()))?;
    text.extend_from_slice(b"  ")
}
