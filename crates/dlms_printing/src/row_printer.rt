//! The rows of a profile, printed while they come.

use crate::last_texts::LastTexts;
use crate::listed_rows::ListedRows;
use crate::progress::{Following, RowsSeen};
use crate::table::{Table, append_field, append_padded};
use dlms_buffer::BufferFault;
use dlms_call::Watch;
use dlms_faults::Fault;
use dlms_values::{Items, read};
use dlms_words::TableFormat;
use std::alloc::{AllocError, Global};
use std::io::Write;

/// Why no more rows are printed.
#[derive(Clone, Copy)]
enum Stop {
    Output,
    Buffer(BufferFault),
}

/// Prints rows while they come: those of a table and of CSV as soon as they are complete, and flushed; JSON and a compact array at
/// the end. It keeps the first fault until then.
#[derive(Drop)]
pub struct RowPrinter<'a, 'p, 'w, W, P> {
    alloc: Global,
    name: &'a str,
    table: Table<'p>,
    format: TableFormat,
    rows: ListedRows,
    texts: LastTexts,
    widths: Vec<usize>,
    /// Whether the titles are printed.
    has_begun: bool,
    /// How many octets of the buffer were looked at.
    looked: usize,
    seen: RowsSeen,
    stop: Option<Stop>,
    output: &'w mut W,
    progress: &'w mut P,
}

impl<'a, 'p, 'w, W: Write, P: Following> RowPrinter<'a, 'p, 'w, W, P> {
    /// Nothing has come yet of the profile of this name.
    pub fn new(
        alloc: Global,
        name: &'a str,
        table: Table<'p>,
        format: TableFormat,
        output: &'w mut W,
        progress: &'w mut P,
    ) -> Result<Self, AllocError> {
        let texts = LastTexts::new(alloc, table.shapes.len())?;
        let widths = table.title_widths(alloc)?;
        Ok(RowPrinter {
            alloc,
            name,
            table,
            format,
            rows: ListedRows::new(table.shapes.len()),
            texts,
            widths,
            has_begun: false,
            looked: 0,
            seen: RowsSeen::new(alloc),
            stop: None,
            output,
            progress,
        })
    }

    /// The rows before this one are not printed: `--last` asks for fewer than the buffer has.
    fn skipped(&self) -> u32 {
        match self.table.last {
            Some(last) => self.rows.count().saturating_sub(last),
            None => 0,
        }
    }

    /// Appends the titles, once a row is complete.
    fn begin(&mut self, value: &[u8], text: &mut Vec<u8>) -> Result<(), AllocError> {
        if self.has_begun {
            return Ok(());
        }
        let texts = LastTexts::new(self.alloc, self.table.shapes.len())?;
        if !measure(
            self.alloc,
            &self.table,
            self.rows,
            texts,
            value,
            &mut self.widths,
        )? {
            return Ok(());
        }
        self.append_head(text)
    }

    /// Appends the titles.
    fn append_head(&mut self, text: &mut Vec<u8>) -> Result<(), AllocError> {
        self.has_begun = true;
        let widths = self.widths.as_slice();
        self.table
            .append_head(self.alloc, text, self.format, widths)
    }

    /// Reads a row, and appends it if it is to be printed. A cell that is wider than its column widens the column from here on.
    fn append_row(&mut self, values: Items<'_>, text: &mut Vec<u8>) -> Result<(), BufferFault> {
        self.texts.take(self.alloc, &self.table, values)?;
        if self.rows.taken() <= self.skipped() {
            return Ok(());
        }
        self.seen.note(time_in(&self.table, &self.texts))?;
        widen(&mut self.widths, &self.texts);
        match self.format {
            TableFormat::Json => {}
            TableFormat::Csv => append_fields(text, &self.texts, self.widths.len())?,
            TableFormat::Table => append_columns(text, &self.texts, self.widths.as_slice())?,
        }
        Ok(())
    }

    /// Appends the rows that have been completed.
    fn append_rows(&mut self, value: &[u8], text: &mut Vec<u8>) -> Result<(), BufferFault> {
        if self.format != TableFormat::Json {
            self.begin(value, text)?;
        }
        for _ in 0..u32::MAX {
            match self.rows.next_row(value)? {
                Some(values) => self.append_row(values, text)?,
                None => break,
            }
        }
        self.seen.all = self.rows.count().saturating_sub(self.skipped());
        Ok(())
    }

    /// Prints a text, and flushes it.
    fn put(&mut self, text: &[u8]) -> Result<(), Stop> {
        if text.is_empty() {
            return Ok(());
        }
        match self.output.write_all(text) {
            Ok(()) => {}
            Err(_) => return Err(Stop::Output),
        }
        match self.output.flush() {
            Ok(()) => Ok(()),
            Err(_) => Err(Stop::Output),
        }
    }

    /// Prints the rows that have been completed, also those before a fault.
    fn put_rows(&mut self, value: &[u8]) -> Result<(), Stop> {
        let mut text = Vec::new(self.alloc);
        let told = self.append_rows(value, &mut text);
        let put = self.put(text.as_slice());
        drop(text);
        put?;
        match told {
            Ok(()) => Ok(()),
            Err(fault) => Err(Stop::Buffer(fault)),
        }
    }

    /// Prints the titles of a table without rows.
    fn put_head(&mut self) -> Result<(), Stop> {
        if self.has_begun {
            return Ok(());
        }
        let mut text = Vec::new(self.alloc);
        let told = match self.append_head(&mut text) {
            Ok(()) => self.put(text.as_slice()),
            Err(_) => Err(Stop::Buffer(BufferFault::Memory)),
        };
        drop(text);
        told
    }

    /// Prints the last rows of an array. If all of it came, it has to be one value.
    fn put_listed(&mut self, value: &[u8], is_whole: bool) -> Result<(), Stop> {
        self.rows.end();
        self.put_rows(value)?;
        if !is_whole {
            return Ok(());
        }
        if let Err(fault) = read(value) {
            return Err(Stop::Buffer(BufferFault::Value(fault)));
        }
        self.put_head()
    }

    /// Prints what has to be complete.
    fn put_whole(&mut self, value: &[u8]) -> Result<(), Fault<'a>> {
        self.seen.clear();
        self.table.put(
            self.alloc,
            self.name,
            self.format,
            value,
            self.output,
            &mut self.seen,
        )
    }

    /// The fault of a stop.
    fn fault_of(&self, stop: Stop) -> Fault<'a> {
        match stop {
            Stop::Output => Fault::Output,
            Stop::Buffer(fault) => Fault::of_buffer(self.name, fault),
        }
    }

    /// Prints what has not been printed.
    fn put_rest(&mut self, value: &[u8], is_whole: bool) -> Result<(), Fault<'a>> {
        if let Some(stop) = self.stop {
            return Err(self.fault_of(stop));
        }
        if self.rows.is_array() && self.format != TableFormat::Json {
            return match self.put_listed(value, is_whole) {
                Ok(()) => Ok(()),
                Err(stop) => Err(self.fault_of(stop)),
            };
        }
        if is_whole {
            self.put_whole(value)
        } else {
            Ok(())
        }
    }

    /// Prints what has not been printed of a value, of which no more comes, and returns the first fault. If not all of it came, only
    /// rows are printed that are complete, and a row that is cut is no fault.
    pub fn finish(&mut self, value: &[u8], is_whole: bool) -> Result<(), Fault<'a>> {
        let told = self.put_rest(value, is_whole);
        let is_whole = told.is_ok() && is_whole;
        if self.format == TableFormat::Json && !is_whole {
            self.seen.clear();
        }
        self.progress.end(&self.seen, is_whole);
        told
    }
}

impl<W: Write, P: Following> Watch for RowPrinter<'_, '_, '_, W, P> {
    fn look(&mut self, value: &[u8]) {
        if self.stop.is_some() || value.len() == self.looked {
            return;
        }
        self.looked = value.len();
        if let Err(stop) = self.put_rows(value) {
            self.stop = Some(stop);
        }
        self.progress.follow(&self.seen);
    }
}

/// The values of the next row, if it is complete and has no fault.
fn next_of<'v>(rows: &mut ListedRows, value: &'v [u8]) -> Option<Items<'v>> {
    rows.next_row(value).unwrap_or(None)
}

/// Makes the columns as wide as the cells of the complete rows, and returns whether there are any. These are the rows that were not
/// read yet, and the texts of the row before them.
fn measure(
    alloc: Global,
    table: &Table<'_>,
    rows: ListedRows,
    texts: LastTexts,
    value: &[u8],
    widths: &mut [usize],
) -> Result<bool, AllocError> {
    let mut rows = rows;
    let mut texts = texts;
    let mut is_any = false;
    for _ in 0..u32::MAX {
        let Some(values) = next_of(&mut rows, value) else {
            break;
        };
        is_any = true;
        texts.take(alloc, table, values)?;
        widen(widths, &texts);
    }
    Ok(is_any)
}

/// The time that a row shows, if it has one and values are not printed as the meter sends them.
fn time_in<'t>(table: &Table<'_>, texts: &'t LastTexts) -> &'t [u8] {
    match table.clock_column() {
        Some(at) => texts.field(at),
        None => b"",
    }
}

/// Makes each column at least as wide as its cell in this row.
fn widen(widths: &mut [usize], texts: &LastTexts) {
    for (at, width) in widths.iter_mut().enumerate() {
        *width = (*width).max(texts.field(at).len());
    }
}

/// Appends a row of CSV.
fn append_fields(text: &mut Vec<u8>, texts: &LastTexts, count: usize) -> Result<(), AllocError> {
    for at in 0..count {
        if at > 0 {
            text.extend_from_slice(b",")?;
        }
        append_field(text, texts.field(at))?;
    }
    text.extend_from_slice(b"\n")
}

/// Appends a row of a table with these widths.
fn append_columns(
    text: &mut Vec<u8>,
    texts: &LastTexts,
    widths: &[usize],
) -> Result<(), AllocError> {
    for at in 0..widths.len() {
        append_padded(text, texts.field(at), widths, at)?;
    }
    text.extend_from_slice(b"\n")
}
