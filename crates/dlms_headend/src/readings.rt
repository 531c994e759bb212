//! The readings file: the rows of all polls, in the order in which they came.

ghost use Rattle.std.specs.Prelude.{◌≡◌, ◌≤◌, ◌<◌, ◌+◌, ◌^◌, ◌++◌, All, List, drop, length, take, filter, IfOk, IfErr, IfSome, OnOk, OnErr, MatchResult, string_bytes};
ghost use Rattle.dlms_headend.specs.Lines.{line, text_of, IsFile, Refuses};
ghost use Rattle.dlms_headend.specs.Rows.{AreReadings, HaveRegisters};
ghost use Rattle.dlms_headend.specs.Merged.{last_clock, is_later, is_reading, is_added, readings_in, added, merged};
ghost use Rattle.dlms_headend.specs.declared.readings_fault.ReadingsFault.TheVariants.{Memory};
ghost use Rattle.dlms_headend.specs.declared.row.Row.{Row as RowOf};
ghost use Rattle.dlms_data.specs.declared.date_time.TheConstants.{LAST_SECOND};

use crate::lines;
use crate::readings_fault::ReadingsFault;
use crate::row::{Row, keep};
use dlms_data::LAST_SECOND;
use std::alloc::{AllocError, Allocator, Global};
use std::marker::Model;

/// The rows of a readings file, the first line first.
#[derive(Drop)]
pub struct Readings<A: Allocator = Global> {
    rows: Vec<Row, A>,
}

impl<A: Allocator> Model for Readings<A> {
    ghost use Rattle.std.specs.Prelude.{List};
    ghost use Rattle.dlms_headend.specs.declared.row.Row.{Row};
    ghost use Rattle.dlms_headend.specs.Rows.{AreReadings};

    ghost Value = { List Row };

    ghost view = { λ r. r.rows.items };

    ghost invariant = { λ r. AreReadings r.rows.items };
}

/// Whether the row comes after that clock.
fn is_later(last: Option<u32>, row: &Row) -> bool
    ensures { result ≡ is_later last row.now }
{
    match last {
        None => true,
        Some(clock) => clock < row.clock,
    }
}

/// Whether a readings file may hold the row: its clock shows one of the meter's seconds.
fn is_reading(row: &Row) -> bool
    ensures { result ≡ is_reading row.now }
{
    row.clock <= LAST_SECOND
}

/// Whether both are so.
fn is_added(last: Option<u32>, row: &Row) -> bool
    ensures { result ≡ is_added last row.now }
{
    is_reading(row) && is_later(last, row)
}

/// Registers have 32 bits each, as their type says.
fn registers_fit(registers: &[u32])
    ensures { All (λ register. register < 2 ^ 32) registers.now }
{
    let _registers = registers;
}

/// Three registers are three, of 32 bits each.
fn are_three(registers: &[u32; 3])
    ensures count { length registers.now ≡ 3 }
    ensures fit { All (λ register. register < 2 ^ 32) registers.now }
{
    registers_fit(registers);
}

/// Each row has three registers of 32 bits.
fn have_registers(rows: &[Row])
    ensures { HaveRegisters rows.now }
{
    for row in rows {
        are_three(&row.registers);
    }
}

/// Appends the rows that a file may hold and that come after this clock. If memory runs out, some of them may have been appended.
fn append<A: Allocator>(
    rows: &mut Vec<Row, A>,
    last: Option<u32>,
    given: &[Row],
) -> Result<(), AllocError>
    ensures ok { OnOk result (rows.new.items ≡ rows.old.items
        ++ filter (is_later last) (readings_in given.now)) }
    ensures err { (more : List RowOf) × (rows.new.items ≡ rows.old.items ++ more) }
    ensures memory { OnErr result (0 < length (filter (is_later last) (readings_in given.now))) }
{
    for row in given {
        if is_added(last, row) {
            keep(rows, *row)?;
        }
    }
    Ok(())
}

/// The rows of a text.
fn read<A: Allocator>(alloc: A, text: &[u8]) -> Result<Readings<A>, ReadingsFault>
    ensures { MatchResult result (IsFile text.now) (Refuses text.now) }
{
    let rows = lines::rows(alloc, text)?;
    Ok(Readings { rows })
}

impl<A: Allocator + Copy> Readings<A> {
    /// Reads a file's text: a line `clock,r0,r1,r2` for each row, in plain decimal, each line ended by a line feed. A line of
    /// another form is reported even if memory runs out, and an empty text takes none.
    pub fn open(alloc: A, text: &str) -> Result<Self, ReadingsFault>
        // The text is that of the rows, and each row is one that a file may hold.
        ensures found { IfOk result (IsFile text.now) }
        // The rows of a file are read, unless memory runs out.
        ensures only { (rows : List RowOf) → IsFile text.now rows
            → MatchResult result (λ file. file ≡ rows) (λ fault. fault ≡ Memory) }
        // Which fault it is; memory is wanting only for a file that has rows.
        ensures fault { IfErr result (Refuses text.now) }
    {
        read(alloc, text.as_bytes())
    }

    /// Appends the rows, in their order, that are later than the last row of the file (all of them to an empty file), and returns how
    /// many it appended. A row whose clock is past the last second of the meter's clock is left out: no file holds it.
    pub fn merge(&mut self, rows: &[Row]) -> Result<usize, AllocError>
        ensures ok { OnOk result (self.new ≡ merged self.old (readings_in rows.now)) }
        ensures count { IfOk result (λ count. count ≡ length
            (added self.old (readings_in rows.now))) }
        ensures err { OnErr result (self.new ≡ self.old) }
        // Memory is needed only for rows that are appended.
        ensures memory { OnErr result (0 < length (added self.old (readings_in rows.now))) }
    {
        have_registers(rows);
        let before = self.rows.len();
        let last = self.last();
        match append(&mut self.rows, last, rows) {
            Ok(()) => Ok(self.rows.len() - before),
            Err(e) => {
                self.rows.truncate(before);
                Err(e)
            }
        }
    }

    /// The file's text, which `open` reads again. That of no rows takes no memory.
    pub fn text(&self) -> Result<String<A>, AllocError>
        ensures text { IfOk result (λ text. IsFile (string_bytes text) self.now) }
        ensures memory { OnErr result (0 < length self.now) }
    {
        lines::text(*self.rows.allocator(), &self.rows)
    }

    /// Appends the lines of all rows but the first so many to a text.
    pub fn append_text(&self, text: &mut String<A>, from: usize) -> Result<(), AllocError>
        ensures text { OnOk result (string_bytes text.new
            ≡ string_bytes text.old ++ text_of (drop from self.now)) }
        ensures memory { OnErr result (0 < length (drop from self.now)) }
        ensures readings { AreReadings self.now }
    {
        lines::append(text, self.rows.get(from..).unwrap_or(&[]))
    }

    /// The rows, in the order of their lines.
    pub fn rows(&self) -> &[Row]
        ensures { result.now ≡ self.now }
    {
        self.rows.as_slice()
    }

    /// The clock of the last row: a second that a plan may name.
    pub fn last(&self) -> Option<u32>
        ensures last { result ≡ last_clock self.now }
        ensures clock { IfSome result (λ clock. clock ≤ LAST_SECOND) }
    {
        self.rows.last().map(|row| row.clock)
    }
}
