//! The last row that was read.

ghost use Rattle.std.specs.Prelude.{◌≡◌, ◌≢◌, ℕ, List, Ok, Err, MatchResult, IfOk, length, map, ◌++◌, ◌∷◌, []};
ghost use Rattle.dlms_values.specs.Value.{Value as Given, count};
ghost use Rattle.dlms_values.specs.View.{value_of, values_in};
ghost use Rattle.dlms_buffer.specs.Rows.{listed, row_of};
ghost use Rattle.dlms_buffer.specs.View.{cell_view, ShowRows};
ghost use Rattle.dlms_buffer.specs.declared.fault.BufferFault.TheVariants.{Width};
ghost use Rattle.dlms_buffer.specs.Steps.{step, steps};

use crate::cell::Cell;
use crate::fault::BufferFault;
use dlms_values::{Items, Value};
use std::alloc::{AllocError, Allocator};

/// A cell for each column, which shows the last row that was read.
#[derive(Drop)]
pub struct LastRow<'a, A: Allocator> {
    pub cells: Vec<Cell<'a>, A>,
}

/// What a cell shows in the next row, which has this value.
fn next_cell<'a>(cell: &Cell<'a>, value: Value<'a>) -> Cell<'a>
    ensures { cell_view result ≡ step (cell_view cell.now) (value_of value.entry) }
{
    match value {
        Value::Null => Cell {
            value: cell.value,
            age: cell.age.saturating_add(1),
        },
        _ => Cell { value, age: 0 },
    }
}

/// The cells of the next row, which has these values.
fn take_values<'a>(cells: &mut [Cell<'a>], values: Items<'a>)
    requires { count (values_in values) ≡ length cells.old }
    ensures { map cell_view cells.new
        ≡ steps (map cell_view cells.old) (listed (values_in values.entry)) }
{
    let mut rest = values;
    for cell in cells.iter_mut() {
        let Some(value) = rest.next_value() else {
            unreachable!()
        };
        *cell = next_cell(cell, value);
    }
}

/// The cells of the next row, which has these values, one for each cell.
fn take_each<'a>(cells: &mut [Cell<'a>], values: &[Value<'a>])
    requires { length values.now ≡ length cells.old }
    ensures { map cell_view cells.new ≡ steps (map cell_view cells.old) (map value_of values.now) }
{
    for i in 0..values.len() {
        let cell = next_cell(&cells[i], values[i]);
        cells[i] = cell;
    }
}

impl<'a, A: Allocator> LastRow<'a, A> {
    /// No row yet, of this many columns.
    pub fn new(alloc: A, width: usize) -> Result<Self, AllocError>
        ensures { IfOk result (λ row. (length row.cells.items ≡ width)
            × ShowRows [] (map cell_view row.cells.items)) }
    {
        let none = Cell {
            value: Value::Null,
            age: 0,
        };
        let mut cells = Vec::with_capacity(alloc, width)?;
        for _ in 0..width {
            cells.push(none)?;
        }
        Ok(LastRow { cells })
    }

    /// Reads the next row. A row that is refused changes nothing.
    pub fn take(&mut self, row: Value<'a>) -> Result<(), BufferFault>
        ensures taken { MatchResult result
            (λ _. (values : List Given)
            × (row_of (length self.old.cells.items) (value_of row.entry) ≡ Ok values)
            × ((rows : List (List Given)) → ShowRows rows (map cell_view self.old.cells.items)
            → ShowRows (rows ++ values ∷ []) (map cell_view self.new.cells.items)))
            (λ e. (row_of (length self.old.cells.items) (value_of row.entry) ≡ Err e)
            × (self.new ≡ self.old)) }
        ensures width { length self.new.cells.items ≡ length self.old.cells.items }
    {
        let Value::Structure(values) = row else {
            return Err(BufferFault::Row);
        };
        if values.len() as usize != self.cells.len() {
            return Err(BufferFault::Width);
        }
        take_values(&mut self.cells, values);
        Ok(())
    }
    /// Reads the next row, which has these values. It has to have one for each column; else nothing changes.
    pub fn take_packed(&mut self, values: &[Value<'a>]) -> Result<(), BufferFault>
        ensures taken { MatchResult result
            (λ _. (length values.now ≡ length self.old.cells.items)
            × ((rows : List (List Given)) → ShowRows rows (map cell_view self.old.cells.items)
            → ShowRows (rows ++ map value_of values.now ∷ []) (map cell_view self.new.cells.items)))
            (λ e. (e ≡ Width) × (length values.now ≢ length self.old.cells.items)
            × (self.new ≡ self.old)) }
        ensures width { length self.new.cells.items ≡ length self.old.cells.items }
    {
        if values.len() != self.cells.len() {
            return Err(BufferFault::Width);
        }
        take_each(&mut self.cells, values);
        Ok(())
    }
}
