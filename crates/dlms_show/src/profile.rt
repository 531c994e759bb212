//! The rows of a state's load profile, as a table and as captures of a register.

use dlms_plot::{Date, Quantity, Sample};
use dlms_state::State;
use std::alloc::{AllocError, Allocator};
use std::io;
use std::io::Write;

/// Writes a value of a column: a date, or an energy in thousands.
fn write_value<W: Write>(id: u8, value: u32, output: &mut W) -> io::Result<()> {
    if id == 0 {
        let date = Date(value);
        return write!(output, "  {date}");
    }
    let whole = value / 1000;
    let rest = value % 1000;
    write!(output, "  {whole:>19}.{rest:03}")
}

/// Writes the values of a row, in the order of the columns.
fn write_values<W: Write>(columns: &[u8], values: &[u32], output: &mut W) -> io::Result<()> {
    for (id, value) in columns.iter().zip(values.iter()) {
        write_value(*id, *value, output)?;
    }
    output.write_all(b"\n")
}

/// The head of a column, as wide as its values.
fn head_of(id: u8) -> &'static [u8] {
    match id {
        0 => b"  clock              ",
        1 => b"        active import kWh",
        2 => b"        active export kWh",
        _ => b"    reactive energy kvarh",
    }
}

/// Writes the heads of the columns.
fn write_heads<W: Write>(columns: &[u8], output: &mut W) -> io::Result<()> {
    output.write_all(b"  row       ")?;
    for id in columns {
        output.write_all(head_of(*id))?;
    }
    output.write_all(b"\n")
}

/// Writes the rows, the oldest first, each with its number.
pub fn write_rows<A: Allocator + Copy, W: Write>(
    state: &State<A>,
    output: &mut W,
) -> io::Result<()> {
    write_heads(state.columns(), output)?;
    let mut number = state.first_number();
    for row in state.rows().iter() {
        write!(output, "  {number:<10}")?;
        write_values(state.columns(), row.values.as_slice(), output)?;
        number = number.saturating_add(1);
    }
    Ok(())
}

/// The place of a column in a row.
fn place_of(columns: &[u8], id: u8) -> Option<usize> {
    for (place, column) in columns.iter().enumerate() {
        if *column == id {
            return Some(place);
        }
    }
    None
}

/// The plotted columns: the first register among them, with its place and the clock's.
pub fn plotted_columns(columns: &[u8]) -> Option<(Quantity, usize, usize)> {
    let clock = place_of(columns, 0)?;
    for channel in 0..3u8 {
        if let Some(place) = place_of(columns, channel + 1) {
            let quantity = Quantity::of_channel(usize::from(channel))?;
            return Some((quantity, clock, place));
        }
    }
    None
}

/// The captures of a register, by its place and the clock's.
pub fn samples_of<A: Allocator + Copy>(
    alloc: A,
    state: &State<A>,
    clock: usize,
    place: usize,
) -> Result<Vec<Sample, A>, AllocError> {
    let mut samples = Vec::new(alloc);
    for row in state.rows().iter() {
        let values = row.values.as_slice();
        if let (Some(clock), Some(value)) = (values.get(clock), values.get(place)) {
            samples.push(Sample {
                clock: *clock,
                value: *value,
            })?;
        }
    }
    Ok(samples)
}
