//! A state as text.

use crate::words::{Columns, Quoted};
use dlms_plot::{Date, Quantity, Thousandth};
use dlms_state::State;
use std::alloc::Allocator;
use std::io;
use std::io::Write;

/// The names of the registers' objects.
const NAMES: [&str; 3] = ["1.0.1.8.0.255", "1.0.2.8.0.255", "1.0.3.8.0.255"];

/// Writes a register: its object's name, what it counts, and its value.
fn write_register<W: Write>(
    name: &str,
    quantity: Quantity,
    value: u32,
    output: &mut W,
) -> io::Result<()> {
    let counted = quantity.name();
    let unit = quantity.energy_unit();
    let value = Thousandth(u64::from(value));
    writeln!(output, "  {name}  {counted:<20}  {value} {unit}")
}

/// Writes the three registers.
fn write_registers<W: Write>(registers: [u32; 3], output: &mut W) -> io::Result<()> {
    let [import, export, reactive] = registers;
    let [first, second, third] = NAMES;
    write_register(first, Quantity::Import, import, output)?;
    write_register(second, Quantity::Export, export, output)?;
    write_register(third, Quantity::Reactive, reactive, output)
}

/// Writes the clock, the last moment, what is added to it, and the capture period.
fn write_clock<A: Allocator + Copy, W: Write>(state: &State<A>, output: &mut W) -> io::Result<()> {
    let clock = Date(state.clock());
    let last = state.last();
    let offset = state.offset();
    let period = state.period();
    writeln!(output, "  clock           {clock}")?;
    writeln!(
        output,
        "  last moment     {last}, the clock is {offset} s from it"
    )?;
    writeln!(output, "  capture period  {period} s")
}

/// Writes the text, the columns, and that there are secrets: never their bytes, nor how many.
fn write_settings<A: Allocator + Copy, W: Write>(
    state: &State<A>,
    output: &mut W,
) -> io::Result<()> {
    let text = Quoted(state.text());
    let columns = Columns(state.columns());
    writeln!(output, "  text            {text}")?;
    writeln!(output, "  columns         {columns}")?;
    writeln!(
        output,
        "  secrets         management (secret), the reader (secret)"
    )
}

/// Writes a state, but for its rows.
pub fn write_state<A: Allocator + Copy, W: Write>(
    state: &State<A>,
    output: &mut W,
) -> io::Result<()> {
    write_clock(state, output)?;
    write_registers(state.registers(), output)?;
    write_settings(state, output)
}
