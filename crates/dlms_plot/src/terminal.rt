//! The curve in a terminal, at most 100 columns wide.

use crate::canvas::{COLUMNS, Canvas};
use crate::captures::Period;
use crate::date::{Date, Day, Minute};
use crate::quantity::{Quantity, Thousandth};
use crate::scale::{
    SECONDS_A_DAY, first_tick, place, place_above, power_step, power_ticks, time_step,
};
use crate::series::Series;
use std::alloc::Allocator;
use std::io;
use std::io::Write;

/// How many rows stand from one tick of powers to the next.
const ROWS_A_TICK: u64 = 4;

/// The most ticks of the clock, so that their labels stand apart.
const MOST_TIME_TICKS: u32 = 4;

/// The columns after the labels of powers, to the hundredth.
const ROOM: usize = 82;

/// The greatest power within each column, if there is one.
type Peaks = [Option<u64>; COLUMNS];

/// Takes a period's power into the columns in which it stands.
fn take_period(peaks: &mut Peaks, period: &Period, begin: u32, span: u32) {
    let from = u64::from(period.from.saturating_sub(begin));
    let to = u64::from(period.to.saturating_sub(begin));
    let first = place(from, u64::from(span), COLUMNS as u64) as usize;
    let end = place_above(to, u64::from(span), COLUMNS as u64) as usize;
    for column in first..end {
        if column < COLUMNS {
            let peak = peaks[column].unwrap_or(0);
            peaks[column] = Some(peak.max(period.power));
        }
    }
}

/// The greatest power within each column.
fn peaks_of<A: Allocator + Copy>(series: &Series<A>) -> Peaks {
    let mut peaks = [None; COLUMNS];
    let begin = series.begin();
    let span = series.end().saturating_sub(begin);
    for period in series.periods() {
        take_period(&mut peaks, period, begin, span);
    }
    peaks
}

/// Draws the peaks, scaled so that `top` is this many rows high.
fn drawn(peaks: &Peaks, top: u64, rows: u64) -> Canvas {
    let mut canvas = Canvas::blank();
    let mut before = None;
    for (column, peak) in peaks.iter().enumerate() {
        match peak {
            Some(power) => {
                let level = place(*power, top, rows) as usize;
                canvas.step(column, before, level);
                before = Some(level);
            }
            None => before = None,
        }
    }
    canvas
}

/// Writes the rows of a canvas from the highest one on, with their powers.
fn write_rows<W: Write>(canvas: &Canvas, step: u64, ticks: u64, output: &mut W) -> io::Result<()> {
    let rows = ticks.saturating_mul(ROWS_A_TICK);
    for down in 0..rows.saturating_add(1).min(64) {
        let row = rows.saturating_sub(down);
        write_row(canvas, row, step, output)?;
    }
    Ok(())
}

/// Writes a row of a canvas, with its power if it has a tick.
fn write_row<W: Write>(canvas: &Canvas, row: u64, step: u64, output: &mut W) -> io::Result<()> {
    if row % ROWS_A_TICK == 0 {
        write_power(step.saturating_mul(row / ROWS_A_TICK), output)?;
    } else {
        output.write_all(b"                 |")?;
    }
    output.write_all(canvas.row(row as usize))?;
    output.write_all(b"\n")
}

/// Writes a tick of a power, in 18 columns.
fn write_power<W: Write>(power: u64, output: &mut W) -> io::Result<()> {
    let whole = power / 1000;
    let rest = power % 1000;
    write!(output, "{whole:>12}.{rest:03} +")
}

/// The axis of the clock: a dash where there are captures, a blank where they are missing, and the ticks.
fn axis_of(peaks: &Peaks, begin: u32, span: u32, step: u32) -> Canvas {
    let mut axis = Canvas::blank();
    for (column, peak) in peaks.iter().enumerate() {
        if peak.is_some() {
            axis.set(0, column, b'-');
        }
    }
    let mut tick = first_tick(begin, step);
    for _ in 0..MOST_TIME_TICKS + 1 {
        if let Some(column) = column_of(tick, begin, span) {
            axis.set(0, column, b'+');
        }
        tick = first_tick(tick.saturating_add(1), step);
    }
    axis
}

/// The column in which a second stands.
fn column_of(second: u32, begin: u32, span: u32) -> Option<usize> {
    let past = second.saturating_sub(begin);
    if past > span {
        return None;
    }
    let column = place(u64::from(past), u64::from(span), COLUMNS as u64) as usize;
    Some(column.min(COLUMNS - 1))
}

/// Writes blanks.
fn write_blanks<W: Write>(count: usize, output: &mut W) -> io::Result<()> {
    for _ in 0..count {
        output.write_all(b" ")?;
    }
    Ok(())
}

/// Whether the labels of ticks with this step are days alone.
fn are_days(step: u32) -> bool {
    step % SECONDS_A_DAY == 0
}

/// How many columns a label of the clock has.
fn label_width(step: u32) -> usize {
    if are_days(step) { 10 } else { 16 }
}

/// Writes a label of the clock: a day and a minute, or a day alone.
fn write_label<W: Write>(second: u32, step: u32, output: &mut W) -> io::Result<()> {
    let day = Day(second);
    let minute = Minute(second);
    if are_days(step) {
        write!(output, "{day}")
    } else {
        write!(output, "{day} {minute}")
    }
}

/// Writes the labels of the ticks of the clock, each at its tick; one that would stand too close to the one before it is left
/// out, and so is one past the hundredth column.
fn write_labels<W: Write>(begin: u32, span: u32, step: u32, output: &mut W) -> io::Result<()> {
    write_blanks(18, output)?;
    let width = label_width(step);
    let mut at = 0usize;
    let mut next = 0usize;
    let mut tick = first_tick(begin, step);
    for _ in 0..MOST_TIME_TICKS + 1 {
        let column = column_of(tick, begin, span).unwrap_or(ROOM);
        if next <= column && column.saturating_add(width) <= ROOM {
            write_blanks(column.saturating_sub(at), output)?;
            write_label(tick, step, output)?;
            at = column.saturating_add(width);
            next = at.saturating_add(1);
        }
        tick = first_tick(tick.saturating_add(1), step);
    }
    output.write_all(b"\n")
}

/// Writes what is plotted, from when to when, and how often captures are missing.
fn write_heading<A: Allocator + Copy, W: Write>(
    quantity: Quantity,
    series: &Series<A>,
    output: &mut W,
) -> io::Result<()> {
    let name = quantity.name();
    let unit = quantity.power_unit();
    let usual = series.usual();
    writeln!(output, "{name}: {unit} by capture period of {usual} s")?;
    let begin = Date(series.begin());
    let end = Date(series.end());
    let gaps = series.gaps().len();
    writeln!(output, "{begin} to {end}, gaps in the captures: {gaps}")
}

/// Writes the curve of a register's power as plain text of at most 100 columns: the greatest power within each column, and
/// blanks where captures are missing.
pub fn write_text<A: Allocator + Copy, W: Write>(
    quantity: Quantity,
    series: &Series<A>,
    output: &mut W,
) -> io::Result<()> {
    write_heading(quantity, series, output)?;
    let peaks = peaks_of(series);
    let most = series.most();
    let step = power_step(most);
    let ticks = power_ticks(most, step);
    let canvas = drawn(
        &peaks,
        step.saturating_mul(ticks),
        ticks.saturating_mul(ROWS_A_TICK),
    );
    write_rows(&canvas, step, ticks, output)?;
    let begin = series.begin();
    let span = series.end().saturating_sub(begin);
    let time = time_step(span, MOST_TIME_TICKS);
    output.write_all(b"                  ")?;
    output.write_all(axis_of(&peaks, begin, span, time).row(0))?;
    output.write_all(b"\n")?;
    write_labels(begin, span, time, output)
}
