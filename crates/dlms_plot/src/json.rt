//! The curve as an object of JSON (RFC 8259).

use crate::captures::{Gap, Period};
use crate::date::Iso;
use crate::quantity::Quantity;
use crate::series::Series;
use std::alloc::Allocator;
use std::io;
use std::io::Write;

/// Writes the points, each with the end of its period and the power in it.
fn write_points<W: Write>(periods: &[Period], output: &mut W) -> io::Result<()> {
    let mut parting = "";
    for period in periods {
        let clock = Iso(period.to);
        let power = period.power;
        write!(
            output,
            "{parting}{{\"clock\":\"{clock}\",\"value\":{power}}}"
        )?;
        parting = ",";
    }
    Ok(())
}

/// Writes the gaps, each from a capture to the next one.
fn write_gaps<W: Write>(gaps: &[Gap], output: &mut W) -> io::Result<()> {
    let mut parting = "";
    for gap in gaps {
        let from = Iso(gap.from);
        let to = Iso(gap.to);
        write!(output, "{parting}{{\"from\":\"{from}\",\"to\":\"{to}\"}}")?;
        parting = ",";
    }
    Ok(())
}

/// Writes the curve of a register's power as an object of JSON: the register, the unit of a point's value, the usual period in
/// seconds, from when to when captures are there, the points, each with the end of its period, and the gaps.
pub fn write_json<A: Allocator + Copy, W: Write>(
    quantity: Quantity,
    series: &Series<A>,
    output: &mut W,
) -> io::Result<()> {
    let code = quantity.code();
    let name = quantity.name();
    let unit = quantity.unit();
    let usual = series.usual();
    let begin = Iso(series.begin());
    let end = Iso(series.end());
    write!(
        output,
        "{{\"register\":\"{code}\",\"name\":\"{name}\",\"unit\":\"{unit}\","
    )?;
    write!(
        output,
        "\"period\":{usual},\"from\":\"{begin}\",\"to\":\"{end}\",\"points\":["
    )?;
    write_points(series.periods(), output)?;
    output.write_all(b"],\"gaps\":[")?;
    write_gaps(series.gaps(), output)?;
    output.write_all(b"]}\n")
}

/// Writes the object if there is no period between two captures.
pub fn write_empty_json<W: Write>(output: &mut W) -> io::Result<()> {
    output.write_all(b"{\"register\":null,\"points\":[],\"gaps\":[]}\n")
}
