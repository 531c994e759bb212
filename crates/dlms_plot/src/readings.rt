//! A readings file as a curve.
ghost use Rattle.std.specs.Prelude.{◌≡◌, ◌<◌, List, IfErr, IfOk, OnErr, length, map};
ghost use Rattle.dlms_headend.specs.Lines.{IsFile, Refuses};
ghost use Rattle.dlms_headend.specs.declared.row.Row.{Row as RowOf};
ghost use Rattle.dlms_plot.specs.Curve.{IsPlotOf};
ghost use Rattle.dlms_plot.specs.Rows.{counted_of, differs, sample_of, value_in};

use crate::captures::Sample;
use crate::choice::Choice;
use crate::fault::PlotFault;
use crate::json::{write_empty_json, write_json};
use crate::quantity::Quantity;
use crate::series::Series;
use crate::svg::{write_empty_svg, write_svg};
use crate::terminal::write_text;
use dlms_headend::{Readings, ReadingsFault, Row};
use std::alloc::{AllocError, Allocator};
use std::io;
use std::io::Write;

/// As what a curve is written.
#[derive(Clone, Copy, PartialEq, Eq)]
pub enum Form {
    /// Plain text.
    Text,
    /// An SVG.
    Svg,
    /// An object of JSON.
    Json,
}

/// The value of a register in a row.
fn value_of(row: &Row, quantity: Quantity) -> u32
    ensures { result ≡ value_in quantity row.now }
{
    let [import, export, reactive] = row.registers;
    match quantity {
        Quantity::Import => import,
        Quantity::Export => export,
        Quantity::Reactive => reactive,
    }
}

/// The captures of a register.
fn samples_of<A: Allocator>(
    alloc: A,
    rows: &[Row],
    quantity: Quantity,
) -> Result<Vec<Sample, A>, AllocError>
    ensures { IfOk result (λ samples. samples.items ≡ map (sample_of quantity) rows.now) }
{
    rows.iter()
        .map(|row| Sample {
            clock: row.clock,
            value: value_of(row, quantity),
        })
        .collect(alloc)
}

/// Whether the first row and the last one say different values of a register.
fn is_counting(rows: &[Row], quantity: Quantity) -> bool
    ensures { result ≡ differs rows.now quantity }
{
    match (rows.first(), rows.last()) {
        (Some(first), Some(last)) => value_of(first, quantity) != value_of(last, quantity),
        _ => false,
    }
}

/// The first register with different values in the first row and the last one; that of the import if there is none.
fn counting_register(rows: &[Row]) -> Quantity
    ensures { result ≡ counted_of rows.now }
{
    if is_counting(rows, Quantity::Import) {
        Quantity::Import
    } else if is_counting(rows, Quantity::Export) {
        Quantity::Export
    } else if is_counting(rows, Quantity::Reactive) {
        Quantity::Reactive
    } else {
        Quantity::Import
    }
}

/// The plotted curve: a register, and the periods of its captures.
#[derive(Drop)]
pub struct Curve<A: Allocator> {
    /// The register.
    pub quantity: Quantity,
    /// The periods of its captures.
    pub series: Series<A>,
}

impl<A: Allocator + Copy> Curve<A> {
    /// The curve of these rows: of the first register with different values in the first row and the last one, or of the import.
    /// None if there is no period between two captures. No rows take no memory.
    fn of_rows(alloc: A, rows: &[Row]) -> Result<Option<Curve<A>>, AllocError>
        ensures found { IfOk result (IsPlotOf rows.now) }
        ensures memory { OnErr result (0 < length rows.now) }
    {
        if rows.is_empty() {
            return Ok(None);
        }
        let quantity = counting_register(rows);
        let samples = samples_of(alloc, rows, quantity)?;
        match Series::of(alloc, &samples)? {
            Some(series) => Ok(Some(Curve { quantity, series })),
            None => Ok(None),
        }
    }

    /// The curve of all rows of a readings file with this text; the fault of a text that is none. Out of memory is reported only of
    /// a readings file's text.
    pub fn of(alloc: A, text: &str) -> Result<Option<Curve<A>>, ReadingsFault>
        ensures found { IfOk result (λ found. (rows : List RowOf) × IsFile text.now rows
            × IsPlotOf rows found) }
        ensures fault { IfErr result (Refuses text.now) }
    {
        let readings = Readings::open(alloc, text)?;
        match Curve::of_rows(alloc, readings.rows()) {
            Ok(found) => Ok(found),
            Err(AllocError) => Err(ReadingsFault::Memory),
        }
    }

    /// The curve of the chosen register in the chosen rows of a readings file with this text. `NoRows` is reported if there are rows
    /// and none is chosen.
    pub fn of_choice(alloc: A, text: &str, choice: &Choice) -> Result<Option<Curve<A>>, PlotFault> {
        let readings = Readings::open(alloc, text)?;
        let rows: Vec<Row, A> = readings
            .rows()
            .iter()
            .filter(|row| choice.has(row))
            .copied()
            .collect(alloc)?;
        if rows.is_empty() && !readings.rows().is_empty() {
            return Err(PlotFault::NoRows);
        }
        let quantity = choice.quantity.unwrap_or(counting_register(&rows));
        let samples = samples_of(alloc, &rows, quantity)?;
        Ok(Series::of(alloc, &samples)?.map(|series| Curve { quantity, series }))
    }
}

/// Writes a curve, or a message that there is none.
fn write_curve<A: Allocator + Copy, W: Write>(
    curve: &Option<Curve<A>>,
    form: Form,
    output: &mut W,
) -> io::Result<()> {
    match (curve, form) {
        (Some(curve), Form::Text) => write_text(curve.quantity, &curve.series, output),
        (Some(curve), Form::Svg) => write_svg(curve.quantity, &curve.series, output),
        (Some(curve), Form::Json) => write_json(curve.quantity, &curve.series, output),
        (None, Form::Text) => {
            output.write_all(b"no curve: there is no period between two captures\n")
        }
        (None, Form::Svg) => write_empty_svg(output),
        (None, Form::Json) => write_empty_json(output),
    }
}

/// Writes the curve of the text of a readings file, for its first register with different values in the first row and the last one,
/// or for the import; if there is no period between two captures, a message that says so. The fault of a text without readings is
/// reported before anything is written.
pub fn plot_readings<A: Allocator + Copy, W: Write>(
    alloc: A,
    text: &str,
    form: Form,
    output: &mut W,
) -> Result<(), PlotFault> {
    let curve = Curve::of(alloc, text)?;
    write_curve(&curve, form, output)?;
    Ok(())
}

/// Writes the curve of the chosen register in the chosen rows of the text of a readings file, as `plot_readings` does. `NoRows` is
/// reported if no row is of the chosen time.
pub fn plot_chosen<A: Allocator + Copy, W: Write>(
    alloc: A,
    text: &str,
    choice: &Choice,
    form: Form,
    output: &mut W,
) -> Result<(), PlotFault> {
    let curve = Curve::of_choice(alloc, text, choice)?;
    write_curve(&curve, form, output)?;
    Ok(())
}
