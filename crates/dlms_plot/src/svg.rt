//! The curve as a self-contained SVG: no script, no external font, light or dark as the reader prefers.
ghost use Rattle.std.specs.Prelude.{◌≡◌, ◌≤◌, ◌+◌, ◌-◌, ◌*◌};
ghost use Rattle.dlms_plot.specs.Scale.{place_of};

use crate::captures::{Gap, Period};
use crate::date::{Date, Day, Minute};
use crate::quantity::{Quantity, Thousandth};
use crate::scale::{SECONDS_A_DAY, first_tick, place, power_step, power_ticks, time_step};
use crate::series::Series;
use std::alloc::Allocator;
use std::io::Write;
use std::{fmt, io};

/// Where the curve stands: from the left, to the right, from the top, to the bottom.
const LEFT: u64 = 90;

const RIGHT: u64 = 930;

const TOP: u64 = 84;

const BOTTOM: u64 = 346;

/// The most ticks of the clock, so that their labels stand apart.
const MOST_TIME_TICKS: u32 = 7;

/// How the picture begins.
const HEAD: &str =
    "<svg xmlns=\"http://www.w3.org/2000/svg\" viewBox=\"0 0 980 420\" role=\"img\">\n";

/// The colors, light and dark.
const STYLE: &str = "<style>
text{font-family:sans-serif;font-size:13px;fill:#333333}
.title{font-size:18px;font-weight:bold}
.paper{fill:#ffffff}
.grid{stroke:#dddddd;stroke-width:1}
.axis{stroke:#666666;stroke-width:1}
.curve{fill:none;stroke:#0b5fa5;stroke-width:2;stroke-linejoin:round}
.gap{fill:#999999;fill-opacity:0.2}
.end{text-anchor:end}
.middle{text-anchor:middle}
@media (prefers-color-scheme:dark){
text{fill:#dddddd}
.paper{fill:#1b1b1b}
.grid{stroke:#3a3a3a}
.axis{stroke:#999999}
.curve{stroke:#6cb6f5}
}
</style>
<rect class=\"paper\" width=\"980\" height=\"420\"/>
";

/// A length in tenths, as `12.5`.
#[derive(Clone, Copy, PartialEq, Eq)]
struct Tenths(u64);

impl fmt::Display for Tenths {
    fn fmt<W: fmt::Write>(&self, f: &mut fmt::Formatter<W>) -> fmt::Result {
        let whole = self.0 / 10;
        let rest = self.0 % 10;
        write!(f, "{whole}.{rest}")
    }
}

/// How seconds and powers become places.
#[derive(Clone, Copy, PartialEq, Eq)]
struct Plane {
    begin: u32,
    span: u32,
    top: u64,
}

impl Plane {
    /// Where a second stands from the left.
    fn across(self, second: u32) -> Tenths
        ensures place { result.0 ≡ 10 * LEFT + place_of (second - self.begin) self.span
            (10 * (RIGHT - LEFT)) }
        ensures left { 10 * LEFT ≤ result.0 }
        ensures right { result.0 ≤ 10 * RIGHT }
    {
        let past = second.saturating_sub(self.begin);
        let along = place(u64::from(past), u64::from(self.span), (RIGHT - LEFT) * 10);
        Tenths(along.saturating_add(LEFT * 10))
    }

    /// Where a power stands from the top.
    fn down(self, power: u64) -> Tenths
        ensures place { result.0 ≡ 10 * BOTTOM - place_of power self.top (10 * (BOTTOM - TOP)) }
        ensures top { 10 * TOP ≤ result.0 }
        ensures bottom { result.0 ≤ 10 * BOTTOM }
    {
        let along = place(power, self.top, (BOTTOM - TOP) * 10);
        Tenths((BOTTOM * 10).saturating_sub(along))
    }

    /// Whether a second stands within the picture.
    fn has(self, second: u32) -> bool {
        self.begin <= second && second.saturating_sub(self.begin) <= self.span
    }
}

/// Writes the title, for eyes and for readers that speak.
fn write_title<A: Allocator + Copy, W: Write>(
    quantity: Quantity,
    series: &Series<A>,
    output: &mut W,
) -> io::Result<()> {
    let name = quantity.name();
    let unit = quantity.power_unit();
    let usual = series.usual();
    let begin = Date(series.begin());
    let end = Date(series.end());
    let gaps = series.gaps().len();
    writeln!(output, "<title>Load profile: {name}</title>")?;
    output.write_all(STYLE.as_bytes())?;
    writeln!(
        output,
        "<text class=\"title\" x=\"90\" y=\"30\">Load profile: {name}</text>"
    )?;
    writeln!(
        output,
        "<text x=\"90\" y=\"50\">{unit} by capture period of {usual} s, {begin} to {end}, gaps: {gaps}</text>"
    )
}

/// Writes the stretches in which captures are missing.
fn write_gaps<W: Write>(plane: Plane, gaps: &[Gap], output: &mut W) -> io::Result<()> {
    for gap in gaps {
        write_gap(plane, gap.from, gap.to, output)?;
    }
    Ok(())
}

/// Writes a stretch in which captures are missing.
fn write_gap<W: Write>(plane: Plane, from: u32, to: u32, output: &mut W) -> io::Result<()> {
    let left = plane.across(from);
    let width = Tenths(plane.across(to).0.saturating_sub(left.0));
    let height = BOTTOM - TOP;
    writeln!(
        output,
        "<rect class=\"gap\" x=\"{left}\" y=\"{TOP}\" width=\"{width}\" height=\"{height}\"/>"
    )
}

/// Writes the ticks of powers.
fn write_powers<W: Write>(plane: Plane, step: u64, ticks: u64, output: &mut W) -> io::Result<()> {
    for tick in 0..ticks.saturating_add(1).min(64) {
        let power = step.saturating_mul(tick);
        let down = plane.down(power);
        let text = Tenths(down.0.saturating_add(45));
        let value = Thousandth(power);
        writeln!(
            output,
            "<line class=\"grid\" x1=\"{LEFT}\" y1=\"{down}\" x2=\"{RIGHT}\" y2=\"{down}\"/>"
        )?;
        writeln!(
            output,
            "<text class=\"end\" x=\"82\" y=\"{text}\">{value}</text>"
        )?;
    }
    Ok(())
}

/// Writes the ticks of the clock.
fn write_times<W: Write>(plane: Plane, step: u32, output: &mut W) -> io::Result<()> {
    let mut tick = first_tick(plane.begin, step);
    for _ in 0..MOST_TIME_TICKS + 1 {
        if plane.has(tick) {
            write_time(plane, tick, step, output)?;
        }
        tick = first_tick(tick.saturating_add(1), step);
    }
    Ok(())
}

/// Writes a tick of the clock: its minute, where days are not whole, and its day.
fn write_time<W: Write>(plane: Plane, tick: u32, step: u32, output: &mut W) -> io::Result<()> {
    let across = plane.across(tick);
    let day = Day(tick);
    let minute = Minute(tick);
    writeln!(
        output,
        "<line class=\"axis\" x1=\"{across}\" y1=\"346\" x2=\"{across}\" y2=\"352\"/>"
    )?;
    if step % SECONDS_A_DAY == 0 {
        return writeln!(
            output,
            "<text class=\"middle\" x=\"{across}\" y=\"370\">{day}</text>"
        );
    }
    writeln!(
        output,
        "<text class=\"middle\" x=\"{across}\" y=\"370\">{minute}</text>"
    )?;
    writeln!(
        output,
        "<text class=\"middle\" x=\"{across}\" y=\"388\">{day}</text>"
    )
}

/// Writes the curve: a stroke for each stretch without a gap.
fn write_curve<W: Write>(plane: Plane, periods: &[Period], output: &mut W) -> io::Result<()> {
    output.write_all(b"<path class=\"curve\" d=\"")?;
    let mut last: Option<u32> = None;
    for period in periods {
        let down = plane.down(period.power);
        let to = plane.across(period.to);
        if last == Some(period.from) {
            write!(output, "V{down}H{to}")?;
        } else {
            let from = plane.across(period.from);
            write!(output, "M{from} {down}H{to}")?;
        }
        last = Some(period.to);
    }
    output.write_all(b"\"/>\n")
}

/// Writes the axes, and the unit of the axis of powers.
fn write_axes<W: Write>(quantity: Quantity, output: &mut W) -> io::Result<()> {
    let unit = quantity.power_unit();
    writeln!(
        output,
        "<line class=\"axis\" x1=\"{LEFT}\" y1=\"{TOP}\" x2=\"{LEFT}\" y2=\"{BOTTOM}\"/>"
    )?;
    writeln!(
        output,
        "<line class=\"axis\" x1=\"{LEFT}\" y1=\"{BOTTOM}\" x2=\"{RIGHT}\" y2=\"{BOTTOM}\"/>"
    )?;
    writeln!(
        output,
        "<text class=\"end\" x=\"82\" y=\"70\">{unit}</text>"
    )
}

/// Writes an SVG that says that there is nothing to plot.
pub fn write_empty_svg<W: Write>(output: &mut W) -> io::Result<()> {
    output.write_all(HEAD.as_bytes())?;
    output.write_all(b"<title>Load profile</title>\n")?;
    output.write_all(STYLE.as_bytes())?;
    output.write_all(b"<text class=\"title\" x=\"90\" y=\"30\">Load profile</text>\n")?;
    output.write_all(b"<text x=\"90\" y=\"50\">there is no period between two captures</text>\n")?;
    output.write_all(b"</svg>\n")
}

/// Writes the curve of a register's power as an SVG. Where captures are missing the curve is broken, and the stretch is gray.
pub fn write_svg<A: Allocator + Copy, W: Write>(
    quantity: Quantity,
    series: &Series<A>,
    output: &mut W,
) -> io::Result<()> {
    let most = series.most();
    let step = power_step(most);
    let ticks = power_ticks(most, step);
    let begin = series.begin();
    let span = series.end().saturating_sub(begin);
    let plane = Plane {
        begin,
        span,
        top: step.saturating_mul(ticks),
    };
    output.write_all(HEAD.as_bytes())?;
    write_title(quantity, series, output)?;
    write_gaps(plane, series.gaps(), output)?;
    write_powers(plane, step, ticks, output)?;
    write_axes(quantity, output)?;
    write_times(plane, time_step(span, MOST_TIME_TICKS), output)?;
    write_curve(plane, series.periods(), output)?;
    output.write_all(b"</svg>\n")
}
