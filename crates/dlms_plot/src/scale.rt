//! Ticks of an axis, and places along it.
ghost use Rattle.std.specs.Prelude.{◌≡◌, ◌≤◌, ◌<◌, ◌*◌, ◌-◌, ◌^◌};
ghost use Rattle.dlms_plot.specs.Scale.{place_above_of, place_of};

use dlms_data::{LAST_SECOND, octets, secs};

/// The most ticks of the axis of powers, but for that of nothing.
pub const MOST_POWER_TICKS: u64 = 5;

/// The steps between ticks of the clock: of minutes, hours, days, and years, which count here as 365 days.
const TIME_STEPS: [u32; 21] = [
    60,
    300,
    900,
    1_800,
    3_600,
    7_200,
    10_800,
    21_600,
    43_200,
    86_400,
    172_800,
    432_000,
    864_000,
    1_728_000,
    4_320_000,
    8_640_000,
    17_280_000,
    31_536_000,
    63_072_000,
    157_680_000,
    315_360_000,
];

/// The seconds of a day.
pub const SECONDS_A_DAY: u32 = 86_400;

/// The least step of 1, 2 or 5 and zeros of which five reach this power.
pub fn power_step(most: u64) -> u64
    ensures { most ≤ result * MOST_POWER_TICKS }
{
    let mut unit = 1u64;
    for _ in 0..20 {
        for factor in [1, 2, 5] {
            let step = unit.saturating_mul(factor);
            if most <= step.saturating_mul(MOST_POWER_TICKS) {
                return step;
            }
        }
        unit = unit.saturating_mul(10);
    }
    most
}

/// The number of steps up to this power: at least one, and at most five if the step is that of `power_step`.
pub fn power_ticks(most: u64, step: u64) -> u64
    ensures some { 1 ≤ result }
    ensures few { result ≤ MOST_POWER_TICKS }
{
    let whole = most.checked_div(step).unwrap_or(0);
    let ticks = if whole.saturating_mul(step) < most {
        whole.saturating_add(1)
    } else {
        whole
    };
    ticks.max(1).min(MOST_POWER_TICKS)
}

/// The least step of the clock of which so many fill a span.
pub fn time_step(span: u32, most: u32) -> u32 {
    for step in TIME_STEPS {
        if span <= step.saturating_mul(most) {
            return step;
        }
    }
    SECONDS_A_DAY.saturating_mul(3_650)
}

/// The seconds of a year of 365 days.
const SECONDS_A_YEAR: u32 = 31_536_000;

/// The second at which a year begins, if the clock shows it.
fn year_begin(year: u16) -> Option<u32> {
    let [high, low] = year.to_be_bytes();
    secs(&[high, low, 1, 1, 0xff, 0, 0, 0, 0, 0x80, 0, 0])
}

/// The first begin of a year from this second on, whose number is a multiple of this.
fn first_year(begin: u32, years: u32) -> Option<u32> {
    let [high, low, ..] = octets(begin.min(LAST_SECOND));
    let mut year = u16::from_be_bytes([high, low]);
    for _ in 0..20u8 {
        if u32::from(year).checked_rem(years) == Some(0)
            && let Some(second) = year_begin(year)
            && begin <= second
        {
            return Some(second);
        }
        year = year.saturating_add(1);
    }
    None
}

/// The first tick from this second on: of a step of years the begin of one.
pub fn first_tick(begin: u32, step: u32) -> u32
    ensures { begin ≤ result }
{
    if step % SECONDS_A_YEAR == 0 {
        match first_year(begin, step / SECONDS_A_YEAR) {
            Some(tick) if begin <= tick => return tick,
            _ => {}
        }
    }
    match begin.checked_rem(step) {
        Some(0) | None => begin,
        Some(past) => begin.saturating_add(step.saturating_sub(past)),
    }
}

/// A value times a length.
#[tactic(auto, using(crate::proofs::Products::product_few))]
fn times(value: u64, length: u64) -> u128
    ensures product { result ≡ value * length }
    ensures few { result < 2 ^ 128 - 2 ^ 64 }
{
    u128::from(value) * u128::from(length)
}

/// Where a value stands along a length, of which the whole is this.
pub fn place(value: u64, whole: u64, length: u64) -> u64
    ensures { result ≡ place_of value whole length }
{
    if whole == 0 {
        return 0;
    }
    let along = times(value, length) / u128::from(whole);
    along.min(u128::from(length)) as u64
}

/// The same, and one more where something is left.
pub fn place_above(value: u64, whole: u64, length: u64) -> u64
    ensures { result ≡ place_above_of value whole length }
{
    if whole == 0 {
        return 0;
    }
    let along = (times(value, length) + u128::from(whole - 1)) / u128::from(whole);
    along.min(u128::from(length)) as u64
}
