//! The periods between captures, and where captures are missing.
ghost use Rattle.std.specs.Prelude.{◌≡◌, ◌≢◌, [], IfOk, IsErr, MatchOption, map, max, min};
ghost use Rattle.std.specs.List.{reduce};
ghost use Rattle.dlms_plot.specs.Series.{gap_between, gaps_of, period_within, periods_of, HasNoSeries, IsSeriesOf, greatest, least};
ghost use Rattle.dlms_plot.specs.Steps.{steps_of};

use crate::captures::{Gap, Period, Sample, power};
use crate::usual::usual_step;
use std::alloc::{AllocError, Allocator};
use std::marker::Model;

/// The periods of a register's captures, and the gaps. An interval longer than the usual one is not a period: captures are missing
/// there.
#[derive(Drop)]
pub struct Series<A: Allocator> {
    periods: Vec<Period, A>,
    gaps: Vec<Gap, A>,
    usual: u32,
    begin: u32,
    end: u32,
}

impl<A: Allocator> Model for Series<A> {
    ghost use Rattle.dlms_plot.specs.Series.{SeriesValue};

    ghost Value = { SeriesValue };

    ghost view = { λ s. record { periods = s.periods.items; gaps = s.gaps.items; usual = s.usual; begin = s.begin; end = s.end } };
}

impl<A: Allocator + Copy> Series<A> {
    /// The periods between captures. None if there is no period. Out of memory is reported only if the clock advances from some
    /// capture to the next one.
    pub fn of(alloc: A, samples: &[Sample]) -> Result<Option<Series<A>>, AllocError>
        ensures found { IfOk result (λ found. MatchOption found (HasNoSeries samples.now)
            (IsSeriesOf samples.now)) }
        ensures memory { IsErr result → steps_of samples.now ≢ [] }
    {
        let Some(usual) = usual_step(alloc, samples)? else {
            return Ok(None);
        };
        let periods = periods(alloc, samples, usual)?;
        if periods.is_empty() {
            return Ok(None);
        }
        let gaps = gaps(alloc, samples, usual)?;
        Ok(Some(Series {
            periods,
            gaps,
            usual,
            begin: first_second(samples).unwrap_or(0),
            end: last_second(samples).unwrap_or(0),
        }))
    }

    /// The periods, in the order of the captures.
    pub fn periods(&self) -> &[Period]
        ensures { result.now ≡ self.now.periods }
    {
        self.periods.as_slice()
    }

    /// Where captures are missing, in the order of the captures.
    pub fn gaps(&self) -> &[Gap]
        ensures { result.now ≡ self.now.gaps }
    {
        self.gaps.as_slice()
    }

    /// The usual period in seconds.
    pub fn usual(&self) -> u32
        ensures { result ≡ self.now.usual }
    {
        self.usual
    }

    /// The second of the earliest capture.
    pub fn begin(&self) -> u32
        ensures { result ≡ self.now.begin }
    {
        self.begin
    }

    /// The second of the latest capture.
    pub fn end(&self) -> u32
        ensures { result ≡ self.now.end }
    {
        self.end
    }

    /// The greatest power.
    pub fn most(&self) -> u64
        ensures { result ≡ greatest (map (λ period. period.power) self.now.periods) }
    {
        most_power(&self.periods).unwrap_or(0)
    }
}

/// The second of the earliest capture.
fn first_second(samples: &[Sample]) -> Option<u32>
    ensures { result ≡ reduce min (map (λ sample. sample.clock) samples.now) }
{
    samples.iter().map(|sample| sample.clock).min()
}

/// The second of the latest capture.
fn last_second(samples: &[Sample]) -> Option<u32>
    ensures { result ≡ reduce max (map (λ sample. sample.clock) samples.now) }
{
    samples.iter().map(|sample| sample.clock).max()
}

/// The greatest power.
fn most_power(periods: &[Period]) -> Option<u64>
    ensures { result ≡ reduce max (map (λ period. period.power) periods.now) }
{
    periods.iter().map(|period| period.power).max()
}

/// The period between two captures that stand no further apart than this.
fn period_between(before: Sample, after: Sample, usual: u32) -> Option<Period>
    ensures { result ≡ period_within usual (before, after) }
{
    if after.clock.saturating_sub(before.clock) > usual {
        return None;
    }
    power(before, after)
}

/// The periods that are no longer than the usual one.
fn periods<A: Allocator>(
    alloc: A,
    samples: &[Sample],
    usual: u32,
) -> Result<Vec<Period, A>, AllocError>
    ensures { IfOk result (λ periods. periods.items ≡ periods_of usual samples.now) }
{
    samples
        .iter()
        .zip(samples.iter().skip(1))
        .filter_map(|(before, after)| period_between(*before, *after, usual))
        .collect(alloc)
}

/// Whether captures are missing from one to the next one, and from when to when.
fn gap_between_captures(before: Sample, after: Sample, usual: u32) -> Option<Gap>
    ensures { result ≡ gap_between usual (before, after) }
{
    if before.clock < after.clock && period_between(before, after, usual).is_none() {
        Some(Gap {
            from: before.clock,
            to: after.clock,
        })
    } else {
        None
    }
}

/// The gaps.
fn gaps<A: Allocator>(alloc: A, samples: &[Sample], usual: u32) -> Result<Vec<Gap, A>, AllocError>
    ensures { IfOk result (λ gaps. gaps.items ≡ gaps_of usual samples.now) }
{
    samples
        .iter()
        .zip(samples.iter().skip(1))
        .filter_map(|(before, after)| gap_between_captures(*before, *after, usual))
        .collect(alloc)
}
