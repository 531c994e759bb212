//! The usual period: the step of the clock that stands most often between two captures.
ghost use Rattle.std.specs.Prelude.{◌≡◌, ◌≢◌, [], ◌∷◌, IfOk, IsErr, MatchOption, length};
ghost use Rattle.std.specs.List.Sorted.{IsNonDecreasing};
ghost use Rattle.dlms_plot.specs.Steps.{step_of, steps_of, IsUsual};

use crate::captures::Sample;
use std::alloc::{AllocError, Allocator};

/// How far the clock advanced from one capture to the next one, if it did.
fn step(before: Sample, after: Sample) -> Option<u32>
    ensures { result ≡ step_of (before, after) }
{
    if before.clock < after.clock {
        Some(after.clock - before.clock)
    } else {
        None
    }
}

/// How often the clock goes on from a capture to the next one.
fn count_steps(samples: &[Sample]) -> usize
    ensures { result ≡ length (steps_of samples.now) }
{
    samples
        .iter()
        .zip(samples.iter().skip(1))
        .filter_map(|(before, after)| step(*before, *after))
        .count()
}

/// How far the clock advanced from each capture to the next one, if it did.
fn steps<A: Allocator>(alloc: A, samples: &[Sample]) -> Result<Vec<u32, A>, AllocError>
    ensures { IfOk result (λ steps. steps.items ≡ steps_of samples.now) }
{
    samples
        .iter()
        .zip(samples.iter().skip(1))
        .filter_map(|(before, after)| step(*before, *after))
        .collect(alloc)
}

/// The number that stands most often in a sorted list that begins with this one; of several the least.
fn most_often_from(first: u32, rest: &[u32]) -> u32
    requires { IsNonDecreasing (first ∷ rest.now) }
    ensures { IsUsual (first ∷ rest.now) result }
{
    let mut best = first;
    let mut most = 1usize;
    let mut last = first;
    let mut count = 1usize;
    for number in rest {
        count = if *number == last { count + 1 } else { 1 };
        last = *number;
        if most < count {
            best = last;
            most = count;
        }
    }
    best
}

/// The number that stands most often in a sorted list; of several the least.
fn most_often(sorted: &[u32]) -> Option<u32>
    requires { IsNonDecreasing sorted.now }
    ensures { MatchOption result (sorted.now ≡ []) (IsUsual sorted.now) }
{
    match sorted {
        [] => None,
        [first, rest @ ..] => Some(most_often_from(*first, rest)),
    }
}

/// The usual period: the most frequent step of the clock between two captures; of several the least. None if the clock never
/// advances; out of memory is reported only if it does.
pub fn usual_step<A: Allocator>(alloc: A, samples: &[Sample]) -> Result<Option<u32>, AllocError>
    ensures usual { IfOk result (λ found. MatchOption found (steps_of samples.now ≡ [])
        (IsUsual (steps_of samples.now))) }
    ensures memory { IsErr result → steps_of samples.now ≢ [] }
{
    if count_steps(samples) == 0 {
        return Ok(None);
    }
    let mut steps = steps(alloc, samples)?;
    steps.sort()?;
    Ok(most_often(&steps))
}
