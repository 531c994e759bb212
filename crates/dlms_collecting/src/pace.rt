//! The ticks of a collection.

ghost use Rattle.std.specs.Prelude.{◌≡◌, if◌then◌else◌};

use std::time::{Duration, Instant};

/// The milliseconds between two ticks.
pub const TICK_MILLISECONDS: u64 = 100;

/// The ticks of a second.
pub const TICKS_A_SECOND: u32 = 10;

/// The moment of the last tick.
#[derive(Clone, Copy)]
pub struct Pace {
    last: Instant,
}

/// The whole milliseconds between two moments.
pub fn milliseconds_between(earlier: Instant, later: Instant) -> u64 {
    let passed = later.duration_since(earlier);
    passed
        .as_secs()
        .saturating_mul(1_000)
        .saturating_add(u64::from(passed.subsec_millis()))
}

impl Pace {
    /// The first tick is due a tick after this moment.
    pub fn new(now: Instant) -> Self
        ensures { result.last ≡ now }
    {
        Pace { last: now }
    }

    /// How long it is until the next tick.
    pub fn left(&self, now: Instant) -> Duration {
        let passed = milliseconds_between(self.last, now);
        Duration::from_millis(TICK_MILLISECONDS.saturating_sub(passed))
    }

    /// Whether a tick is due, which is counted from now on: ticks that were missed are not caught up, since an answer could not be read
    /// meanwhile.
    pub fn ticks(&mut self, now: Instant) -> bool
        ensures { self.new.last ≡ if result then now else self.old.last }
    {
        let is_due = milliseconds_between(self.last, now) >= TICK_MILLISECONDS;
        if is_due {
            self.last = now;
        }
        is_due
    }
}
