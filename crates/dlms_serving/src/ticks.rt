//! The seconds that a meter gets, and the pulses of its load.

ghost use Rattle.std.specs.Prelude.{◌≡◌, ◌≤◌, ◌<◌, ◌+◌, ◌^◌, ◌↔◌, ◌⊎◌, IfSome, IsNone};
ghost use Rattle.dlms_serving.specs.Load.{pulses_after};

/// The seconds of an hour.
const HOUR: u64 = 3_600;

/// How far a meter has been told of the seconds of a steady clock.
#[derive(Clone, Copy, PartialEq, Eq)]
pub struct Ticks {
    /// The running second at which the clock began.
    pub first: u32,
    /// The number of seconds of the clock that the meter got.
    pub told: u32,
    /// The load in watts.
    pub watts: u32,
    // The running second has 32 bits.
    ghost in_range: { first + told < 2 ^ 32 },
}

/// What one second brings.
#[derive(Clone, Copy, PartialEq, Eq)]
pub struct Second {
    /// The meter's running second.
    pub moment: u32,
    /// The pulses of the load.
    pub pulses: u32,
}

/// The pulses of a load in this many seconds, one for each watt-hour.
fn pulses_after(watts: u32, seconds: u32) -> u64
    ensures { result ≡ pulses_after watts seconds }
{
    u64::from(watts) * u64::from(seconds) / HOUR
}

impl Ticks {
    ghost use Rattle.dlms_serving.specs.Ticks.{IsNext};

    /// No second was given yet to a meter whose last running second is this one.
    pub fn new(first: u32, watts: u32) -> Ticks
        ensures first { result.first ≡ first }
        ensures none { result.told ≡ 0 }
        ensures watts { result.watts ≡ watts }
    {
        Ticks {
            first,
            told: 0,
            watts,
        }
    }

    /// The next second, if this many whole seconds of the clock have passed; `None` if the meter got them all, or if its running
    /// second is the last that there is.
    pub fn next(&mut self, elapsed: u64) -> Option<Second>
        ensures none { IsNone result ↔ ((elapsed ≤ self.old.told)
            ⊎ (self.old.first + self.old.told + 1 ≡ 2 ^ 32)) }
        ensures stays { IsNone result → self.new ≡ self.old }
        ensures next { IfSome result (λ second. IsNext self.old second self.new) }
    {
        if elapsed <= u64::from(self.told) || self.told == u32::MAX - self.first {
            return None;
        }
        let before = pulses_after(self.watts, self.told);
        let told = self.told + 1;
        let pulses = pulses_after(self.watts, told) - before;
        self.told = told;
        Some(Second {
            moment: self.first + told,
            pulses: pulses as u32,
        })
    }
}
