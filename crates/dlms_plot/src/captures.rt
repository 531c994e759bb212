//! The power between two captures.
ghost use Rattle.std.specs.Prelude.{◌≡◌};
ghost use Rattle.dlms_plot.specs.Power.{period_of};

/// The value of a register at a second of the clock.
#[derive(Clone, Copy, PartialEq, Eq)]
pub struct Sample {
    pub clock: u32,
    pub value: u32,
}

/// The power from one capture to the next one.
#[derive(Clone, Copy, PartialEq, Eq)]
pub struct Period {
    pub from: u32,
    pub to: u32,
    /// The register's increase per hour.
    pub power: u64,
}

/// From one capture to the next one others are missing.
#[derive(Clone, Copy, PartialEq, Eq)]
pub struct Gap {
    pub from: u32,
    pub to: u32,
}

/// The power between two captures: the register's increase over the hours between them. None if the clock did not advance, or the
/// register went back.
pub fn power(before: Sample, after: Sample) -> Option<Period>
    ensures { result ≡ period_of before after }
{
    if after.clock <= before.clock || after.value < before.value {
        return None;
    }
    let seconds = u64::from(after.clock - before.clock);
    let counted = u64::from(after.value - before.value);
    Some(Period {
        from: before.clock,
        to: after.clock,
        power: counted * 3600 / seconds,
    })
}
