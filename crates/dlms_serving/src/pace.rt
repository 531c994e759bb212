//! The pace at which a meter gets the seconds of a clock.

ghost use Rattle.std.specs.Prelude.{max};
ghost use Rattle.dlms_serving.specs.Pace.{AreDue};

/// The seconds that a meter gets of those that have passed, if it gets them in steps of this many: those of whole steps. A step of
/// 0 counts as a step of one second.
pub fn due(elapsed: u64, step: u32) -> u64
    ensures { AreDue (max step 1) elapsed result }
{
    let step = u64::from(step.max(1));
    elapsed / step * step
}
