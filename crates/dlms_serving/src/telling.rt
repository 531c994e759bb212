//! A meter gets the seconds of a clock.

ghost use Rattle.std.specs.Prelude.{◌↔◌, IsTrue};
ghost use Rattle.dlms_serving.specs.Telling.{GoesOn, Looks, Tells};

use crate::ticks::{Second, Ticks};
use dlms_meter::Meter;
use dlms_pages::Pages;
use dlms_store::AddFault;
use std::alloc::Allocator;

/// The most seconds that a meter gets in one look at the clock.
pub const CATCH_UP: u32 = 60;

/// The channel that counts what is imported.
const IMPORT: u8 = 0;

/// Gives the meter the pulses of a second, if there are any, and then the second: so a row that the second captures has them. If
/// the pulses are refused, the meter does not get the second.
pub fn tell<P: Pages, A: Allocator + Copy>(
    meter: &mut Meter<P, A>,
    second: Second,
) -> Result<(), AddFault>
    ensures { Tells meter.old second result meter.new }
{
    if second.pulses == 0 {
        return meter.moment(second.moment);
    }
    match meter.pulses(IMPORT, second.pulses) {
        Ok(()) => meter.moment(second.moment),
        Err(fault) => Err(fault),
    }
}

/// Whether the store goes on: the event was accepted, or the table refused it.
pub fn goes_on(outcome: Result<(), AddFault>) -> bool
    ensures { IsTrue result ↔ GoesOn outcome }
{
    match outcome {
        Ok(()) | Err(AddFault::Refused(_)) => true,
        Err(_) => false,
    }
}

/// Gives the meter the seconds that have passed and that it did not get yet, one after another, at most `CATCH_UP` of them. The
/// outcome is that of the last one; it goes on after a second that is refused, and ends if the store does.
pub fn look<P: Pages, A: Allocator + Copy>(
    meter: &mut Meter<P, A>,
    ticks: &mut Ticks,
    elapsed: u64,
) -> Result<(), AddFault>
    ensures { Looks elapsed ticks.old meter.old result ticks.new meter.new }
{
    let mut last = Ok(());
    for _told in 0..CATCH_UP {
        let Some(second) = ticks.next(elapsed) else {
            return last;
        };
        last = tell(meter, second);
        if !goes_on(last) {
            return last;
        }
    }
    last
}
