//! What holds for the readings filed from a meter.

ghost use Rattle.std.specs.Prelude.{◌≡◌, ◌+◌};
ghost use Rattle.dlms_polling.specs.declared.calling.TheConstants.{MOST_RETRIES};
ghost use Rattle.dlms_polling.specs.declared.clocks.TheConstants.{YEAR_2000};
ghost use Rattle.dlms_polling.specs.declared.routed.TheConstants.{READS};
ghost use Rattle.dlms_polling.specs.declared.secret.TheConstants.{MOST_READ};
ghost use Rattle.dlms_polling.specs.declared.way.TheConstants.{SIZE};
ghost use Rattle.dlms_polling.specs.Captures.{PlaceHoldsCaptures, WhatARoutePutsIsHeld, WhatIsPutAgrees, WhatIsPutIsHeld};
ghost use Rattle.dlms_polling.specs.Risers.{FilesSome};
ghost use Rattle.dlms_state.specs.declared.event.TheConstants.{MOST_SECRET};

use dlms_carrier::AnyCarrier;
use dlms_meter::Meter;
use dlms_pages::Pages;
use dlms_secured::Secured;
use dlms_world::laws::{
    a_meter_holds_a_file, a_poll_over_a_carrier, a_poll_over_a_line, programs_are_runs,
};
use std::alloc::Allocator;

/// The rows that a poll files from an answer are rows of that answer, in their order.
pub fn what_is_filed_was_answered()
    ensures { FilesSome }
{}

/// Whatever a program has done that polls a meter and files what it read, however often and as whichever client, and wherever the power
/// or the head end stopped: what it puts in the place of the readings are captures that the meter holds.
pub fn the_place_holds_captures<P: Pages, A: Allocator + Copy>(meter: &Meter<P, A>)
    ensures { PlaceHoldsCaptures meter.now }
{
    programs_are_runs(meter);
}

/// Where the line of a poll leads to a meter, and the readings file held captures of that meter alone, so does the file that the poll
/// puts there, whatever the line lost or delayed, and whatever else arrived at the meter. So it is if the meter held the rows of the
/// file, whatever carriers the earlier polls had.
pub fn what_is_put_agrees<P: Pages, A: Allocator + Copy>(old: &Meter<P, A>, new: &Meter<P, A>)
    ensures agrees { WhatIsPutAgrees old.now new.now }
    ensures held { WhatIsPutIsHeld old.now new.now }
{
    a_poll_over_a_line(old, new);
    a_meter_holds_a_file(old, new);
}

/// Where the carrier of a poll over a route leads to a meter, and the meter held the rows of the readings file, it holds those of the
/// file that the poll puts there, whatever messages were lost, and whatever else arrived at the meter over either carrier.
pub fn what_a_route_puts_is_held<P: Pages, A: Allocator + Copy>(meter: &Meter<P, A>)
    ensures { WhatARoutePutsIsHeld meter.now }
{
    a_poll_over_a_carrier::<Secured<AnyCarrier<A>>, P, A>(meter);
}

/// The numbers that clauses cite by name: the seconds from 1970 to 2000; the octets of the longest secret, and those that are read of
/// a file; the retries of a call that does not bound them, and the most reads of a poll over a route; the octets of an APDU that asks for a text.
pub fn the_numbers()
    ensures year { YEAR_2000 ≡ 946684800 }
    ensures secret { (MOST_SECRET ≡ 16) × (MOST_READ ≡ MOST_SECRET + 3) }
    ensures calls { (MOST_RETRIES ≡ 131071) × (READS ≡ 16777216) }
    ensures texts { SIZE ≡ 1024 }
{}
