//! What is true of the files of a collection.

ghost use Rattle.dlms_collecting.specs.Held.{WhatIsCollectedIsHeld};
ghost use Rattle.dlms_collecting.specs.Own.{WhatIsFiledIsItsOwn};
ghost use Rattle.dlms_collecting.specs.OwnRun.{OwnPollsExist};

use dlms_carrier::AnyCarrier;
use dlms_inquiries::laws::done_is_a_poll;
use dlms_meter::Meter;
use dlms_pages::Pages;
use dlms_secured::Secured;
use dlms_world::laws::a_poll_over_a_carrier;
use std::alloc::Allocator;

/// If the carrier of a meter's poll leads to a meter, and that meter held the rows of the readings file, it holds those of the text that
/// is put in the file's place, whatever messages were lost. That a poll is done which its seat hands back as done, whatever the other
/// meters do, is a law of `dlms_inquiries`.
pub fn what_is_collected_is_held<P: Pages, A: Allocator + Copy>(meter: &Meter<P, A>)
    ensures { WhatIsCollectedIsHeld meter.now }
{
    a_poll_over_a_carrier::<Secured<AnyCarrier<A>>, P, A>(meter);
}

/// Rows that are printed and filed for the meter with a number are those of the poll that was started with that number, and of no other,
/// whatever the other meters do. `MeterFile::file` files by `FilesOwn` alone, and `Order::poll` makes a poll over the route of its
/// meter.
pub fn what_is_filed_is_its_own()
    ensures { WhatIsFiledIsItsOwn }
{
    done_is_a_poll();
}

/// The law of filed rows speaks of real polls: each new poll of a meter over the wrapper that is started on a seat, and gets the meter's
/// answers, is handed back as done with the rows that they spell, and each filing of these rows is one that the law speaks of.
pub fn own_polls_exist()
    ensures { OwnPollsExist }
{}
