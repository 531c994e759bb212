//! A connection's end is the end of its links.

ghost use Rattle.std.specs.Prelude.{◌≡◌};
ghost use Rattle.dlms_c.specs.HangingUp.{disc_of, EndsLink, HangsUp};

use dlms_frame::{Address, Client, SentFrame};
use dlms_meter::Meter;
use dlms_pages::Pages;
use std::alloc::Allocator;

/// The control octet of DISC with the poll bit (IEC 62056-46, 6.4.3.3).
const DISC: u8 = 0x53;

/// The upper address of the meter's management logical device.
const METER: u8 = 1;

/// The frame with which a client ends its link.
fn disc(client: Client) -> SentFrame
    ensures { result ≡ disc_of client }
{
    SentFrame::new(
        false,
        Address::One(METER),
        Address::One(client.sap()),
        DISC,
        &[],
    )
}

/// Ends a client's link: after a silence the meter takes the DISC of that client. Its reply is dropped.
fn end_link<P: Pages, A: Allocator + Copy>(meter: &mut Meter<P, A>, client: Client)
    ensures { EndsLink client meter.old meter.new }
{
    meter.idle();
    let frame = disc(client).put();
    let _answered = meter.feed(frame.as_slice());
}

/// Ends the links of all clients, and with them associations and transfers, by the frames that do so and a silence.
pub fn hang_up<P: Pages, A: Allocator + Copy>(meter: &mut Meter<P, A>)
    ensures { HangsUp meter.old meter.new }
{
    end_link(meter, Client::Public);
    end_link(meter, Client::Management);
    end_link(meter, Client::Reader);
    meter.idle();
}
