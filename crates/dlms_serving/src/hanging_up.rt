//! A connection's end is the end of its links.

ghost use Rattle.std.specs.Prelude.{◌≡◌, List};
ghost use Rattle.dlms_serving.specs.HangingUp.{disc_of, EndsLink, HangsUp};
ghost use Rattle.dlms_meter.specs.Steps.{Call, Calls};

use dlms_frame::{Address, Client, SentFrame};
use dlms_meter::Meter;
use dlms_pages::Pages;
use std::alloc::Allocator;

/// The control octet of DISC with the poll bit (IEC 62056-46, 6.4.3.3).
const DISC: u8 = 0x53;

/// The upper address of the meter's management logical device.
const METER: u8 = 1;

/// The frame with which a client ends its link.
fn disc(client: Client) -> SentFrame
    ensures { result ≡ disc_of client }
{
    SentFrame::new(
        false,
        Address::One(METER),
        Address::One(client.sap()),
        DISC,
        &[],
    )
}

/// Ends a client's link: after a silence the meter gets the DISC of that client. Its reply goes nowhere.
fn end_link<P: Pages, A: Allocator + Copy>(meter: &mut Meter<P, A>, client: Client)
    ensures ends { EndsLink client meter.old meter.new }
    ensures calls { (calls : List Call) × Calls meter.old calls meter.new }
{
    meter.idle();
    let frame = disc(client).put();
    let _answered = meter.feed(frame.as_slice());
}

/// Ends the links of all clients, and with them associations and transfers, by the frames that do so and a silence. To be called
/// before a connection is served, so that it inherits nothing, and after it, so that it leaves nothing.
pub fn hang_up<P: Pages, A: Allocator + Copy>(meter: &mut Meter<P, A>)
    ensures hangs_up { HangsUp meter.old meter.new }
    ensures calls { (calls : List Call) × Calls meter.old calls meter.new }
{
    end_link(meter, Client::Public);
    end_link(meter, Client::Management);
    end_link(meter, Client::Reader);
    meter.idle();
}
