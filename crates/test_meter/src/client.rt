//! A client's end of the line.

use crate::plan::SECRET;
use arrayvec::ArrayVec;
use dlms_acse::{Conformance, write_aarq};
use dlms_frame::{Client, Deframer, SentFrame};
use dlms_link::{ClientLink, ClientOut};
use dlms_meter::Meter;
use dlms_pages::Pages;
use std::alloc::Allocator;

/// An APDU.
pub type Apdu = ArrayVec<u8, 1024>;

/// The services that the client proposes.
const PROPOSED: Conformance = Conformance(0x7e_1f);

/// The most bytes of an APDU that a client takes. The object list is longer than the public one's.
fn size_of(client: Client) -> u16 {
    match client {
        Client::Public => 512,
        Client::Management | Client::Reader => 1024,
    }
}

/// The meter's reply to a frame; none if it has none.
pub fn reply_to<P: Pages, A: Allocator + Copy>(
    meter: &mut Meter<P, A>,
    frame: &SentFrame,
) -> Option<SentFrame> {
    let bytes = frame.put();
    let (_, reply) = meter.feed(bytes.as_slice());
    let reply = reply?;
    let mut deframer = Deframer::new();
    let _taken = deframer.feed(reply.as_slice());
    let frame = deframer.frame()?;
    frame.owned()
}

/// Sends an APDU of at most 1024 bytes, and returns its answer, in as many frames as it comes in; none if the link is busy or no
/// answer comes.
pub fn exchange<P: Pages, A: Allocator + Copy>(
    meter: &mut Meter<P, A>,
    link: &mut ClientLink,
    apdu: &[u8],
) -> Option<Apdu> {
    if !link.is_idle() || apdu.len() > 1024 {
        return None;
    }
    let mut frame = link.send(apdu);
    'frames: for _ in 0..32u8 {
        let reply = reply_to(meter, &frame)?;
        match link.on(&reply.lent()) {
            ClientOut::Send(next) => frame = next,
            ClientOut::Apdu => {
                let mut answer = ArrayVec::new();
                let _fits = answer.try_extend_from_slice(link.apdu());
                return Some(answer);
            }
            _ => return None,
        }
    }
    None
}

/// A client's link, with an association that takes the client's usual APDUs.
pub fn associated<P: Pages, A: Allocator + Copy>(
    meter: &mut Meter<P, A>,
    client: Client,
) -> Option<ClientLink> {
    associated_by(meter, client, size_of(client))
}

/// Connects a link with this frame, and associates on it, for APDUs of at most this many bytes.
fn associate<P: Pages, A: Allocator + Copy>(
    meter: &mut Meter<P, A>,
    link: &mut ClientLink,
    frame: &SentFrame,
    client: Client,
    size: u16,
) -> Option<()> {
    let reply = reply_to(meter, frame)?;
    let ClientOut::Up = link.on(&reply.lent()) else {
        return None;
    };
    let request = write_aarq(client, SECRET, PROPOSED, size);
    let answer = exchange(meter, link, request.as_slice())?;
    (answer.len() == 43).then_some(())
}

/// A client's link, with an association that takes APDUs of at most this many bytes; none if it is refused.
pub fn associated_by<P: Pages, A: Allocator + Copy>(
    meter: &mut Meter<P, A>,
    client: Client,
    size: u16,
) -> Option<ClientLink> {
    let mut link = ClientLink::new(client);
    let frame = link.connect();
    match associate(meter, &mut link, &frame, client, size) {
        Some(()) => Some(link),
        None => {
            drop(link);
            None
        }
    }
}
