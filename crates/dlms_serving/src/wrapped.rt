//! Messages of the wrapper, delivered to a meter.

ghost use Rattle.std.specs.Prelude.{◌≡◌, ◌↔◌, IsTrue, option_map};
ghost use Rattle.dlms_serving.specs.Carrying.{Delivers, IsBad, sender_of};
ghost use Rattle.dlms_serving.specs.Connection.{Counts};
ghost use Rattle.dlms_serving.specs.declared.carrier.Carrier.TheVariants as CarrierOf;

use crate::refusals::outcome_in_apdu;
use crate::turns::{Tries, behind_outcome};
use arrayvec::ArrayVec;
use dlms_frame::Client;
use dlms_meter::Meter;
use dlms_pages::Pages;
use dlms_wrapper::{MOST_MESSAGE, Message, MessageReader};

/// The wrapper port of the meter's management logical device (IEC 62056-47).
pub const METER_PORT: u16 = 1;

/// The octets of a message in which an answer goes out.
pub type Reply = ArrayVec<u8, MOST_MESSAGE>;

/// The client of a message, if one sent it to the meter.
fn sender_of(message: &Message<'_>) -> Option<Client>
    ensures { result ≡ sender_of message.now }
{
    if message.dest != METER_PORT {
        return None;
    }
    match u8::try_from(message.source) {
        Ok(sap) => Client::of_sap(sap),
        Err(_) => None,
    }
}

/// Whether no message can be answered any more: a header was refused, or a message has no octets.
pub fn is_bad(reader: &MessageReader) -> bool
    ensures { IsTrue result ↔ IsBad reader.now }
{
    match reader.message() {
        Some(message) => message.apdu.is_empty(),
        None => reader.fault().is_some(),
    }
}

/// Gives the meter the message that was read, if one is whole and of a client, and counts what the answer says of an association.
/// The answer is a message with the ports swapped.
pub fn deliver<P: Pages>(
    meter: &mut Meter<P>,
    reader: &MessageReader,
    tries: &mut Tries,
) -> Option<Reply>
    ensures delivers { Delivers reader.now.message meter.old
        (option_map (λ reply. reply.items) result) meter.new }
    ensures counts { Counts CarrierOf.Wrapper (option_map (λ reply. reply.items) result)
        tries.old tries.new }
{
    let Some(message) = reader.message() else {
        return None;
    };
    let Some(who) = sender_of(&message) else {
        return None;
    };
    let answer = meter.request(who, message.apdu);
    *tries = behind_outcome(outcome_in_apdu(answer.as_slice(), who), *tries);
    Some(Message::new(message.dest, message.source, answer.as_slice()).encode())
}
