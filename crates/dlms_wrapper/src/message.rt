//! A message: its parts, its octets, and the message that a datagram is.

use crate::fault::DatagramFault;
use crate::header::{Header, VERSION, read_header, write_header};
use arrayvec::ArrayVec;
use std::marker::Model;

/// The most octets of an APDU.
pub const MOST_APDU: usize = 1024;

/// The most octets of a message: a header of eight, and an APDU.
pub const MOST_MESSAGE: usize = 1032;

/// A message (IEC 62056-47, the wrapper protocol data unit): the wrapper ports of its sender and its receiver, and a borrowed APDU
/// of at most `MOST_APDU` octets. An APDU of no octets is one: no rule of the wrapper forbids it, and the layer above refuses it.
#[derive(Drop)]
pub struct Message<'a> {
    /// The wrapper port (wPort) of the sender.
    pub source: u16,
    /// The wrapper port (wPort) of the receiver.
    pub dest: u16,
    /// The octets of the APDU.
    pub apdu: &'a [u8],
}

impl<'a> Model for Message<'a> {
    ghost use Rattle.std.specs.Prelude.{◌≤◌, length};
    ghost use Rattle.dlms_wrapper.specs.Message.{Parts};
    ghost use Rattle.dlms_wrapper.specs.declared.message.TheConstants.{MOST_APDU};

    ghost Value = { Parts };

    ghost view = { λ m. record { source = m.source; dest = m.dest; apdu = m.apdu.now } };

    ghost invariant = { λ m. length m.apdu.now ≤ MOST_APDU };
}

impl<'a> Message<'a> {
    ghost use Rattle.std.specs.Prelude.{◌≡◌, ◌≤◌, Ok, IfErr, IfOk, length};
    ghost use Rattle.dlms_wrapper.specs.Message.{Parts, message_bytes};
    ghost use Rattle.dlms_wrapper.specs.Datagram.{IsDatagram, RefusesDatagram};
    ghost use Rattle.dlms_wrapper.specs.declared.message.TheConstants.{MOST_APDU};

    /// A message from wrapper port `source` to wrapper port `dest`. The caller has checked that the APDU has at most `MOST_APDU`
    /// octets.
    pub fn new(source: u16, dest: u16, apdu: &'a [u8]) -> Message<'a>
        requires { length apdu.now ≤ MOST_APDU }
        ensures { result ≡ record { source = source; dest = dest; apdu = apdu.now } }
    {
        Message { source, dest, apdu }
    }

    /// Reads a UDP datagram, which must be one whole message and nothing else, with an APDU of at most `limit` octets. The APDU is
    /// borrowed from the datagram. Each refusal has its name and numbers; the first that applies is returned.
    pub fn from_datagram(datagram: &'a [u8], limit: usize) -> Result<Message<'a>, DatagramFault>
        requires { limit ≤ MOST_APDU }
        ensures ok { IfOk result (IsDatagram limit datagram.now) }
        ensures each { (m : Parts) → IsDatagram limit datagram.now m → result ≡ Ok m }
        ensures err { IfErr result (RefusesDatagram limit datagram.now) }
    {
        let Some(header) = read_header(datagram) else {
            return Err(DatagramFault::Short(datagram.len()));
        };
        if let Some(fault) = header.fault(limit) {
            return Err(DatagramFault::Header(fault));
        }
        let apdu = &datagram[8..];
        if apdu.len() != usize::from(header.len) {
            return Err(DatagramFault::Length {
                len: header.len,
                found: apdu.len(),
            });
        }
        Ok(Message {
            source: header.source,
            dest: header.dest,
            apdu,
        })
    }

    /// The octets of the message: one datagram, or the next octets of a stream.
    pub fn encode(&self) -> ArrayVec<u8, MOST_MESSAGE>
        ensures { result.items ≡ message_bytes self.now }
    {
        let header = Header {
            version: VERSION,
            source: self.source,
            dest: self.dest,
            len: self.apdu.len() as u16,
        };
        let mut octets = ArrayVec::new();
        let _ = octets.try_extend_from_slice(&write_header(header));
        let _ = octets.try_extend_from_slice(self.apdu);
        octets
    }
}
