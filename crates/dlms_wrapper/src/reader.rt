//! Reads the messages of a stream that arrives in pieces.

ghost use Rattle.std.specs.Prelude.{◌≡◌, ◌+◌, ◌<◌, ◌≤◌, [], length, take, IsTrue, ◌↔◌, IfSome, IfNone, IsSome, None};
ghost use Rattle.dlms_wrapper.specs.Message.{Begins, IsAccepted};
ghost use Rattle.dlms_wrapper.specs.Stream.{HasNoMessage, IsRefused, IsRefusedFor, StopsAt, IsWhole, Takes};

use crate::fault::HeaderFault;
use crate::header::{Header, read_header};
use crate::message::{MOST_APDU, MOST_MESSAGE, Message};
use arrayvec::ArrayVec;
use std::marker::Model;

/// Whether a header is accepted.
fn is_accepted(limit: usize, header: Header) -> bool
    ensures { IsTrue result ↔ IsAccepted limit header }
{
    header.fault(limit).is_none()
}

/// Why no message begins with these octets, if their header is whole and refused.
fn fault_in(limit: usize, kept: &[u8]) -> Option<HeaderFault>
    ensures which { IfSome result (IsRefusedFor limit kept.now) }
    ensures refused { IsSome result ↔ IsRefused limit kept.now }
{
    match read_header(kept) {
        Some(header) => header.fault(limit),
        None => None,
    }
}

/// The number of octets that may be read before the reader looks at them again: the rest of the header, or the rest of the
/// message; 0 if the header is refused.
fn octets_to_read(limit: usize, kept: &[u8]) -> usize
    requires open { HasNoMessage limit kept.now }
    requires limit { limit ≤ MOST_APDU }
    ensures room { length kept.now ≤ MOST_MESSAGE → length kept.now + result ≤ MOST_MESSAGE }
    ensures stops { StopsAt limit kept.now result }
    ensures some { ¬ IsRefused limit kept.now → 0 < result }
    ensures refused { IsRefused limit kept.now → result ≡ 0 }
{
    match read_header(kept) {
        Some(header) => {
            if is_accepted(limit, header) {
                8 + usize::from(header.len) - kept.len()
            } else {
                0
            }
        }
        None => 8 - kept.len(),
    }
}

/// The header of these octets if they are one whole message.
fn header_of_whole(limit: usize, kept: &[u8]) -> Option<Header>
    requires { (header : Header) → Begins kept.now header → IsAccepted limit header → length kept.now ≤ 8 + header.len }
    ensures whole { IfSome result (IsWhole limit kept.now) }
    ensures none { IfNone result (HasNoMessage limit kept.now) }
{
    let header = read_header(kept)?;
    if is_accepted(limit, header) && kept.len() == 8 + usize::from(header.len) {
        Some(header)
    } else {
        None
    }
}

/// Reads the messages of a TCP stream that arrives in pieces of any size. After each `feed`, look at `message` and at `fault`.
#[derive(Drop)]
pub struct MessageReader {
    limit: usize,
    kept: ArrayVec<u8, MOST_MESSAGE>,
    found: Option<Header>,
}

impl Model for MessageReader {
    ghost use Rattle.dlms_wrapper.specs.Stream.{Kept};

    ghost Value = { Kept };

    ghost use Rattle.dlms_wrapper.specs.Reading.{kept_of, IsInOrder};

    ghost view = { kept_of };

    ghost invariant = { IsInOrder };
}

impl MessageReader {
    /// A reader at the start of a stream, which accepts APDUs of at most `limit` octets.
    pub fn new(limit: usize) -> Self
        requires { limit ≤ MOST_APDU }
        ensures { result ≡ record { limit = limit; bytes = []; message = None } }
    {
        MessageReader {
            limit,
            kept: ArrayVec::new(),
            found: None,
        }
    }

    /// Why the stream is refused: its next header has another version, or announces a longer APDU than the limit. That is known
    /// once the header's eight octets are read, and stays so: from then on `feed` reads nothing.
    pub fn fault(&self) -> Option<HeaderFault>
        ensures which { IfSome result (IsRefusedFor self.now.limit self.now.bytes) }
        ensures refused { IsSome result ↔ IsRefused self.now.limit self.now.bytes }
    {
        if self.found.is_some() {
            return None;
        }
        fault_in(self.limit, self.kept.as_slice())
    }

    /// Drops the message that the last call completed.
    fn drop_message(&mut self)
        ensures { self.new ≡ record self.old { message = None } }
    {
        if self.found.is_some() {
            self.kept.clear();
            self.found = None;
        }
    }

    /// Reads octets, at most to the end of a message, and returns how many it read; pass the others to the next call. It may stop
    /// earlier, after a header. It drops the message of the call before. It reads at least one octet, unless it is given none or
    /// the stream is refused.
    pub fn feed(&mut self, bytes: &[u8]) -> usize
        ensures len { result ≤ length bytes.now }
        ensures takes { Takes self.old.limit self.old.bytes (record { taken = take result bytes.now; found = self.new.message }) self.new.bytes }
        ensures limit { self.new.limit ≡ self.old.limit }
        ensures some { 0 < length bytes.now → ¬ IsRefused self.old.limit self.old.bytes → 0 < result }
        ensures refused { IsRefused self.old.limit self.old.bytes → result ≡ 0 }
    {
        self.drop_message();
        let count = octets_to_read(self.limit, self.kept.as_slice()).min(bytes.len());
        let _ = self.kept.try_extend_from_slice(&bytes[..count]);
        self.found = header_of_whole(self.limit, self.kept.as_slice());
        count
    }

    /// The message that the last call of `feed` completed, if it completed one. It is borrowed from the reader.
    pub fn message(&self) -> Option<Message<'_>>
        ensures { result ≡ self.now.message }
    {
        let found = self.found?;
        Some(Message {
            source: found.source,
            dest: found.dest,
            apdu: &self.kept.as_slice()[8..],
        })
    }
}
