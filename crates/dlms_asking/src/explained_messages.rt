//! Explains the messages of the TCP wrapper that pass over a line.

use dlms_explain::{Side, write_apdu};
use dlms_wrapper::{Header, VERSION, read_header};
use std::alloc::{AllocError, Global};

/// How many octets a header has (IEC 62056-47, the wrapper protocol data unit).
const HEADER: usize = 8;

/// Shown for octets that are not a message.
const NO_WRAPPER: &str = "(octets that are of no wrapper)\n";

/// A message, of any version and length.
#[derive(Clone, Copy)]
struct Message<'b> {
    header: Header,
    apdu: &'b [u8],
}

/// The message at the front, once it is complete, and the octets after it.
fn message_at(octets: &[u8]) -> Option<(Message<'_>, &[u8])> {
    let header = read_header(octets)?;
    let rest = octets.get(HEADER..)?;
    let len = usize::from(header.len);
    let message = Message {
        header,
        apdu: rest.get(..len)?,
    };
    Some((message, rest.get(len..)?))
}

/// Appends the explanation of a message: its ports and its length, and the parts of its APDU.
#[inline(never)]
fn explain_message(
    alloc: Global,
    side: Side,
    message: &Message<'_>,
    text: &mut String,
) -> Result<(), AllocError> {
    let mark = if side == Side::Client { ">" } else { "<" };
    let Header {
        source,
        dest,
        len,
        ..
    } = message.header;
    let line = format!(in alloc; "{mark} wrapper port {source} to {dest}; length {len}\n")?;
    text.push_str(line.as_str())?;
    write_apdu(text, alloc, Some(side), message.apdu)
}

/// Appends the explanation of the messages at the front, and returns how many octets they have: all of them if one is not a message.
fn explain_front(
    alloc: Global,
    side: Side,
    octets: &[u8],
    text: &mut String,
) -> Result<usize, AllocError> {
    let mut rest = octets;
    for _ in 0..octets.len() {
        let Some((message, next)) = message_at(rest) else {
            break;
        };
        if message.header.version != VERSION {
            text.push_str(NO_WRAPPER)?;
            return Ok(octets.len());
        }
        explain_message(alloc, side, &message, text)?;
        rest = next;
    }
    Ok(octets.len().saturating_sub(rest.len()))
}

/// Appends octets to those that are left, and explains the messages that are then complete.
fn take(
    alloc: Global,
    side: Side,
    left: &mut Vec<u8>,
    octets: &[u8],
    text: &mut String,
) -> Result<(), AllocError> {
    left.extend_from_slice(octets)?;
    let count = explain_front(alloc, side, left.as_slice(), text)?.min(left.len());
    let remaining = left.len() - count;
    left.copy_within(count.., 0);
    left.truncate(remaining);
    Ok(())
}

/// The octets of both directions whose messages are not complete.
#[derive(Drop)]
pub struct Messages {
    alloc: Global,
    sent: Vec<u8>,
    received: Vec<u8>,
}

impl Messages {
    /// Before the first octet.
    pub fn new(alloc: Global) -> Self {
        Messages {
            alloc,
            sent: Vec::new(alloc),
            received: Vec::new(alloc),
        }
    }

    /// Appends to the text the explanation of octets of this end: of the messages that end in them.
    pub fn explain(
        &mut self,
        side: Side,
        octets: &[u8],
        text: &mut String,
    ) -> Result<(), AllocError> {
        match side {
            Side::Client => take(self.alloc, side, &mut self.sent, octets, text),
            Side::Meter => take(self.alloc, side, &mut self.received, octets, text),
        }
    }
}
