//! Why octets, frames and APDUs are not notifications.

use dlms_security::UnprotectFault;
use dlms_wrapper::HeaderFault;

/// What was left out of a stream.
#[derive(Clone, Copy, Debug, PartialEq, Eq)]
pub enum Skip {
    /// A frame that is neither a UI frame nor an information frame, with this control field.
    Control(u8),
    /// A frame without an LLC header.
    NoLlc,
    /// Segments of an APDU whose rest did not come, or whose beginning was missed.
    Torn,
    /// Blocks of an APDU whose rest did not come, or whose beginning was missed.
    TornBlocks,
    /// Segments or blocks that join to a longer APDU than is kept.
    Long,
    /// A telegram with a wrong check.
    WrongCheck,
    /// A longer telegram than is kept.
    LongTelegram,
    /// The stream has no further messages of the wrapper, for this reason.
    Header(HeaderFault),
}

/// Why an APDU is not taken as a notification.
#[derive(Clone, Copy, Debug, PartialEq, Eq)]
pub enum Refusal {
    /// It is of another service, by its first octet; of none if it is empty.
    Another(Option<u8>),
    /// Its fields are not those of its service.
    Malformed,
    /// It is ciphered, and there are no keys.
    NoKeys,
    /// It is not ciphered, and there are keys.
    InClear,
    /// It does not name its sender.
    NoTitle,
    /// There are no keys of this sender.
    Foreign([u8; 8]),
    /// It has a tag, and the keys of this sender are without an authentication key.
    NoAuthenticationKey([u8; 8]),
    /// The keys of this sender do not open it, for this reason.
    Closed([u8; 8], UnprotectFault),
    /// Its invocation counter is not above the last one that was accepted from this sender.
    Replay {
        title: [u8; 8],
        counter: u32,
        last: u32,
    },
}
