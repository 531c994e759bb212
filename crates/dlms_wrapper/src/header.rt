//! The header of a message: read, written, and accepted or refused.

ghost use Rattle.std.specs.Prelude.{◌≡◌, ◌<◌, ◌↔◌, IfNone, IfSome, IsNone, length};
ghost use Rattle.dlms_wrapper.specs.Message.{Begins, IsAccepted, RefusesHeader, header_bytes};

use crate::fault::HeaderFault;

/// The only version of the wrapper that IEC 62056-47 defines.
pub const VERSION: u16 = 1;

/// The header of a message (IEC 62056-47, the wrapper protocol data unit): four numbers of two octets each, high octet first.
#[derive(Clone, Copy, Debug, PartialEq, Eq)]
pub struct Header {
    /// The version of the wrapper.
    pub version: u16,
    /// The wrapper port (wPort) of the sender: which client, or which logical device of the meter.
    pub source: u16,
    /// The wrapper port (wPort) of the receiver.
    pub dest: u16,
    /// The number of octets of the APDU that follows, without the header's eight.
    pub len: u16,
}

impl Header {
    /// Why a message with this header is refused if an APDU may have at most `limit` octets: its version, or else its length.
    /// `None` if the header is accepted.
    pub fn fault(self, limit: usize) -> Option<HeaderFault>
        ensures which { IfSome result (RefusesHeader limit self) }
        ensures accepted { IsNone result ↔ IsAccepted limit self }
    {
        if self.version != VERSION {
            return Some(HeaderFault::Version(self.version));
        }
        if usize::from(self.len) > limit {
            return Some(HeaderFault::TooLong {
                len: self.len,
                limit,
            });
        }
        None
    }
}

/// Reads the header at the front of these octets, whatever its version and length; `None` if there are fewer than eight octets.
pub fn read_header(bytes: &[u8]) -> Option<Header>
    ensures some { IfSome result (λ header. Begins bytes.now header) }
    ensures none { IfNone result (length bytes.now < 8) }
{
    match bytes {
        [a, b, c, d, e, f, g, h, ..] => Some(Header {
            version: u16::from(*a) * 256 + u16::from(*b),
            source: u16::from(*c) * 256 + u16::from(*d),
            dest: u16::from(*e) * 256 + u16::from(*f),
            len: u16::from(*g) * 256 + u16::from(*h),
        }),
        _ => None,
    }
}

/// Writes a header as its eight octets.
pub fn write_header(header: Header) -> [u8; 8]
    ensures { result ≡ header_bytes header }
{
    [
        (header.version / 256) as u8,
        (header.version % 256) as u8,
        (header.source / 256) as u8,
        (header.source % 256) as u8,
        (header.dest / 256) as u8,
        (header.dest % 256) as u8,
        (header.len / 256) as u8,
        (header.len % 256) as u8,
    ]
}
