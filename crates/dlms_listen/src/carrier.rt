//! What carries the APDUs of a line.

ghost use Rattle.std.specs.Prelude.{◌≡◌};
ghost use Rattle.dlms_listen.specs.Line.{carrier_of};

/// The first octet of a message of the wrapper, whose version is 1 in two octets (IEC 62056-47).
const VERSION: u8 = 0;

/// The first octets of a telegram (IEC 62056-21), and of general-glo-ciphering (IEC 62056-5-3).
const SLASH: u8 = b'/';

const CIPHERED: u8 = 0xdb;

/// What carries the APDUs of a line.
#[derive(Clone, Copy, Debug, PartialEq, Eq)]
pub enum Carrier {
    /// HDLC frames.
    Hdlc,
    /// Messages of the TCP and UDP wrapper.
    Wrapper,
    /// Telegrams of text, in clear or ciphered.
    Telegrams,
}

/// The carrier of a line that begins with this octet: the wrapper, telegrams, or HDLC, perhaps within a frame.
pub fn carrier_of(first: u8) -> Carrier
    ensures { result ≡ carrier_of first }
{
    if first == VERSION {
        Carrier::Wrapper
    } else if first == SLASH || first == CIPHERED {
        Carrier::Telegrams
    } else {
        Carrier::Hdlc
    }
}
