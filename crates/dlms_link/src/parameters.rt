//! The parameters of a link: the proposal in an SNRM, and the answer in the UA.

ghost use Rattle.std.specs.Prelude.{◌≡◌, ◌↔◌, ◌≤◌, ◌<◌, ℕ, IfSome, IfNone, IsTrue, length, None};
ghost use Rattle.dlms_link.specs.Parameters.{IsFirst, has_lawful_length, number_of, read_group, size_of, information_of, own_parameters, agreed_size, IsProposable, proposed_information, proposed_parameters};

use crate::segments::MOST_BYTES;
use arrayvec::ArrayVec;

/// The most information of a frame that a client may propose to receive. A frame of 2,047 octets holds it between any addresses.
pub(crate) const MOST_RECEIVED: u16 = 2030;

/// Whether a parameter may have a value of this length.
fn has_lawful_length(id: u8, len: usize) -> bool
    ensures { result ≡ has_lawful_length id len }
{
    if 5 <= id && id <= 8 {
        len == 1 || len == 2 || len == 4
    } else {
        true
    }
}

/// The number of one, two or four octets.
fn number_of(octets: &[u8]) -> u32
    requires { IsTrue (has_lawful_length 6 (length octets.now)) }
    ensures { result ≡ number_of octets.now }
{
    match octets {
        [a] => u32::from(*a),
        [a, b] => u32::from(*a) * 256 + u32::from(*b),
        [a, b, c, d] => {
            ((u32::from(*a) * 256 + u32::from(*b)) * 256 + u32::from(*c)) * 256 + u32::from(*d)
        }
        _ => 0,
    }
}

/// The parameter at the front, as its identifier and its value, and the bytes after it.
fn first_parameter(bytes: &[u8]) -> Option<(u8, &[u8], &[u8])>
    requires { 0 < length bytes.now }
    ensures found { IfSome result (λ r. IsFirst r.0 r.1.now r.2.now bytes.now) }
    ensures none { IfNone result ((n received : ℕ) → read_group n received bytes.now ≡ None) }
{
    let (id, rest) = bytes.split_first()?;
    let (len, rest) = rest.split_first()?;
    let len = usize::from(*len);
    if has_lawful_length(*id, len) && len <= rest.len() {
        Some((*id, &rest[..len], &rest[len..]))
    } else {
        None
    }
}

/// The greatest information that a group's parameters say is received.
fn greatest_received(group: &[u8]) -> Option<u32>
    ensures { result ≡ read_group (length group.now) MOST_BYTES group.now }
{
    let mut received = MOST_BYTES as u32;
    let mut rest = group;
    while !rest.is_empty() {
        let (id, value, behind) = first_parameter(rest)?;
        if id == 6 {
            received = number_of(value);
        }
        rest = behind;
    }
    Some(received)
}

/// The most information of a frame that the meter sends to a client with these parameters.
#[tactic(auto, unfolding(crate::specs::Parameters::size_of))]
pub(crate) fn size_of(info: &[u8]) -> Option<u8>
    ensures size { result ≡ size_of info.now }
    ensures within { IfSome result (λ size. (32 ≤ size) × (size ≤ MOST_BYTES)) }
{
    match info {
        [] => Some(MOST_BYTES as u8),
        [0x81, 0x80, len, group @ ..] if usize::from(*len) == group.len() => {
            let received = greatest_received(group)?;
            if received < 32 {
                None
            } else {
                Some(received.min(MOST_BYTES as u32) as u8)
            }
        }
        _ => None,
    }
}

/// Whether a client may propose to receive this many octets of information in a frame: 128 to 2,030.
pub fn is_proposable(size: u16) -> bool
    ensures { IsTrue result ↔ IsProposable size }
{
    MOST_BYTES as u16 <= size && size <= MOST_RECEIVED
}

/// The information of the client's SNRM: none, or the proposal to receive this many octets in a frame, to send at most 128, and to
/// have windows of 1.
pub(crate) fn proposal(received: Option<u16>) -> ArrayVec<u8, 22>
    requires { IfSome received IsProposable }
    ensures { result.items ≡ proposed_information received }
{
    let mut information = ArrayVec::new();
    if let Some(size) = received {
        let _ = if size <= 255 {
            information.try_extend_from_slice(&short_proposal(size as u8))
        } else {
            information.try_extend_from_slice(&long_proposal(size))
        };
    }
    information
}

/// A proposal of at most 255 octets.
fn short_proposal(size: u8) -> [u8; 21]
    ensures { result ≡ information_of (proposed_parameters size) }
{
    [
        0x81, 0x80, 0x12, 0x05, 0x01, 0x80, 0x06, 0x01, size, 0x07, 0x04, 0x00, 0x00, 0x00, 0x01,
        0x08, 0x04, 0x00, 0x00, 0x00, 0x01,
    ]
}

/// A proposal of more.
fn long_proposal(size: u16) -> [u8; 22]
    requires { 255 < size }
    ensures { result ≡ information_of (proposed_parameters size) }
{
    let high = (size / 256) as u8;
    let low = (size % 256) as u8;
    [
        0x81, 0x80, 0x13, 0x05, 0x01, 0x80, 0x06, 0x02, high, low, 0x07, 0x04, 0x00, 0x00, 0x00,
        0x01, 0x08, 0x04, 0x00, 0x00, 0x00, 0x01,
    ]
}

/// The most information of the client's frames, after this proposal and a UA with this information.
pub(crate) fn agreed_size(proposal: Option<u16>, ua: &[u8]) -> u8
    ensures size { result ≡ agreed_size proposal ua.now }
    ensures least { 32 ≤ result }
    ensures most { result ≤ MOST_BYTES }
{
    match proposal {
        None => MOST_BYTES as u8,
        Some(_) => size_of(ua).unwrap_or(MOST_BYTES as u8),
    }
}

/// The information of the meter's UA.
pub(crate) fn parameters(size: u8) -> [u8; 21]
    ensures { result ≡ information_of (own_parameters size) }
{
    [
        0x81, 0x80, 0x12, 0x05, 0x01, size, 0x06, 0x01, 0x80, 0x07, 0x04, 0x00, 0x00, 0x00, 0x01,
        0x08, 0x04, 0x00, 0x00, 0x00, 0x01,
    ]
}
