//! The APDUs that the security layer writes itself.

ghost use Rattle.std.specs.Prelude.{◌≡◌, ◌≤◌, ◌+◌, ◌++◌, length};
ghost use Rattle.arrayvec.specs.ArrayVec.{array_vec_len};
ghost use Rattle.dlms_acse.specs.Writing.{conformance_head, three_bytes, two_bytes};
ghost use Rattle.std.specs.Prelude.{◌∷◌};
ghost use Rattle.dlms_secured.specs.Messages.{initiate_of, secured_aarq, request_fields, secured_rlrq, reply_to_hls, clear_size, plain_aare};
ghost use Rattle.dlms_secured.specs.Messages.{begins};

use crate::stage::Granted;
use arrayvec::ArrayVec;
use dlms_security::MOST_MESSAGE;

/// The most octets of an APDU that a carrier takes.
pub const MOST_CARRIED: u16 = 1024;

/// The octets by which an APDU in clear is shorter than what the meter receives: its protected form has at most 30 more.
pub const OVERHEAD: u16 = 40;

/// The least size of an APDU in clear.
pub const LEAST_CLEAR: u16 = 64;

/// The most octets of a challenge, and of a protected initiate request.
pub const MOST_FIELD: u16 = 64;

/// The application context as a field: logical names, with ciphering.
const CONTEXT: [u8; 11] = [
    0xa1, 0x09, 0x06, 0x07, 0x60, 0x85, 0x74, 0x05, 0x08, 0x01, 0x03,
];

/// The sender ACSE requirements and mechanism 5.
const MECHANISM: [u8; 13] = [
    0x8a, 0x02, 0x07, 0x80, 0x8b, 0x07, 0x60, 0x85, 0x74, 0x05, 0x08, 0x02, 0x05,
];

/// The start of reply_to_HLS_authentication, before the answer.
const REPLY: [u8; 15] = [
    0xc3, 0x01, 0xc1, 0x00, 0x0f, 0x00, 0x00, 0x28, 0x00, 0x00, 0xff, 0x01, 0x01, 0x09, 0x11,
];

/// The plain association response before its services: accepted, without ciphering.
const ACCEPTED: [u8; 36] = [
    0x61, 0x29, 0xa1, 0x09, 0x06, 0x07, 0x60, 0x85, 0x74, 0x05, 0x08, 0x01, 0x01, 0xa2, 0x03, 0x02,
    0x01, 0x00, 0xa3, 0x05, 0xa1, 0x03, 0x02, 0x01, 0x00, 0xbe, 0x10, 0x04, 0x0e, 0x08, 0x00, 0x06,
    0x5f, 0x1f, 0x04, 0x00,
];

/// An initiate request in clear.
pub(crate) type Initiate = ArrayVec<u8, 31>;

/// Appends octets.
fn append<const CAP: usize>(text: &mut ArrayVec<u8, CAP>, octets: &[u8])
    requires { array_vec_len text.old + length octets.now ≤ CAP }
    ensures { text.new.items ≡ text.old.items ++ octets.now }
{
    let _fits = text.try_extend_from_slice(octets);
}

/// The initiate request in clear: version 6, with the dedicated key if there is one.
pub(crate) fn initiate_of(key: Option<[u8; 16]>, services: u32, size: u16) -> Initiate
    ensures { result.items ≡ initiate_of key services size }
{
    let mut apdu = ArrayVec::new();
    match key {
        Some(key) => {
            append(&mut apdu, &[0x01, 0x01, 0x10]);
            append(&mut apdu, key.as_slice());
        }
        None => append(&mut apdu, &[0x01, 0x00]),
    }
    append(&mut apdu, terms(services, size).as_slice());
    apdu
}

/// The rest of an initiate request, after its dedicated key.
fn terms(services: u32, size: u16) -> [u8; 12]
    ensures { result ≡ 0x00 ∷ 0x00 ∷ 0x06 ∷ (conformance_head ++ three_bytes services ++ two_bytes size) }
{
    [
        0x00,
        0x00,
        0x06,
        0x5f,
        0x1f,
        0x04,
        0x00,
        (services / 65536 % 256) as u8,
        (services / 256 % 256) as u8,
        (services % 256) as u8,
        (size / 256) as u8,
        (size % 256) as u8,
    ]
}

/// The fields of the association request.
fn request_fields(title: &[u8; 8], challenge: &[u8], message: &[u8]) -> ArrayVec<u8, 192>
    requires challenge { length challenge.now ≤ MOST_FIELD }
    requires message { length message.now ≤ MOST_FIELD }
    ensures fields { result.items ≡ request_fields title.now challenge.now message.now }
    ensures short { length result.items ≤ 172 }
{
    let mut fields = ArrayVec::new();
    append(&mut fields, CONTEXT.as_slice());
    append(&mut fields, &[0xa6, 0x0a, 0x04, 0x08]);
    append(&mut fields, title.as_slice());
    append(&mut fields, MECHANISM.as_slice());
    let len = challenge.len() as u8;
    append(&mut fields, &[0xac, len + 2, 0x80, len]);
    append(&mut fields, challenge);
    let len = message.len() as u8;
    append(&mut fields, &[0xbe, len + 2, 0x04, len]);
    append(&mut fields, message);
    fields
}

/// The association request with ciphering, around a protected initiate request.
pub(crate) fn secured_aarq(
    title: &[u8; 8],
    challenge: &[u8],
    message: &[u8],
) -> ArrayVec<u8, MOST_MESSAGE>
    requires challenge { length challenge.now ≤ MOST_FIELD }
    requires message { length message.now ≤ MOST_FIELD }
    ensures apdu { result.items ≡ secured_aarq title.now challenge.now message.now }
    ensures short { length result.items ≤ MOST_CARRIED }
{
    let fields = request_fields(title, challenge, message);
    let len = fields.len() as u8;
    let mut apdu = ArrayVec::new();
    if len < 0x80 {
        append(&mut apdu, &[0x60, len]);
    } else {
        append(&mut apdu, &[0x60, 0x81, len]);
    }
    append(&mut apdu, fields.as_slice());
    apdu
}

/// The release request with a protected initiate request.
pub(crate) fn secured_rlrq(message: &[u8]) -> ArrayVec<u8, MOST_MESSAGE>
    requires { length message.now ≤ MOST_FIELD }
    ensures apdu { result.items ≡ secured_rlrq message.now }
    ensures short { length result.items ≤ MOST_CARRIED }
{
    let len = message.len() as u8;
    let mut apdu = ArrayVec::new();
    append(
        &mut apdu,
        &[0x62, len + 7, 0x80, 0x01, 0x00, 0xbe, len + 2, 0x04, len],
    );
    append(&mut apdu, message);
    apdu
}

/// The action request with the answer to the meter's challenge.
pub(crate) fn reply_to_hls(answer: &[u8; 17]) -> ArrayVec<u8, 32>
    ensures { result.items ≡ reply_to_hls answer.now }
{
    let mut apdu = ArrayVec::new();
    append(&mut apdu, REPLY.as_slice());
    append(&mut apdu, answer.as_slice());
    apdu
}

/// The largest APDU in clear whose protected form the meter receives and the carrier carries.
pub(crate) fn clear_size(size: u16) -> u16
    ensures { result ≡ clear_size size }
{
    let most = if size == 0 {
        MOST_CARRIED
    } else {
        size.min(MOST_CARRIED)
    };
    most.saturating_sub(OVERHEAD)
}

/// The accepting association response without ciphering, with the meter's services and the lowered size.
pub(crate) fn plain_aare(granted: &Granted) -> ArrayVec<u8, 1024>
    ensures { result.items ≡ plain_aare granted.now }
{
    let size = clear_size(granted.size);
    let mut apdu = ArrayVec::new();
    append(&mut apdu, ACCEPTED.as_slice());
    append(&mut apdu, granted.services.as_slice());
    append(
        &mut apdu,
        &[(size / 256) as u8, (size % 256) as u8, 0x00, 0x07],
    );
    apdu
}

/// Whether the APDU has this tag.
pub(crate) fn begins(tag: u8, apdu: &[u8]) -> bool
    ensures { result ≡ begins tag apdu.now }
{
    match apdu {
        [first, ..] => *first == tag,
        [] => false,
    }
}
