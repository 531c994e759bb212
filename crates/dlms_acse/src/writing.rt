//! Writing the APDUs of an association.

ghost use Rattle.dlms_acse.specs.Spelling.{IsAarq, IsAare, asked, answered};
ghost use Rattle.std.specs.Prelude.{◌<◌, ◌≡◌, ◌≤◌, ◌+◌, ◌++◌, length};
ghost use Rattle.arrayvec.specs.ArrayVec.{array_vec_len};
ghost use Rattle.dlms_acse.specs.Writing.{aarq_bytes, aare_bytes, release_request, release_response, authentication, three_bytes, two_bytes, initiate_request, field};

use crate::conformance::Conformance;
use crate::outcome::Verdict;
use arrayvec::ArrayVec;
use dlms_frame::Client;

/// The application context as a field: logical names, no ciphering.
const CONTEXT: [u8; 11] = [
    0xa1, 0x09, 0x06, 0x07, 0x60, 0x85, 0x74, 0x05, 0x08, 0x01, 0x01,
];

/// The bytes before a client's secret: the requirements, the mechanism.
const LOW_LEVEL: [u8; 13] = [
    0x8a, 0x02, 0x07, 0x80, 0x8b, 0x07, 0x60, 0x85, 0x74, 0x05, 0x08, 0x02, 0x01,
];

/// Appends bytes.
fn append(text: &mut ArrayVec<u8, 128>, bytes: &[u8])
    requires { array_vec_len text.old + length bytes.now ≤ 128 }
    ensures { text.new.items ≡ text.old.items ++ bytes.now }
{
    let _ = text.try_extend_from_slice(bytes);
}

/// The bytes of a buffer.
fn text_of(bytes: &[u8]) -> ArrayVec<u8, 128>
    requires { length bytes.now ≤ 128 }
    ensures { result.items ≡ bytes.now }
{
    let mut text = ArrayVec::new();
    append(&mut text, bytes);
    text
}

/// A conformance block's three bytes.
fn three_bytes(conformance: Conformance) -> [u8; 3]
    ensures { result ≡ three_bytes conformance.0 }
{
    let bits = conformance.0;
    [
        (bits / 65536 % 256) as u8,
        (bits / 256 % 256) as u8,
        (bits % 256) as u8,
    ]
}

/// Appends who the client is.
fn append_authentication(text: &mut ArrayVec<u8, 128>, client: Client, secret: &[u8])
    requires short { length secret.now ≤ 16 }
    requires room { array_vec_len text.old + 33 ≤ 128 }
    ensures { text.new.items ≡ text.old.items ++ authentication client secret.now }
{
    if client.has_secret() {
        let len = secret.len() as u8;
        append(text, LOW_LEVEL.as_slice());
        append(text, &[0xac, len + 2, 0x80, len]);
        append(text, secret);
    }
}

/// The initiate request in its field.
fn initiate_field(conformance: Conformance, size: u16) -> [u8; 18]
    ensures { result ≡ field 190 (field 4 (initiate_request conformance.0 size)) }
{
    let [high, middle, low] = three_bytes(conformance);
    [
        0xbe,
        0x10,
        0x04,
        0x0e,
        0x01,
        0x00,
        0x00,
        0x00,
        0x06,
        0x5f,
        0x1f,
        0x04,
        0x00,
        high,
        middle,
        low,
        (size / 256) as u8,
        (size % 256) as u8,
    ]
}

/// An association request.
fn request_text(
    client: Client,
    secret: &[u8],
    conformance: Conformance,
    size: u16,
) -> ArrayVec<u8, 128>
    requires { length secret.now ≤ 16 }
    ensures { result.items ≡ aarq_bytes client secret.now conformance.0 size }
{
    let rest = if client.has_secret() {
        46 + secret.len() as u8
    } else {
        29
    };
    let mut text = ArrayVec::new();
    text.push(0x60);
    text.push(rest);
    append(&mut text, CONTEXT.as_slice());
    append_authentication(&mut text, client, secret);
    append(&mut text, initiate_field(conformance, size).as_slice());
    text
}

/// The association request of a client that proposes these services and receives APDUs of this size in bytes; 0 means no limit. The
/// secret, of at most 16 bytes, is not written for a client without one. Only the lower 24 bits of the services are written.
pub fn write_aarq(
    client: Client,
    secret: &[u8],
    conformance: Conformance,
    size: u16,
) -> ArrayVec<u8, 128>
    requires { length secret.now ≤ 16 }
    ensures bytes { result.items ≡ aarq_bytes client secret.now conformance.0 size }
    // It is an association request that says what was asked for.
    ensures read_again { IsAarq result.items (asked client secret.now conformance.0 size) }
{
    request_text(client, secret, conformance, size)
}

/// A response.
fn response_text(verdict: &Verdict) -> ArrayVec<u8, 128>
    ensures { result.items ≡ aare_bytes verdict.now }
{
    match *verdict {
        Verdict::Accepted { conformance, .. } => {
            let [high, middle, low] = three_bytes(conformance);
            let mut text = text_of(&[0x61, 0x29]);
            append(&mut text, CONTEXT.as_slice());
            append(&mut text, &[0xa2, 3, 2, 1, 0, 0xa3, 5, 0xa1, 3, 2, 1, 0]);
            append(
                &mut text,
                &[
                    0xbe, 0x10, 0x04, 0x0e, 0x08, 0x00, 0x06, 0x5f, 0x1f, 0x04, 0x00,
                ],
            );
            append(&mut text, &[high, middle, low, 0x04, 0x00, 0x00, 0x07]);
            text
        }
        Verdict::Refused {
            diagnostic,
            initiate,
        } => {
            let len = if initiate.is_some() { 0x1f } else { 0x17 };
            let mut text = text_of(&[0x61, len]);
            append(&mut text, CONTEXT.as_slice());
            append(
                &mut text,
                &[0xa2, 3, 2, 1, 1, 0xa3, 5, 0xa1, 3, 2, 1, diagnostic],
            );
            if let Some(error) = initiate {
                append(
                    &mut text,
                    &[0xbe, 0x06, 0x04, 0x04, 0x0e, 0x01, 0x06, error],
                );
            }
            text
        }
    }
}

/// The response to an association request. An accepting one always states that the meter receives APDUs of 1,024 bytes. Only the
/// lower 24 bits of the services are written.
pub fn write_aare(verdict: &Verdict) -> ArrayVec<u8, 128>
    ensures bytes { result.items ≡ aare_bytes verdict.now }
    // It is a response that says this verdict, an accepted one with the size 1,024.
    ensures read_again { IsAare result.items (answered verdict.now) }
{
    response_text(verdict)
}

/// A release.
pub fn write_rlrq() -> ArrayVec<u8, 128>
    ensures bytes { result.items ≡ release_request }
{
    text_of(&[0x62, 0x03, 0x80, 0x01, 0x00])
}

/// The answer to a release.
pub fn write_rlre() -> ArrayVec<u8, 128>
    ensures bytes { result.items ≡ release_response }
{
    text_of(&[0x63, 0x03, 0x80, 0x01, 0x00])
}
