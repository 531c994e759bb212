//! What the meter's APDUs say.

ghost use Rattle.std.specs.Prelude.{◌≡◌, ◌≤◌, IfOk, length, MatchResult, Ok, Err, option_map};
ghost use Rattle.dlms_secured.specs.Response.{is_value, is_field, title_in, challenge_in, message_in, response_of, response_in};
ghost use Rattle.dlms_secured.specs.Response.{is_refused, is_refusal, granted_in, proof_in};

use crate::fault::SecuredFault;
use crate::fields::{inside, value_in};
use crate::messages::begins;
use crate::stage::Granted;
use dlms_acse::{AcseFault, Verdict};

/// The name of the application context with logical names and with ciphering.
const CIPHERED: [u8; 9] = [0x06, 0x07, 0x60, 0x85, 0x74, 0x05, 0x08, 0x01, 0x03];

/// The name of mechanism 5.
const MECHANISM_5: [u8; 7] = [0x60, 0x85, 0x74, 0x05, 0x08, 0x02, 0x05];

/// The result of an accepting response.
const ACCEPTED: [u8; 3] = [0x02, 0x01, 0x00];

/// An accepting association response: the meter's title, its challenge, and the protected initiate response.
#[derive(Clone, Copy)]
pub(crate) struct Response<'a> {
    pub title: [u8; 8],
    pub challenge: &'a [u8],
    pub message: &'a [u8],
}

/// Whether the field with this tag has this value.
fn is_field(tag: u8, value: &[u8], fields: &[u8]) -> bool
    ensures { result ≡ is_field tag value.now fields.now }
{
    match value_in(tag, fields) {
        Some(given) => given == value,
        None => false,
    }
}

/// Eight octets, as an array.
fn eight(octets: &[u8]) -> [u8; 8]
    requires { length octets.now ≡ 8 }
    ensures { result ≡ octets.now }
{
    let mut array = [0; 8];
    array.copy_from_slice(octets);
    array
}

/// The meter's system title.
fn title_in(fields: &[u8]) -> Option<[u8; 8]>
    ensures { result ≡ title_in fields.now }
{
    let title = inside(0xa4, 0x04, fields)?;
    if title.len() == 8 {
        Some(eight(title))
    } else {
        None
    }
}

/// The meter's challenge, of 8 to 64 octets.
fn challenge_in(fields: &[u8]) -> Option<&[u8]>
    ensures { option_map (λ x. x.now) result ≡ challenge_in fields.now }
{
    let challenge = inside(0xaa, 0x80, fields)?;
    if 7 < challenge.len() && challenge.len() < 65 {
        Some(challenge)
    } else {
        None
    }
}

/// The protected initiate response.
fn message_in(fields: &[u8]) -> Option<&[u8]>
    ensures { option_map (λ x. x.now) result ≡ message_in fields.now }
{
    inside(0xbe, 0x04, fields)
}

/// The accepting response in these fields, for a client with this title and this challenge, or the first fault.
pub(crate) fn response_in<'a>(
    own_title: &[u8; 8],
    own: &[u8],
    fields: &'a [u8],
) -> Result<Response<'a>, SecuredFault>
    ensures { MatchResult result (λ r. response_in own_title.now own.now fields.now
        ≡ Ok (response_of r.title r.challenge.now r.message.now))
        (λ f. response_in own_title.now own.now fields.now ≡ Err f) }
{
    if !is_field(0xa1, CIPHERED.as_slice(), fields) {
        return Err(SecuredFault::Context);
    }
    if !is_field(0xa2, ACCEPTED.as_slice(), fields) {
        return Err(SecuredFault::Response);
    }
    let Some(title) = title_in(fields) else {
        return Err(SecuredFault::Title);
    };
    if title == *own_title {
        return Err(SecuredFault::Title);
    }
    if !is_field(0x89, MECHANISM_5.as_slice(), fields) {
        return Err(SecuredFault::Mechanism);
    }
    let Some(challenge) = challenge_in(fields) else {
        return Err(SecuredFault::NoChallenge);
    };
    if challenge == own {
        return Err(SecuredFault::Reflected);
    }
    match message_in(fields) {
        Some(message) => Ok(Response {
            title,
            challenge,
            message,
        }),
        None => Err(SecuredFault::Initiate),
    }
}

/// Whether this is the verdict of a refusing association response.
fn is_refused(read: Result<Verdict, AcseFault>) -> bool
    ensures { result ≡ is_refused read }
{
    match read {
        Ok(Verdict::Refused { .. }) => true,
        _ => false,
    }
}

/// Whether the meter refuses the association: an exception-response, a confirmed-service-error, or a refusing association response.
pub(crate) fn is_refusal(apdu: &[u8]) -> bool
    ensures { result ≡ is_refusal apdu.now }
{
    begins(0xd8, apdu) || begins(0x0e, apdu) || is_refused(dlms_acse::read_aare(apdu))
}

/// The services and the size in an initiate response.
pub(crate) fn granted_in(apdu: &[u8]) -> Option<Granted>
    ensures { result ≡ granted_in apdu.now }
{
    match apdu {
        [
            0x08,
            0x00,
            0x06,
            0x5f,
            0x1f,
            0x04,
            0x00,
            high,
            middle,
            low,
            size_high,
            size_low,
            0x00,
            0x07,
        ] => {
            Some(Granted {
                services: [*high, *middle, *low],
                size: 256 * u16::from(*size_high) + u16::from(*size_low),
            })
        }
        _ => None,
    }
}

/// Seventeen octets, as an array.
fn seventeen(octets: &[u8]) -> [u8; 17]
    requires { length octets.now ≡ 17 }
    ensures { result ≡ octets.now }
{
    let mut array = [0; 17];
    array.copy_from_slice(octets);
    array
}

/// The meter's answer in a normal action response of success.
pub(crate) fn proof_in(apdu: &[u8]) -> Option<[u8; 17]>
    ensures { result ≡ proof_in apdu.now }
{
    match apdu {
        [0xc7, 0x01, _, 0x00, 0x01, 0x00, 0x09, 0x11, answer @ ..] if answer.len() == 17 => {
            Some(seventeen(answer))
        }
        _ => None,
    }
}
