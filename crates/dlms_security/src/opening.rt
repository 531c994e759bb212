//! Ciphered APDUs of a log, opened under keys that the reader has. No state is followed: a log is read after the event.
ghost use Rattle.std.specs.Prelude.{◌≡◌, MatchResult, Ok, Err};
ghost use Rattle.dlms_cipher.specs.Keys.{encryption_key, authentication_key};
ghost use Rattle.dlms_security.specs.Opening.{policy_at, header_in, opening, opening_by};

use crate::body::open_body;
use crate::fault::UnprotectFault;
use crate::form::{Head, MOST_APDU, is_of, kind_of, parts};
use crate::kind::KeyKind;
use crate::policy::Policy;
use crate::security::is_from;
use arrayvec::ArrayVec;
use dlms_cipher::Keys;

/// What a ciphered APDU says without its keys.
#[derive(Clone, Copy, Debug, PartialEq, Eq)]
pub struct Header {
    /// The kind of its encryption key.
    pub kind: KeyKind,
    /// The sender's system title, which only the general forms contain.
    pub title: Option<[u8; 8]>,
    /// The protection that its control byte states, if that is one of the three of suite 0 under the unicast key.
    pub policy: Option<Policy>,
    /// The invocation counter.
    pub counter: u32,
}

/// The policy that a security control byte states.
fn policy_at(control: u8) -> Option<Policy>
    ensures { result ≡ policy_at control }
{
    match control {
        0x10 => Some(Policy::Authenticated),
        0x20 => Some(Policy::Encrypted),
        0x30 => Some(Policy::AuthenticatedEncrypted),
        _ => None,
    }
}

/// Returns what a ciphered APDU says without its keys (Green Book 9.2.7.2); `None` if it is not one, is cut off, or has a wrong
/// length.
pub fn header_of(message: &[u8]) -> Option<Header>
    ensures { result ≡ header_in message.now }
{
    let kind = kind_of(message)?;
    match parts(message) {
        Ok((head, _)) => Some(Header {
            kind,
            title: head.title,
            policy: policy_at(head.control),
            counter: head.counter,
        }),
        Err(_) => None,
    }
}

/// The APDU in a message with this header and body, under this kind of key.
fn open_parts(
    kind: KeyKind,
    keys: &Keys,
    title: &[u8; 8],
    head: Head,
    body: &[u8],
) -> Result<ArrayVec<u8, MOST_APDU>, UnprotectFault>
    ensures { let by = opening_by (encryption_key keys.now) (authentication_key keys.now) title.now kind (policy_at head.control) head body.now in
        MatchResult result (λ apdu. by ≡ Ok apdu.items) (λ f. by ≡ Err f) }
{
    let Some(policy) = policy_at(head.control) else {
        return Err(UnprotectFault::AnotherControl);
    };
    if !is_from(head.title, title) {
        return Err(UnprotectFault::AnotherTitle);
    }
    let apdu = open_body(policy, keys, title, head.counter, body)?;
    if is_of(kind, head.tag, apdu.as_slice()) {
        Ok(apdu)
    } else {
        Err(UnprotectFault::AnotherService)
    }
}

/// Returns the APDU in a message of the sender with this system title, under the policy that the message itself states. `keys` has
/// the encryption key of the message's kind. Under [`Policy::Encrypted`] nothing authenticates the result: wrong keys and titles give
/// octets as right ones do, which `AnotherService` refuses in most messages of a service's own form.
///
/// Old and repeated messages are opened too. Errors, in this order: `NotProtected`, `Short` (of the header), `AnotherControl`,
/// `AnotherTitle`, `Short` (of the tag), `Long`, `WrongTag`, `AnotherService`.
pub fn open_message(
    keys: &Keys,
    title: &[u8; 8],
    message: &[u8],
) -> Result<ArrayVec<u8, MOST_APDU>, UnprotectFault>
    ensures { let opens = opening (encryption_key keys.now) (authentication_key keys.now) title.now message.now in
        MatchResult result (λ apdu. opens ≡ Ok apdu.items) (λ f. opens ≡ Err f) }
{
    let (head, body) = parts(message)?;
    match kind_of(message) {
        Some(kind) => open_parts(kind, keys, title, head, body),
        None => Err(UnprotectFault::NotProtected),
    }
}
