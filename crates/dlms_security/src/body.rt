//! The protected bodies of messages: written, and opened again.
ghost use Rattle.std.specs.Prelude.{◌≡◌, ◌≤◌, length, MatchResult, Ok, Err};
ghost use Rattle.dlms_security.specs.declared.form.TheConstants.{MOST_APDU};
ghost use Rattle.dlms_security.specs.Keyed.{use_of};
ghost use Rattle.dlms_security.specs.Body.{body_of, open_body, signed_apdu, sealed_apdu, encrypted_apdu, tag_in};

use crate::fault::UnprotectFault;
use crate::form::MOST_APDU;
use crate::policy::Policy;
use arrayvec::ArrayVec;
use dlms_cipher::Keys;

/// The bytes of a tag.
const TAG: usize = 12;

/// The most bytes of a protected body: an APDU and a tag.
pub const MOST_BODY: usize = 1036;

/// A vector of these bytes, which fit into it.
fn copy_of<const CAP: usize>(bytes: &[u8]) -> ArrayVec<u8, CAP>
    requires { length bytes.now ≤ CAP }
    ensures { result.items ≡ bytes.now }
{
    let mut copy = ArrayVec::new();
    let _fits = copy.try_extend_from_slice(bytes);
    copy
}

/// The tag in a body: its last twelve bytes.
fn tag_in(body: &[u8]) -> [u8; 12]
    requires { 12 ≤ length body.now }
    ensures { result ≡ tag_in body.now }
{
    let mut tag = [0; 12];
    tag.copy_from_slice(&body[body.len() - TAG..]);
    tag
}

/// The APDU of a text that is authenticated only, if the tag is its tag.
fn signed_apdu(
    keys: &Keys,
    title: &[u8; 8],
    counter: u32,
    text: &[u8],
    tag: &[u8; 12],
) -> Result<ArrayVec<u8, MOST_APDU>, UnprotectFault>
    ensures { let u = use_of keys.now title.now counter in
        MatchResult result (λ apdu. signed_apdu u text.now tag.now ≡ Ok apdu.items) (λ f. signed_apdu u text.now tag.now ≡ Err f) }
{
    if MOST_APDU < text.len() {
        return Err(UnprotectFault::Long);
    }
    if keys.is_signed(title, counter, text, tag) {
        Ok(copy_of(text))
    } else {
        Err(UnprotectFault::WrongTag)
    }
}

/// The APDU of an authenticated ciphertext, if the tag is its tag.
fn sealed_apdu(
    keys: &Keys,
    title: &[u8; 8],
    counter: u32,
    text: &[u8],
    tag: &[u8; 12],
) -> Result<ArrayVec<u8, MOST_APDU>, UnprotectFault>
    ensures { let u = use_of keys.now title.now counter in
        MatchResult result (λ apdu. sealed_apdu u text.now tag.now ≡ Ok apdu.items) (λ f. sealed_apdu u text.now tag.now ≡ Err f) }
{
    if MOST_APDU < text.len() {
        return Err(UnprotectFault::Long);
    }
    let mut apdu = copy_of(text);
    match keys.open(title, counter, apdu.as_mut_slice(), tag) {
        Ok(()) => Ok(apdu),
        Err(_) => Err(UnprotectFault::WrongTag),
    }
}

/// The APDU of a ciphertext that nothing authenticates.
fn encrypted_apdu(
    keys: &Keys,
    title: &[u8; 8],
    counter: u32,
    text: &[u8],
) -> Result<ArrayVec<u8, MOST_APDU>, UnprotectFault>
    ensures { let u = use_of keys.now title.now counter in
        MatchResult result (λ apdu. encrypted_apdu u text.now ≡ Ok apdu.items) (λ f. encrypted_apdu u text.now ≡ Err f) }
{
    if MOST_APDU < text.len() {
        return Err(UnprotectFault::Long);
    }
    let mut apdu = copy_of(text);
    keys.cipher(title, counter, apdu.as_mut_slice());
    Ok(apdu)
}

/// The APDU of a body. If the policy has a tag, it is checked before anything is decrypted.
pub fn open_body(
    policy: Policy,
    keys: &Keys,
    title: &[u8; 8],
    counter: u32,
    body: &[u8],
) -> Result<ArrayVec<u8, MOST_APDU>, UnprotectFault>
    ensures { let u = use_of keys.now title.now counter in
        MatchResult result (λ apdu. open_body policy u body.now ≡ Ok apdu.items) (λ f. open_body policy u body.now ≡ Err f) }
{
    match policy {
        Policy::Authenticated => {
            if body.len() < TAG {
                return Err(UnprotectFault::Short);
            }
            let text = &body[..body.len() - TAG];
            signed_apdu(keys, title, counter, text, &tag_in(body))
        }
        Policy::Encrypted => encrypted_apdu(keys, title, counter, body),
        Policy::AuthenticatedEncrypted => {
            if body.len() < TAG {
                return Err(UnprotectFault::Short);
            }
            let text = &body[..body.len() - TAG];
            sealed_apdu(keys, title, counter, text, &tag_in(body))
        }
    }
}

/// The protected body of an APDU.
pub fn body_of(
    policy: Policy,
    keys: &Keys,
    title: &[u8; 8],
    counter: u32,
    apdu: &[u8],
) -> ArrayVec<u8, MOST_BODY>
    requires { length apdu.now ≤ MOST_APDU }
    ensures { result.items ≡ body_of policy (use_of keys.now title.now counter) apdu.now }
{
    let mut body = copy_of(apdu);
    match policy {
        Policy::Authenticated => {
            let tag = keys.sign(title, counter, apdu);
            let _fits = body.try_extend_from_slice(&tag);
        }
        Policy::Encrypted => keys.cipher(title, counter, body.as_mut_slice()),
        Policy::AuthenticatedEncrypted => {
            let tag = keys.seal(title, counter, body.as_mut_slice());
            let _fits = body.try_extend_from_slice(&tag);
        }
    }
    body
}
