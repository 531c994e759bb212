//! Reading an association request.

ghost use Rattle.std.specs.Prelude.{◌≡◌, option_map, IfOk, IsOkAnd};
ghost use Rattle.dlms_acse.specs.Verdict.{Request, request_of};
ghost use Rattle.dlms_acse.specs.Spelling.{IsAarq};
ghost use Rattle.dlms_acse.specs.Reading.{Tells, on_some, inner_at, is_context, mechanism_of, secret_at, key_at, option_at, block_at, proposal_at, request_at, initiate_at, aarq_at};

use crate::aarq::{Aarq, Initiate, Mechanism};
use crate::conformance::Conformance;
use crate::fault::AcseFault;
use crate::fields::{body, find, take_content};
use arrayvec::ArrayVec;

/// The name of the application context with logical names and without ciphering.
const LOGICAL_NAMES: [u8; 9] = [0x06, 0x07, 0x60, 0x85, 0x74, 0x05, 0x08, 0x01, 0x01];

/// The name of lowest-level security.
const LOWEST: [u8; 7] = [0x60, 0x85, 0x74, 0x05, 0x08, 0x02, 0x00];

/// The name of low-level security.
const LOW: [u8; 7] = [0x60, 0x85, 0x74, 0x05, 0x08, 0x02, 0x01];

/// The value of the one field that these bytes are.
#[tactic(auto, unfolding(crate::specs::Reading::inner_at))]
pub(crate) fn inner(bytes: &[u8], tag: u8) -> Option<&[u8]>
    ensures { option_map (λ x. x.now) result ≡ inner_at tag bytes.now }
{
    match bytes {
        [first, rest @ ..] if *first == tag => {
            let (value, behind) = take_content(rest, 2).ok()?;
            if behind.is_empty() { Some(value) } else { None }
        }
        _ => None,
    }
}

/// Whether this is the context with logical names.
fn has_context(name: Option<&[u8]>) -> bool
    ensures { result ≡ is_context (option_map (λ x. x.now) name.entry) }
{
    match name {
        None => false,
        Some(name) => name == LOGICAL_NAMES.as_slice(),
    }
}

/// The mechanism of this name.
fn mechanism_of(name: Option<&[u8]>) -> Mechanism
    ensures { result ≡ mechanism_of (option_map (λ x. x.now) name.entry) }
{
    match name {
        None => Mechanism::Absent,
        Some(name) => {
            if name == LOWEST.as_slice() {
                Mechanism::Lowest
            } else if name == LOW.as_slice() {
                Mechanism::Low
            } else {
                Mechanism::Other
            }
        }
    }
}

/// The secret in its field.
#[tactic(auto, unfolding(crate::specs::Reading::secret_at))]
fn secret_of(value: &[u8]) -> Option<ArrayVec<u8, 16>>
    ensures { option_map (λ s. s.items) result ≡ secret_at value.now }
{
    let bytes = inner(value, 0x80)?;
    let mut secret = ArrayVec::new();
    match secret.try_extend_from_slice(bytes) {
        Ok(()) => Some(secret),
        Err(_) => None,
    }
}

/// The bytes after a dedicated key.
#[tactic(auto, unfolding(crate::specs::Reading::key_at))]
fn after_key(bytes: &[u8]) -> Option<&[u8]>
    ensures { option_map (λ x. x.now) result ≡ key_at bytes.now }
{
    match bytes {
        [0, rest @ ..] => Some(rest),
        [1, rest @ ..] => {
            let (_, behind) = take_content(rest, 4).ok()?;
            Some(behind)
        }
        _ => None,
    }
}

/// The bytes after an option of one byte.
#[tactic(auto, unfolding(crate::specs::Reading::option_at))]
fn after_option(bytes: &[u8]) -> Option<&[u8]>
    ensures { option_map (λ x. x.now) result ≡ option_at bytes.now }
{
    match bytes {
        [0, rest @ ..] => Some(rest),
        [1, _, rest @ ..] => Some(rest),
        _ => None,
    }
}

/// The conformance bits and the size, after a version.
#[tactic(auto, unfolding(crate::specs::Reading::block_at))]
fn block(version: u8, bytes: &[u8]) -> Option<Initiate>
    ensures { result ≡ block_at version bytes.now }
{
    match bytes {
        [high, middle, low, size_high, size_low] => Some(Initiate {
            version,
            conformance: Conformance(
                65536 * u32::from(*high) + 256 * u32::from(*middle) + u32::from(*low),
            ),
            size: 256 * u16::from(*size_high) + u16::from(*size_low),
        }),
        _ => None,
    }
}

/// The version, the conformance block and the size.
#[tactic(auto, unfolding(crate::specs::Reading::proposal_at, crate::specs::Reading::block_at))]
fn proposal(bytes: &[u8]) -> Option<Initiate>
    ensures { result ≡ proposal_at bytes.now }
{
    match bytes {
        [version, 0x5f, 0x1f, 0x04, 0x00, rest @ ..] => block(*version, rest),
        [version, 0x5f, 0x04, 0x00, rest @ ..] => block(*version, rest),
        _ => None,
    }
}

/// An initiate request.
#[tactic(auto, unfolding(crate::specs::Reading::request_at))]
fn request(bytes: &[u8]) -> Option<Initiate>
    ensures { result ≡ request_at bytes.now }
{
    match bytes {
        [1, rest @ ..] => {
            let rest = after_key(rest)?;
            let rest = after_option(rest)?;
            let rest = after_option(rest)?;
            proposal(rest)
        }
        _ => None,
    }
}

/// The initiate request in its field.
#[tactic(auto, unfolding(crate::specs::Reading::initiate_at))]
fn initiate_of(value: &[u8]) -> Option<Initiate>
    ensures { result ≡ initiate_at value.now }
{
    let bytes = inner(value, 0x04)?;
    request(bytes)
}

/// The content of an association request.
fn said(bytes: &[u8]) -> Result<Aarq, AcseFault>
    ensures { Tells (λ a. request_of a) result (aarq_at bytes.now) }
{
    let fields = body(bytes, 0x60)?;
    let secret = match find(fields, 0xac) {
        None => None,
        Some(value) => secret_of(value),
    };
    let initiate = match find(fields, 0xbe) {
        None => None,
        Some(value) => initiate_of(value),
    };
    Ok(Aarq {
        context: has_context(find(fields, 0xa1)),
        mechanism: mechanism_of(find(fields, 0x8b)),
        secret,
        initiate,
    })
}

/// Reads an association request. The fields are in any order, each tag at most once, and unknown ones are skipped. Unreadable
/// content of a field is no fault: the field then has no value.
pub fn read_aarq(bytes: &[u8]) -> Result<Aarq, AcseFault>
    // The bytes are an association request that says this.
    ensures found { IfOk result (λ a. IsAarq bytes.now (request_of a)) }
    // The content of an association request is the result.
    ensures only { (r : Request) → IsAarq bytes.now r → IsOkAnd result (λ a. request_of a ≡ r) }
    // Which fault it is.
    ensures exact { Tells (λ a. request_of a) result (aarq_at bytes.now) }
{
    said(bytes)
}
