//! Who may talk to the meter.

ghost use Rattle.std.specs.Prelude.{◌≡◌, Some, option_map, unwrap_or};
ghost use Rattle.std.specs.Str.{bytes_eq};
ghost use Rattle.dlms_acse.specs.Verdict.{request_of, verdict as verdict_of, is_secret, refused, initiate_error, first_fit, doubts, objections, accepted};

use crate::aarq::{Aarq, Initiate, Mechanism};
use crate::conformance::Conformance;
use crate::outcome::Verdict;
use arrayvec::ArrayVec;
use dlms_frame::Client;

/// The least size of an APDU that a client may take: a smaller one is no size.
pub const LEAST_SIZE: u16 = 64;

/// The greatest size of an APDU that the meter takes and gives.
pub const MOST_SIZE: u16 = 1024;

// Whether two secrets are equal. Every byte is compared, whatever the earlier comparisons gave, so that the time does not show
// where the secrets differ: keep this form, which no contract can require.
fn is_same(one: &[u8], other: &[u8]) -> bool
    ensures { result ≡ bytes_eq one.now other.now }
{
    if one.len() != other.len() {
        return false;
    }
    let mut same = true;
    for (i, byte) in one.iter().enumerate() {
        same &= *byte == other[i];
    }
    same
}

/// Whether this is the secret, whole.
fn is_right(given: &Option<ArrayVec<u8, 16>>, secret: &[u8]) -> bool
    ensures { result ≡ is_secret secret.now (option_map (λ s. s.items) given.now) }
{
    match given {
        None => false,
        Some(given) => is_same(given.as_slice(), secret),
    }
}

/// A refusal whose cause is not the services.
fn refusal(diagnostic: u8) -> Verdict
    ensures { result ≡ refused diagnostic }
{
    Verdict::Refused {
        diagnostic,
        initiate: None,
    }
}

/// A refusal whose cause is the services.
fn initiate_error(error: u8) -> Verdict
    ensures { result ≡ initiate_error error }
{
    Verdict::Refused {
        diagnostic: 1,
        initiate: Some(error),
    }
}

/// The refusal of a client that may not be who it says.
fn doubt(aarq: &Aarq, client: Client, secret: &[u8]) -> Option<Verdict>
    ensures { result ≡ first_fit (doubts (request_of aarq.now) client secret.now) }
{
    match (client.has_secret(), aarq.mechanism) {
        (false, Mechanism::Absent | Mechanism::Lowest) => None,
        (false, _) => Some(refusal(11)),
        (true, Mechanism::Absent | Mechanism::Lowest) => Some(refusal(14)),
        (true, Mechanism::Other) => Some(refusal(11)),
        (true, Mechanism::Low) => {
            if is_right(&aarq.secret, secret) {
                None
            } else {
                Some(refusal(13))
            }
        }
    }
}

/// The verdict on the proposed services.
fn services(initiate: Initiate) -> Verdict
    ensures { result ≡ unwrap_or (first_fit (objections (Some initiate)))
        (accepted (Some initiate)) }
{
    let agreed = initiate.conformance.0 & Conformance::OFFERED.0;
    if initiate.version < 6 {
        initiate_error(1)
    } else if agreed & Conformance::GET.0 == 0 {
        initiate_error(2)
    } else if 0 < initiate.size && initiate.size < LEAST_SIZE {
        initiate_error(3)
    } else {
        Verdict::Accepted {
            conformance: Conformance(agreed),
            size: if initiate.size == 0 {
                MOST_SIZE
            } else {
                initiate.size.min(MOST_SIZE)
            },
        }
    }
}

/// The meter's answer to this request of this client, whose secret at the meter is the one given: the first of these cases that
/// applies. For a client without a secret the given one is ignored.
///
/// | Case | Diagnostic | Initiate error |
/// |---|---|---|
/// | no or another application context | 2 | |
/// | a client without a secret, with a mechanism that is not the lowest | 11 | |
/// | a client with a secret, with no mechanism or the lowest | 14 | |
/// | a client with a secret, with a mechanism that is not low-level | 11 | |
/// | a client with a secret, which gives none or another | 13 | |
/// | no initiate request that can be read | 1 | |
/// | a version below 6 | 1 | 1 |
/// | the services of both ends have no get | 1 | 2 |
/// | a size of 1 to 63 | 1 | 3 |
pub fn verdict(aarq: &Aarq, client: Client, secret: &[u8]) -> Verdict
    ensures { result ≡ verdict_of (request_of aarq.now) client secret.now }
{
    if !aarq.context {
        return refusal(2);
    }
    if let Some(refusal) = doubt(aarq, client, secret) {
        return refusal;
    }
    match aarq.initiate {
        None => refusal(1),
        Some(initiate) => services(initiate),
    }
}
