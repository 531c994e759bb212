//! The answers to the association request and to the release.

ghost use Rattle.std.specs.Prelude.{◌≡◌, true, false, MatchResult};
ghost use Rattle.dlms_headend.specs.Poll.{is_exception, is_release, other_fault, Accepts, Denies};

use crate::poll_fault::PollFault;
use dlms_acse::{Verdict, read_aare};

/// The result that represents an exception.
pub const EXCEPTION: u8 = 250;

/// Whether an APDU is an exception.
fn is_exception(apdu: &[u8]) -> bool
    ensures { result ≡ is_exception apdu.now }
{
    match apdu {
        [tag, _, _] => *tag == 0xd8,
        _ => false,
    }
}

/// The fault for an APDU of another form than the awaited one.
fn other_fault(apdu: &[u8]) -> PollFault
    ensures { result ≡ other_fault apdu.now }
{
    if is_exception(apdu) {
        PollFault::Result(EXCEPTION)
    } else {
        PollFault::Protocol
    }
}

/// The answer to the association request.
pub fn read_association(apdu: &[u8]) -> Result<(), PollFault>
    ensures { MatchResult result (λ _. Accepts apdu.now) (Denies apdu.now) }
{
    match read_aare(apdu) {
        Ok(Verdict::Accepted { .. }) => Ok(()),
        Ok(Verdict::Refused { diagnostic, .. }) => Err(PollFault::Refused(diagnostic)),
        Err(_) => Err(other_fault(apdu)),
    }
}

/// Whether an APDU is the answer to the release.
pub fn is_release(apdu: &[u8]) -> bool
    ensures { result ≡ is_release apdu.now }
{
    match apdu {
        [0x63, ..] => true,
        _ => false,
    }
}

/// The answer to the release.
pub fn read_release(apdu: &[u8]) -> Result<(), PollFault>
    ensures { MatchResult result (λ _. is_release apdu.now ≡ true)
        (λ fault. (is_release apdu.now ≡ false) × (fault ≡ other_fault apdu.now)) }
{
    match apdu {
        [0x63, ..] => Ok(()),
        _ => Err(other_fault(apdu)),
    }
}
