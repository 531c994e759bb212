//! The APDU that is due at each stage of a poll, whatever carries it.

ghost use Rattle.std.specs.Prelude.{◌≡◌, ◌≤◌, IfSome, MatchOption, length, option_map};
ghost use Rattle.dlms_headend.specs.Asking.{AreSeconds};
ghost use Rattle.dlms_headend.specs.Due.{IsDueAt, IsNextGet, association_with};
ghost use Rattle.dlms_headend.specs.declared.stage.Stage.TheVariants.{Leaving};

use crate::asking::{Request, buffer_request, columns_request, next_request};
use crate::stage::Stage;
use dlms_acse::{Conformance, write_aarq, write_rlrq};
use dlms_frame::Client;

/// The services that are proposed.
const PROPOSED: Conformance = Conformance(0x007e1f);

/// The size in bytes of the largest APDU that a poll receives.
const SIZE: u16 = 1200;

/// The association request with this secret of low-level security, or without one at lowest-level security.
pub fn association(secret: Option<&[u8]>) -> Request
    requires { IfSome secret (λ secret. length secret.now ≤ 16) }
    ensures bytes { result.items ≡ association_with
        (option_map (λ secret. secret.now) secret.entry) }
    ensures short { length result.items ≤ 128 }
{
    match secret {
        None => write_aarq(Client::Public, &[], PROPOSED, SIZE),
        Some(secret) => write_aarq(Client::Management, secret, PROPOSED, SIZE),
    }
}

/// The GET of the buffer, or of its next block after this many. It takes no memory.
fn next_get(after: Option<u32>, until: Option<u32>, taken: u32) -> Request
    requires { AreSeconds after until }
    ensures asks { IsNextGet after until taken result.items }
    ensures short { length result.items ≤ 128 }
{
    if taken == 0 {
        buffer_request(after, until)
    } else {
        next_request(taken)
    }
}

/// The APDU that is due at a stage, or none once the release was answered. It takes no memory.
pub fn due_apdu(
    secret: Option<&[u8]>,
    after: Option<u32>,
    until: Option<u32>,
    stage: Stage,
) -> Option<Request>
    requires secret { IfSome secret (λ secret. length secret.now ≤ 16) }
    requires seconds { AreSeconds after until }
    ensures due { MatchOption result (stage ≡ Leaving) (λ request.
        IsDueAt (association_with (option_map (λ secret. secret.now) secret.entry))
        after until stage request.items) }
    ensures short { IfSome result (λ request. length request.items ≤ 128) }
{
    match stage {
        Stage::Associating => Some(association(secret)),
        Stage::Naming | Stage::Checking => Some(columns_request()),
        Stage::Getting(taken) => Some(next_get(after, until, taken)),
        Stage::Releasing => Some(write_rlrq()),
        Stage::Leaving => None,
    }
}
