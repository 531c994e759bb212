//! An association request without its secret.

ghost use Rattle.std.specs.Prelude.{◌≡◌};
ghost use Rattle.dlms_acse.specs.Verdict.{request_of};
ghost use Rattle.dlms_dissect.specs.Association.{told_of};

use dlms_acse::{Aarq, Initiate, Mechanism};

/// The reported content of an association request: everything except its secret, of which it only states whether there is one.
#[derive(Clone, Copy)]
pub struct Association {
    /// Whether the application context is the one with logical names and without ciphering.
    pub context: bool,
    /// The mechanism.
    pub mechanism: Mechanism,
    /// Whether there is a secret that is readable.
    pub has_secret: bool,
    /// The initiate request; none if it is absent or unreadable.
    pub initiate: Option<Initiate>,
}

/// The reported content of a request. Two requests that differ only in their secrets have the same report
/// (`laws::secrets_are_told_alike`).
pub fn without_secret(request: &Aarq) -> Association
    ensures { result ≡ told_of (request_of request.now) }
{
    Association {
        context: request.context,
        mechanism: request.mechanism,
        has_secret: request.secret.is_some(),
        initiate: request.initiate,
    }
}
