//! An open association.

ghost use Rattle.std.specs.Prelude.{◌≡◌};
ghost use Rattle.dlms_service.specs.Session.{has};

use dlms_acse::Conformance;

/// An open association: the services that both ends have, and the size in bytes of the largest APDU that the client takes
/// (64 to 1,024).
#[derive(Clone, Copy, Debug, PartialEq, Eq)]
pub struct Association {
    pub conformance: Conformance,
    pub size: u16,
}

impl Association {
    /// Whether both ends have the service of this bit.
    pub fn has(self, service: Conformance) -> bool
        ensures { result ≡ has self service.0 }
    {
        self.conformance.0 & service.0 != 0
    }
}
