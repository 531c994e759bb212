//! What becomes of an association request.

use crate::conformance::Conformance;

/// The meter's answer to an association request.
#[derive(Clone, Copy, PartialEq, Eq, Debug)]
pub enum Verdict {
    /// The association is open.
    Accepted {
        /// The services that both ends have.
        conformance: Conformance,
        /// The size in bytes of the largest APDU.
        size: u16,
    },
    /// The association is refused.
    Refused {
        /// Why, as a diagnostic of the service user.
        diagnostic: u8,
        /// Why, as an initiate error, if the services are the cause.
        initiate: Option<u8>,
    },
}
