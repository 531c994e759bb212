//! The content of a client's association request.

use crate::conformance::Conformance;
use arrayvec::ArrayVec;

/// How the client proposes to show who it is (the mechanism name of IEC 62056-5-3).
#[derive(Clone, Copy, PartialEq, Eq, Debug)]
pub enum Mechanism {
    /// Nothing is proposed.
    Absent,
    /// Lowest-level security, which has no secret.
    Lowest,
    /// Low-level security, by a secret.
    Low,
    /// Any other name.
    Other,
}

/// The initiate request: what the client proposes for the services.
#[derive(Clone, Copy, PartialEq, Eq, Debug)]
pub struct Initiate {
    /// The version of DLMS.
    pub version: u8,
    /// The proposed services.
    pub conformance: Conformance,
    /// The largest APDU in bytes that the client receives; 0 says that there is no limit.
    pub size: u16,
}

/// An association request.
#[derive(Drop)]
pub struct Aarq {
    /// Whether the application context is the one with logical names and without ciphering.
    pub context: bool,
    /// The mechanism.
    pub mechanism: Mechanism,
    /// The secret; none if it is absent, unreadable or longer.
    pub secret: Option<ArrayVec<u8, 16>>,
    /// The initiate request; none if it is absent or unreadable.
    pub initiate: Option<Initiate>,
}
