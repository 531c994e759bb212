//! The stages of a secured association.

use crate::fault::SecuredFault;

/// What the meter grants in its initiate response: the services, and the size in octets of the largest APDU that it receives; 0 is
/// no limit.
#[derive(Clone, Copy, Debug, PartialEq, Eq)]
pub struct Granted {
    /// The conformance block (IEC 62056-5-3), its first octet first.
    pub services: [u8; 3],
    /// The size.
    pub size: u16,
}

/// The stage of a secured association.
#[derive(Clone, Copy, Debug, PartialEq, Eq)]
pub enum Stage {
    /// There is no association.
    Closed,
    /// The association request is out.
    Opening,
    /// The answer to the meter's challenge is out, and the meter's answer is awaited. The meter granted this.
    Proving(Granted),
    /// The association is open: both ends have proved their keys.
    Open,
    /// The association is over for this cause.
    Failed(SecuredFault),
}
