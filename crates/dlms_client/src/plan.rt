//! The route to a meter, and the proposed terms.

ghost use Rattle.std.specs.Prelude.{◌↔◌, IsTrue};
ghost use Rattle.dlms_client.specs.Plan.{IsPlan, plan_of};

use arrayvec::ArrayVec;
use dlms_blocks::{LEAST_SIZE, MOST_SIZE};
use dlms_carrier::Route;

/// The route to a meter, and the terms that the client proposes to it.
#[derive(Drop)]
pub struct Plan {
    /// The carrier, and both addresses on it. The meter answers from its address.
    pub route: Route,
    /// The secret of low-level security; none for lowest-level security, which has no secret.
    pub secret: Option<ArrayVec<u8, 16>>,
    /// The most bytes of an APDU, either way: 64 to 1,024.
    pub size: u16,
}

impl Plan {
    /// Whether the addresses and the size are in their ranges: a client may be made from this plan.
    pub fn is_lawful(&self) -> bool
        ensures { IsTrue result ↔ IsPlan (plan_of self.now) }
    {
        LEAST_SIZE <= self.size && self.size <= MOST_SIZE && self.route.is_lawful()
    }
}
