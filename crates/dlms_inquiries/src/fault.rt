//! Why the requests to a meter ended early.

use dlms_client::Fault;
use dlms_secured::SecuredFault;

/// Why the requests to a meter ended early.
#[derive(Clone, Copy, PartialEq, Eq)]
pub enum InquiryFault {
    /// The association is over.
    Talk(Fault),
    /// The security layer ended the association for this cause.
    Insecure(SecuredFault),
    /// A request is longer than the meter takes.
    TooLong,
    /// Out of memory.
    Memory,
}
