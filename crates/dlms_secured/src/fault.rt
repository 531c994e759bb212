//! Why a secured association is over.

use dlms_security::{ProtectFault, UnprotectFault};
use thiserror::Error;

/// Why a secured association is over. If several causes apply to one APDU, the first in this order is reported.
#[derive(Clone, Copy, Debug, PartialEq, Eq, Error)]
pub enum SecuredFault {
    /// The challenge belongs to an earlier association: call `renew` before the next one.
    #[error("the challenge was used before")]
    Challenge,
    /// Before the association is open, the only APDU that goes out is an association request with an initiate request.
    #[error("no association request")]
    Request,
    /// An APDU was given while the association was being opened, or arrived before it was requested.
    #[error("an APDU out of turn")]
    Order,
    /// The APDU cannot be protected.
    #[error("the APDU cannot be protected")]
    Protect(ProtectFault),
    /// An APDU has more octets than the carrier takes, or the meter receives too few.
    #[error("an APDU is too long, or the meter receives too few octets")]
    Size,
    /// The association response cannot be read.
    #[error("the association response cannot be read")]
    Response,
    /// The association response names another application context than logical names with ciphering.
    #[error("another application context")]
    Context,
    /// The association response has no system title of 8 octets, the own one, or another one than the known peer's.
    #[error("no system title, or another one")]
    Title,
    /// The association response names another mechanism than 5.
    #[error("another authentication mechanism")]
    Mechanism,
    /// The association response has no challenge of 8 to 64 octets; or under `Policy::Authenticated` its challenge begins as a request,
    /// and the answer would be a tag of that request.
    #[error("no challenge of the meter")]
    NoChallenge,
    /// The meter's challenge is the own one.
    #[error("the own challenge came back")]
    Reflected,
    /// The association response has no initiate response that can be read.
    #[error("no initiate response")]
    Initiate,
    /// An APDU came without protection.
    #[error("an APDU came without protection")]
    InClear,
    /// A protected message is refused for this cause.
    #[error("a protected message is refused")]
    Message(UnprotectFault),
    /// The meter's answer to the own challenge is missing or wrong.
    #[error("the meter did not prove its key")]
    NotProved,
}
