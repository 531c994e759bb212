//! What becomes of an APDU that arrives.

use crate::made::Message;

/// What becomes of an APDU that arrives.
#[derive(Drop)]
pub(crate) enum Taken {
    /// An APDU is handed up.
    Hand,
    /// This message goes out.
    Send(Message),
}
