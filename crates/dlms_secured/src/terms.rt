//! What both ends of an association agreed on.

use dlms_security::{Form, Policy};

/// What both ends of an association agreed on. It has no `Debug` form, so that no key is printed by mistake.
#[derive(Clone, Copy)]
pub struct Terms {
    /// The client's system title.
    pub title: [u8; 8],
    /// The global unicast encryption key.
    pub encryption_key: [u8; 16],
    /// The authentication key.
    pub authentication_key: [u8; 16],
    /// The protection of every message.
    pub policy: Policy,
    /// The ciphered form of messages.
    pub form: Form,
}
