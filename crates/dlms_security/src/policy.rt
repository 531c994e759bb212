//! The security policy.
ghost use Rattle.std.specs.Prelude.{◌≡◌};
ghost use Rattle.dlms_security.specs.Body.{control_of};

/// The protection of every message of an association, in both directions.
#[derive(Clone, Copy, Debug, PartialEq, Eq)]
pub enum Policy {
    /// Control byte 0x10: the APDU is readable, and a tag of 12 bytes follows it.
    Authenticated,
    /// Control byte 0x20: the APDU is encrypted, but nothing authenticates it. An attacker can change it, and can raise the
    /// last accepted counter so that the peer's messages are refused.
    Encrypted,
    /// Control byte 0x30: the APDU is encrypted, and a tag of 12 bytes follows it.
    AuthenticatedEncrypted,
}

impl Policy {
    /// The security control byte under suite 0, with the unicast key and without compression (Green Book 9.2.7.2).
    pub fn control(self) -> u8
        ensures { result ≡ control_of self }
    {
        match self {
            Policy::Authenticated => 0x10,
            Policy::Encrypted => 0x20,
            Policy::AuthenticatedEncrypted => 0x30,
        }
    }
}
