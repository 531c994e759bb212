//! The kinds of keys.

/// The key that encrypts the messages of an association.
#[derive(Clone, Copy, Debug, PartialEq, Eq)]
pub enum KeyKind {
    /// The global unicast key, which lasts from one association to the next: services glo-, general-glo-ciphering.
    Global,
    /// The dedicated key, which the client sends in the initiate request and which ends with the association: services ded-,
    /// general-ded-ciphering.
    Dedicated,
}
