//! What an association needs after a restart.

/// The part of an association's state that non-volatile memory holds. A new key starts with `reserved` 0 and no counter in
/// `accepted`.
#[derive(Clone, Copy, Debug, PartialEq, Eq)]
pub struct StoredState {
    /// The end of the reservation: every own counter below it may have been used. It must not be below the number of the last
    /// call of [`crate::Security::extend_reservation`].
    pub reserved: u32,
    /// The peer's system title, if it is known. It must differ from the own one.
    pub peer: Option<[u8; 8]>,
    /// The last accepted counter of the peer, if a message was accepted. If it is older, messages since then can be replayed.
    pub accepted: Option<u32>,
}
