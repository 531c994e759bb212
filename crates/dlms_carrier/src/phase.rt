//! The phases of a connection without a link of its own.

/// The phase of a connection over TCP.
#[derive(Clone, Copy, Debug, PartialEq, Eq)]
pub enum Phase {
    /// There is no connection.
    Down,
    /// The connection is up, and no answer is awaited.
    Idle,
    /// An APDU went out, and its answer is awaited.
    Waiting,
}
