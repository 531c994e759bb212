//! The outcome of a call of a carrier.

use dlms_wrapper::HeaderFault;

/// The outcome of a call of a carrier.
#[derive(Clone, Copy, Debug, PartialEq, Eq)]
pub enum Event {
    /// Nothing for the association.
    Nothing,
    /// The connection is up: an APDU may be given.
    Up,
    /// The awaited APDU of the meter arrived: `apdu` returns it, and another may be given.
    Apdu,
    /// The connection is down.
    Down,
    /// The meter did not answer in time, and the connection is over.
    TimedOut,
    /// The wrapper refuses the header of the next message for this cause, and the connection is over.
    Refused(HeaderFault),
    /// The security layer refuses an APDU that came or one that was to be sent, and the connection is over.
    Insecure,
}

/// The number of octets that a call of `feed` read, and its outcome.
#[derive(Clone, Copy, Debug, PartialEq, Eq)]
pub struct Fed {
    /// The number of octets that were read; pass the others to the next call.
    pub count: usize,
    /// The outcome.
    pub event: Event,
}
