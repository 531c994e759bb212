//! What brings the APDUs of a connection.

/// The carrier of a connection's APDUs.
#[derive(Clone, Copy, PartialEq, Eq)]
pub enum Carrier {
    /// HDLC frames (IEC 62056-46).
    Hdlc,
    /// Messages of the wrapper (IEC 62056-47). One for another port than the meter's, or from the port of no client, is dropped.
    Wrapper,
}
