//! The meter's last answer, kept for repetition.

use dlms_frame::SentFrame;

/// The last answer that was given to an I frame or RR.
#[derive(Drop)]
pub enum Answer {
    /// None since the link came up.
    NoAnswer,
    /// A receive-ready.
    WasReady(SentFrame),
    /// A segment of an answer.
    WasInformation(SentFrame),
}
