//! The outcome of a frame.

use crate::poll_fault::PollFault;
use dlms_frame::SentFrame;

/// How a poll handled a frame.
#[derive(Drop)]
pub enum PollStep {
    /// Nothing is to be done.
    Nothing,
    /// This frame goes out.
    Send(SentFrame),
    /// The poll is done: the rows are there, and the link is down.
    Done,
}

/// The outcome of a call of a poll over a carrier.
#[derive(Clone, Copy, Debug, PartialEq, Eq)]
pub enum PollOutcome {
    /// Nothing for the caller.
    Nothing,
    /// The poll is done: the rows are there, and the connection is down.
    Done,
}

/// The number of octets that a call of `feed` read, and its outcome.
#[derive(Clone, Copy, Debug, PartialEq, Eq)]
pub struct PollHeard {
    /// The number of octets that were read; pass the others to the next call.
    pub count: usize,
    /// The outcome, or why the poll failed.
    pub result: Result<PollOutcome, PollFault>,
}
