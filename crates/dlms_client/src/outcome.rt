//! The outcome of a client's call.

use dlms_association::{Answer, Fault};

/// The outcome of a client's call.
#[derive(Clone, Copy, Debug, PartialEq, Eq)]
pub enum Outcome {
    /// Nothing for the caller.
    Nothing,
    /// The association is open: a request may be made.
    Associated,
    /// The request has this answer: another one may be made.
    Answered(Answer),
    /// The connection is down, as requested.
    Down,
}

/// The number of octets that a call of `feed` read, and its outcome.
#[derive(Clone, Copy, Debug, PartialEq, Eq)]
pub struct Heard {
    /// The number of octets that were read; pass the others to the next call.
    pub count: usize,
    /// The outcome, or why the association is over.
    pub result: Result<Outcome, Fault>,
}
