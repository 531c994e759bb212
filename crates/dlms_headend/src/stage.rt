//! How far a poll is.

use crate::poll_fault::PollFault;

/// The answer that a poll awaits, once its link is up.
#[derive(Clone, Copy, Debug, PartialEq, Eq)]
pub enum Stage {
    /// The answer to the association request.
    Associating,
    /// The answer to the first GET of the columns.
    Naming,
    /// The answer to a GET of the buffer, after this many blocks.
    Getting(u32),
    /// The answer to the second GET of the columns.
    Checking,
    /// The answer to the release.
    Releasing,
    /// The link's end.
    Leaving,
}

/// Where a poll stands.
#[derive(Clone, Copy, Debug, PartialEq, Eq)]
pub enum Course {
    /// Nothing was sent yet.
    Ready,
    /// A frame is out, and its answer is awaited.
    Running,
    /// It ended with its rows.
    Done,
    /// It ended with this fault, for good.
    Failed(PollFault),
}

/// Where a poll over a carrier stands.
#[derive(Clone, Copy, Debug, PartialEq, Eq)]
pub enum PollCourse {
    /// Nothing was sent yet.
    Ready,
    /// The connection was requested.
    Connecting,
    /// The connection is up, and an answer or the connection's end is awaited.
    Running,
    /// It ended with its rows.
    Done,
    /// It ended with this fault, for good.
    Failed(PollFault),
}
