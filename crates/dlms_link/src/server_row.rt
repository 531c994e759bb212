//! The rows of the meter's table.

/// The row of the table that a frame fits.
#[derive(Clone, Copy, Debug, PartialEq, Eq)]
pub enum ServerRow {
    /// An SNRM brings the link up; the most information that the client takes in a frame.
    Connects(u8),
    /// An SNRM whose parameters make no link, or a frame of the client on a link that is down: DM.
    Refuses,
    /// A DISC brings the link down.
    Disconnects,
    /// A segment of an APDU.
    Keeps,
    /// The last segment of an APDU.
    HandsUp,
    /// The client has not had the last answer: it goes out once more.
    Repeats,
    /// The client has had a segment of the answer: the next one goes out.
    SendsNext,
    /// There is nothing to send: a receive-ready.
    SaysReady,
    /// Any other frame.
    Ignores,
}
