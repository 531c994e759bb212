//! How an open client's link handles an I or an RR.

/// How an open client's link handles an I or an RR.
#[derive(Clone, Copy, Debug, PartialEq, Eq)]
pub enum ClientRow {
    /// The next segment of the answer is taken.
    Takes,
    /// A segment that was taken before: it is only said again what is awaited.
    TakenBefore,
    /// The meter has a segment of the request: the next one may go out.
    LetsNext,
    /// It fits nothing, and is passed over.
    Leaves,
}
