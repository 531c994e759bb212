//! How far an association is.

/// What was asked for.
#[derive(Clone, Copy, Debug, PartialEq, Eq)]
pub enum Asked {
    /// A GET, or its next block.
    Get,
    /// A SET.
    Set,
    /// An ACTION.
    Action,
}

/// The answer that is awaited.
#[derive(Clone, Copy, Debug, PartialEq, Eq)]
pub enum Stage {
    /// Nothing: no association was asked for.
    Closed,
    /// The answer to the association request.
    Associating,
    /// Nothing: a request may be made.
    Free,
    /// The answer to a request.
    Asking(Asked),
    /// The answer to the release.
    Releasing,
    /// Nothing: the association is released.
    Released,
}
