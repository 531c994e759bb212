//! Where a client's connection stands.

/// Where a connection stands.
#[derive(Clone, Copy, Debug, PartialEq, Eq)]
pub enum Phase {
    /// No link.
    Closed,
    /// An SNRM is out.
    Connecting,
    /// The link is up.
    Open,
    /// A DISC is out.
    Closing,
}
