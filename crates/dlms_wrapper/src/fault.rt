//! Why octets are no message.

use thiserror::Error;

/// Why no message begins with a header: the first cause that applies. On a TCP connection close it, since the next header cannot
/// be found.
#[derive(Clone, Copy, Debug, PartialEq, Eq, Error)]
pub enum HeaderFault {
    /// The header has this version in place of 1.
    #[error("version {0} of the wrapper; only version 1 is known")]
    Version(u16),
    /// The header announces an APDU of `len` octets, which is more than the `limit` that the caller set.
    #[error("an APDU of {len} octets, above the limit of {limit}")]
    TooLong { len: u16, limit: usize },
}

/// Why a datagram is no message: the first cause that applies.
#[derive(Clone, Copy, Debug, PartialEq, Eq, Error)]
pub enum DatagramFault {
    /// The datagram has this many octets, which is fewer than the eight of a header.
    #[error("a datagram of {0} octets, shorter than a header of 8")]
    Short(usize),
    /// The header is refused.
    #[error("{0}")]
    Header(HeaderFault),
    /// The header announces an APDU of `len` octets, but `found` octets follow it.
    #[error("an APDU of {len} octets was announced, {found} octets follow")]
    Length { len: u16, found: usize },
}
