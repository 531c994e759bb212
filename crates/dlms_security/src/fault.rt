//! Reasons to refuse an APDU or a message.

/// Why no message or answer goes out. The state is unchanged.
#[derive(Clone, Copy, Debug, PartialEq, Eq)]
pub enum ProtectFault {
    /// The APDU has more than `MOST_APDU` bytes.
    Long,
    /// The APDU's service has no ciphered form of its own: use [`crate::Form::General`].
    Service,
    /// All counters below 2^32 - 1 are used: replace the key.
    Exhausted,
    /// All reserved counters are used: store a higher reservation, then call `extend_reservation`.
    Reserve,
}

/// Why a message is refused. The state is unchanged. If several reasons apply, the first in this order of checks is
/// reported: `NotProtected`, `Short` (of the header), `UnknownTitle`, `AnotherTitle`, `AnotherControl`, `OldCounter`, `Short`
/// (of the tag), `Long`, `WrongTag`, `AnotherService`.
#[derive(Clone, Copy, Debug, PartialEq, Eq)]
pub enum UnprotectFault {
    /// The message is not a ciphered form that this crate knows.
    NotProtected,
    /// The message is empty or cut off, or a length in it is wrong.
    Short,
    /// The APDU in it has more than `MOST_APDU` bytes.
    Long,
    /// The peer's system title is not known yet: call `learn`.
    UnknownTitle,
    /// The message contains a system title that is not the peer's.
    AnotherTitle,
    /// The security control byte is not the policy's.
    AnotherControl,
    /// The invocation counter is not above the last accepted one: the message is a replay, or came late.
    OldCounter,
    /// The tag is wrong: the message is not the peer's, or was damaged.
    WrongTag,
    /// The tag in front of the message belongs to another service than the APDU in it.
    AnotherService,
}
