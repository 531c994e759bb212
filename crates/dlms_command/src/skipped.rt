//! The words for refused notifications and skipped octets.

use dlms_listen::{Refusal, Skip};
use dlms_security::UnprotectFault;

/// The words for a refused message under its keys.
fn closed_words(fault: UnprotectFault) -> &'static str {
    match fault {
        UnprotectFault::WrongTag => "wrong tag",
        UnprotectFault::AnotherService => "no APDU of this service in it",
        UnprotectFault::AnotherControl => "another protection than that of suite 0",
        UnprotectFault::AnotherTitle => "another title",
        UnprotectFault::Long => "too long",
        _ => "cut off",
    }
}

/// The words for a refusal, and the title of the sender if it is known.
pub fn refusal_words(refusal: Refusal) -> (&'static str, Option<[u8; 8]>) {
    match refusal {
        Refusal::Another(_) => ("no notification", None),
        Refusal::Malformed => ("malformed", None),
        Refusal::NoKeys => ("ciphered, and there are no keys", None),
        Refusal::InClear => ("in clear, and there are keys", None),
        Refusal::NoTitle => ("no title", None),
        Refusal::Foreign(title) => ("no keys of this title", Some(title)),
        Refusal::NoAuthenticationKey(title) => ("no authentication key of this title", Some(title)),
        Refusal::Closed(title, fault) => (closed_words(fault), Some(title)),
        Refusal::Replay { title, .. } => ("replay", Some(title)),
    }
}

/// Why octets were skipped, in words.
pub fn skip_words(skip: Skip) -> &'static str {
    match skip {
        Skip::Control(_) => "a frame without information",
        Skip::NoLlc => "a frame without an LLC header",
        Skip::Torn => "segments without a beginning or an end",
        Skip::TornBlocks => "blocks without a beginning or an end",
        Skip::Long => "an APDU that is too long",
        Skip::WrongCheck => "a telegram with a wrong check",
        Skip::LongTelegram => "a telegram that is too long",
        Skip::Header(_) => "the rest of a stream, whose header is not one of the wrapper",
    }
}
