//! What opens ciphered APDUs for a reader of logs.

use crate::fault::UnprotectFault;
use crate::form::MOST_APDU;
use arrayvec::ArrayVec;

/// What the log says so far of the association that a message belongs to. It has no `Debug` form, so that no key is printed by
/// mistake.
#[derive(Clone, Copy)]
pub struct Known {
    /// The sender's system title, as the association names it.
    pub sender: Option<[u8; 8]>,
    /// The receiver's.
    pub receiver: Option<[u8; 8]>,
    /// The dedicated key that the initiate request contained.
    pub dedicated_key: Option<[u8; 16]>,
}

/// An APDU that was opened.
#[derive(Drop)]
pub struct Plain {
    /// Whether its tag was looked at, and is right. Nothing authenticates an APDU that is only encrypted.
    pub is_authenticated: bool,
    pub apdu: ArrayVec<u8, MOST_APDU>,
}

/// Why a ciphered APDU is not opened.
#[derive(Clone, Copy, Debug, PartialEq, Eq)]
pub enum Closed {
    /// There are no keys for the sender or the receiver, and others do not open it.
    NoKey,
    /// The log does not name the sender, and no keys open it.
    UnknownTitle,
    /// It is under a dedicated key, and the log does not contain that.
    NoDedicatedKey,
    /// It has a tag, and its keys are without an authentication key.
    NoAuthenticationKey,
    /// Its keys are there and do not open it, for this reason.
    Refused(UnprotectFault),
}

/// What opens the ciphered APDUs of a log.
pub trait Opener: Copy + Drop {
    /// Returns the APDU in a message, or why it is not opened; `None` if nothing is to be said of ciphered APDUs.
    fn open(&self, known: &Known, message: &[u8]) -> Option<Result<Plain, Closed>>;
}

/// A reader without keys, which opens nothing and says nothing.
#[derive(Clone, Copy)]
pub struct NoKeys;

impl Opener for NoKeys {
    fn open(&self, _known: &Known, _message: &[u8]) -> Option<Result<Plain, Closed>> {
        None
    }
}
