//! The outcome of an APDU.

use crate::answer::Answer;
use crate::apdu::Apdu;

/// How an association handled an APDU.
#[derive(Drop)]
pub enum Step {
    /// Nothing was awaited, and the APDU is ignored.
    Nothing,
    /// This APDU goes out.
    Send(Apdu),
    /// The association is open: a request may be made.
    Associated,
    /// The request has this answer: another one may be made.
    Answered(Answer),
    /// The association is released: its connection may end.
    Released,
}
