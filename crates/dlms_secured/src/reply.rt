//! What an association response leads to.

use crate::stage::Granted;

/// An association response is accepted: the meter's title, what it grants, and the answer to its challenge.
#[derive(Clone, Copy)]
pub(crate) struct Reply {
    pub title: [u8; 8],
    pub granted: Granted,
    pub answer: [u8; 17],
}
