//! What follows a value while it comes.

/// Follows the value of a GET while it comes. It changes only itself: nothing of the association depends on it.
pub trait Watch {
    /// The encoding, as far as it was joined. It only grows, until the next request.
    fn look(&mut self, value: &[u8]);
}

/// Follows nothing.
#[derive(Clone, Copy)]
pub struct Unwatched;

impl Watch for Unwatched {
    fn look(&mut self, _value: &[u8]) {}
}
