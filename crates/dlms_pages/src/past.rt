//! A history that only proofs read.
ghost use Rattle.std.specs.Prelude.{◌≡◌, List, [], ◌∷◌, ◌++◌};
ghost use Rattle.std.specs.Borrow.{ftrue};

use std::marker::{Model, PhantomData};

/// The past of a value, the oldest entry first. It takes no memory, and its methods do nothing at run time.
#[derive(Drop)]
pub struct Past<C> {
    of: PhantomData<C>,
    pub ghost calls: { List C },
}

impl<C> Model for Past<C> {
    ghost also_owns = { λ _. ftrue };
}

impl<C> Past<C> {
    /// Nothing came yet.
    pub fn new() -> Past<C>
        ensures { result.calls ≡ [] }
    {
        Past { of: PhantomData }
    }

    /// One more came.
    pub fn and(&self, call: &C) -> Past<C>
        ensures { result.calls ≡ self.now.calls ++ call.now ∷ [] }
    {
        Past { of: PhantomData }
    }
}
