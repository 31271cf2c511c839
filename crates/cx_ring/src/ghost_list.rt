//! Lists that only proofs read.

ghost use Rattle.std.specs.Prelude.{◌≡◌, List};
ghost use Rattle.std.specs.Borrow.{ftrue};

use std::marker::{Model, PhantomData};

/// A list that only proofs read. It takes no memory, and making one does nothing when the program runs.
pub struct GhostList<T> {
    of: PhantomData<T>,
    pub ghost items: { List T },
}

impl<T> Model for GhostList<T> {
    ghost also_owns = { λ _. ftrue };
}

impl<T> Drop for GhostList<T> {
    fn drop(self) {
        let GhostList { of: _ } = self;
    }
}

/// Which list a value shows to contracts.
pub trait GhostListOf<X, T> {
    ghost list_shown: { X → List T };
}

impl<T> GhostList<T> {
    /// The list that a value shows.
    pub fn of<X, M: GhostListOf<X, T>>(from: &X) -> GhostList<T>
        ensures { result.items ≡ M.list_shown from.now }
    {
        let _ = from;
        GhostList { of: PhantomData }
    }
}
