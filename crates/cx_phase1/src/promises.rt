//! The promises in the order of arrival, which only proofs read.

ghost use Rattle.std.specs.Prelude.{◌≡◌, [], ◌∷◌, ◌++◌};

use cx_field::Votes;
use cx_model::Promised;
use cx_ring::{GhostList, GhostListOf};

/// The promises that were counted, in the order of arrival, which only proofs read.
pub type Promises = GhostList<Promised>;

struct Nobody;

impl GhostListOf<(), Promised> for Nobody {
    ghost list_shown = { λ _. [] };
}

struct Same;

impl GhostListOf<GhostList<Promised>, Promised> for Same {
    ghost list_shown = { λ told. told.items };
}

struct OneMore;

impl<'a> GhostListOf<(&'a GhostList<Promised>, u16, u64, &'a Votes), Promised> for OneMore {
    ghost list_shown = { λ x.
        x.0.now.items ++ record { acceptor = x.1; cw = x.2; votes = x.3.now } ∷ [] };
}

/// Nobody has promised.
pub fn none() -> Promises
    ensures { result.items ≡ [] }
{
    GhostList::of::<(), Nobody>(&())
}

/// The same promises.
pub fn same_promises(told: &Promises) -> Promises
    ensures { result.items ≡ told.now.items }
{
    GhostList::of::<Promises, Same>(told)
}

/// The promises with one more.
pub fn with_promise(told: &Promises, acceptor: u16, cw: u64, votes: &Votes) -> Promises
    ensures { result.items
        ≡ told.now.items ++ record { acceptor = acceptor; cw = cw; votes = votes.now } ∷ [] }
{
    GhostList::of::<(&Promises, u16, u64, &Votes), OneMore>(&(told, acceptor, cw, votes))
}
