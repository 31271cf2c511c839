//! What a node that tends its roles asks of a proxy leader. Nothing here takes memory.

ghost use Rattle.std.specs.Prelude.{◌≡◌};
ghost use Rattle.cx_model.specs.Proxy.{pending_at};
ghost use Rattle.cx_proxy.specs.Tending.{awaits_votes, is_undecided};

use crate::Proxy;
use crate::pendings::{Pendings, find};
use cx_base::WINDOW;

// Whether the value of this slot waits for votes.
fn is_undecided(pendings: &Pendings, slot: u64) -> bool
    ensures { result ≡ is_undecided (pending_at slot pendings.now.items) }
{
    match find(pendings, slot) {
        Some(pending) => !pending.done,
        None => false,
    }
}

// Whether one of these values waits for votes.
fn has_undecided(pendings: &Pendings) -> bool
    ensures { result
        ≡ awaits_votes (record { known = pendings.now.first; pending = pendings.now.items }) }
{
    let first = pendings.first();
    for slot in first..first + WINDOW {
        if is_undecided(pendings, slot) {
            return true;
        }
    }
    false
}

impl Proxy {
    /// Whether a value that it was handed waits for votes.
    pub fn awaits_votes(&self) -> bool
        ensures { result ≡ awaits_votes self.now.volatile }
    {
        has_undecided(self.pendings())
    }
}
