//! Whether a matchmaker is of a set, and whether it has stopped.

ghost use Rattle.std.specs.Prelude.{◌≡◌, ◌&&◌, ◌+◌, ◌*◌};
ghost use Rattle.cx_role.specs.Prelude.{not, nat_lt};
ghost use Rattle.cx_model.specs.Matchmaker.{is_booted, is_stopped, set_of};

use crate::Matchmaker;
use cx_base::{Cluster, Round, Set};

// Whether a matchmaker of this index is of the first set.
fn is_first(cluster: &Cluster, index: u16) -> bool
    ensures { result ≡ nat_lt index (2 * cluster.now.f + 1) }
{
    index < 2 * u16::from(cluster.f) + 1
}

impl Matchmaker {
    /// The set that it is of: the one in which it began, or the first.
    pub(crate) fn own_set(&self) -> Option<Set>
        ensures { result ≡ set_of self.now.cluster self.now.me self.now.durable.booted }
    {
        match self.booted {
            Some(set) => Some(set),
            None => {
                if is_first(&self.cluster, self.me.index) {
                    return Some(Set::first(&self.cluster));
                }
                None
            }
        }
    }

    /// Whether it is of a set.
    pub(crate) fn is_booted(&self) -> bool
        ensures { result ≡ is_booted self.now.cluster self.now.me self.now.durable }
    {
        match self.own_set() {
            Some(_) => true,
            None => false,
        }
    }

    /// Whether a ballot has stopped it.
    pub(crate) fn is_stopped(&self) -> bool
        ensures { result ≡ is_stopped self.now.durable }
    {
        Round::ZERO.is_before(&self.ballot)
    }

    /// Whether it records rounds: it is of a set, and has not stopped.
    pub(crate) fn is_at_work(&self) -> bool
        ensures { result ≡ (is_booted self.now.cluster self.now.me self.now.durable
            && not (is_stopped self.now.durable)) }
    {
        self.is_booted() && !self.is_stopped()
    }
}
