//! How many slots the replicas hold. What f + 1 of them hold is never lost (this project's own). A replica holds n slots once
//! it has stored the values of all slots below n.

ghost use Rattle.std.specs.Prelude.{◌≡◌, ◌≤◌, ◌<◌, ◌^◌};
ghost use Rattle.cx_role.specs.Prelude.{[], Replies};
ghost use Rattle.cx_model.specs.Leader.{count_reaching, held_by, held_row, leader_rules};

use crate::Leader;
use cx_base::{RoleId, Why};

// How many of the numbers reach this one.
fn count_reaching(held: &[u64], n: u64) -> usize
    ensures { result ≡ count_reaching n held.now }
{
    held.iter().filter(|other| **other >= n).count()
}

// The greatest of the numbers that `count` of them reach.
fn held_by(held: &[u64], count: usize) -> u64
    ensures { result ≡ held_by count held.now }
{
    let mut greatest = 0;
    for n in held {
        if count_reaching(held, *n) >= count {
            greatest = greatest.max(*n);
        }
    }
    greatest
}

impl Leader {
    /// A replica reports how many slots it holds. What enough of them hold is the chosen watermark, if it is greater.
    pub(crate) fn replica_holds(&mut self, from: RoleId, n: u64) -> Why
        requires replica { from.index < self.old.cluster.replicas }
        requires mark { n ≤ 2 ^ 40 }
        ensures { let s = self.old in Replies leader_rules s (held_row s.cluster s.volatile from n)
            result self.new [] }
    {
        let place = usize::from(from.index);
        if n <= self.held[place] {
            return Why::Same;
        }
        self.held[place] = n;
        let cw = held_by(&self.held, usize::from(self.cluster.f) + 1);
        self.proposals.raise(cw);
        Why::Held
    }
}
