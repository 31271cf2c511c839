//! What a node that tends its roles asks of a leader. Nothing here takes memory.

ghost use Rattle.std.specs.Prelude.{◌≡◌};
ghost use Rattle.cx_role.specs.Prelude.{nat_lt, filter, length};
ghost use Rattle.cx_leader.specs.Tending.{is_new_leader, has_heard, can_collect, has_open, is_spent};

use crate::Leader;
use cx_model::{Mode, Stage};

// How many replicas have reported that they hold something.
fn count_heard(held: &[u64]) -> usize
    ensures { result ≡ length (filter (λ n. nat_lt 0 n) held.now) }
{
    held.iter().filter(|held| **held > 0).count()
}

impl Leader {
    /// Whether it never began a round.
    pub fn is_new(&self) -> bool
        ensures { result ≡ is_new_leader self.now.durable }
    {
        self.own.is_none()
    }

    /// Whether f + 1 replicas, as many as a slot needs never to be lost, have reported to it that they hold some.
    pub fn has_heard(&self) -> bool
        ensures { result ≡ has_heard self.now.cluster self.now.volatile }
    {
        count_heard(&self.held) > usize::from(self.cluster.f)
    }

    /// Whether an order to collect would begin: it leads, has not begun in this round, and all that it proposed at
    /// first is known to be chosen.
    pub fn can_collect(&self) -> bool
        ensures { result ≡ can_collect self.now.volatile }
    {
        matches!(self.mode, Mode::Leading)
            && matches!(self.collector.stage(), Stage::Off)
            && self.proposals.is_settled()
    }

    /// The chosen watermark, a number of slots: f + 1 replicas hold all below it.
    pub fn cw(&self) -> u64
        ensures { result ≡ self.now.volatile.cw }
    {
        self.proposals.cw()
    }

    /// Whether it gave away a slot that too few replicas hold.
    pub fn has_open(&self) -> bool
        ensures { result ≡ has_open self.now.volatile }
    {
        self.proposals.cw() < self.proposals.next()
    }

    /// Whether it has open slots for which its ticks can do no more, as only replicas' reports are missing: it leads, has
    /// retired the earlier rounds, and knows each of these slots to be chosen.
    pub fn is_spent(&self) -> bool
        ensures { result ≡ is_spent self.now.volatile }
    {
        matches!(self.mode, Mode::Leading)
            && matches!(self.collector.stage(), Stage::Retired)
            && self.has_open()
            && self.proposals.all_chosen()
    }
}
