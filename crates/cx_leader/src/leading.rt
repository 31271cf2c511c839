//! What a leader that leads does: it proposes what its first phase reported, or what it proposed in the round before,
//! gives each batch a slot, and notes which slots are chosen (VLDB 2021).

ghost use Rattle.std.specs.Prelude.{◌≡◌, ◌<◌, ◌++◌};
ghost use Rattle.cx_role.specs.Prelude.{[], Some, map, IsTrue, OnOk, OnErr, Kind as KindOf, below, role, IsReply};
ghost use Rattle.cx_field.specs.Fields as field;
ghost use Rattle.cx_model.specs.Leader.{leads_to, lead_with, batch_row, chosen_in_row, leader_rules};
ghost use Rattle.cx_phase1.specs.Planned.{IsPlan};
ghost use Rattle.cx_leader.specs.Proposing.{propose_sends};

use crate::Leader;
use crate::proposals::Proposals;
use crate::rounds::{is_same, round_of};
use crate::sending::{proposal, tell_batchers};
use cx_base::{Cluster, Commands, Duplicate, Kind, NoMemory, Round, Value, WINDOW_LENGTH, Why};
use cx_field::Entry;
use cx_model::{Mode, Plan};
use cx_role::Outbox;
use std::alloc::Global;

/// Proposes all values in a leader's own round, and announces the round to the batchers. Out of memory, nothing is
/// sent.
pub fn begin_to_lead(
    alloc: Global,
    cluster: &Cluster,
    leader: u16,
    own: &Entry,
    proposals: &Proposals,
    out: &mut Outbox,
) -> Result<(), NoMemory>
    requires leader { leader < cluster.now.leaders }
    requires round { IsTrue (field.round.fits own.now.round) }
    requires empty { out.old.list ≡ [] }
    ensures list { OnOk result (out.new.list
        ≡ propose_sends cluster.now leader own.now proposals.now.cw proposals.now.proposed
        ++ map (leads_to (role Kind.Leader leader) own.now.round) (below cluster.now.batchers)) }
    ensures none { OnErr result (out.new.list ≡ []) }
{
    out.room(WINDOW_LENGTH + usize::from(cluster.batchers))?;
    match proposals.propose_all(alloc, cluster, leader, own, out) {
        Ok(()) => {}
        Err(NoMemory) => {
            out.clear();
            return Err(NoMemory);
        }
    }
    tell_batchers(leader, own.round, cluster.batchers, out);
    Ok(())
}

impl Leader {
    /// Its first phase is done: it leads, proposes what the plan says, and announces it to the batchers.
    pub(crate) fn lead_with(
        &mut self,
        own: &Entry,
        plan: &Plan,
        out: &mut Outbox,
    ) -> Result<Why, NoMemory>
        requires own { self.old.durable.own ≡ Some own.now }
        requires plan { IsPlan plan.now }
        requires empty { out.old.list ≡ [] }
        ensures { let s = self.old in
            IsReply leader_rules s (lead_with s.cluster s.me own.now s.volatile plan.now)
            result self.new out.new.list }
    {
        let proposals = Proposals::planned(self.alloc, plan)?;
        begin_to_lead(self.alloc, &self.cluster, self.index, own, &proposals, out)?;
        self.mode = Mode::Leading;
        self.phase1 = None;
        self.proposals = proposals;
        Ok(Why::Leads)
    }

    /// A batcher's commands get the next slot of the window.
    #[tactic(auto, unfolding(cx_field::specs::Fields::value, cx_field::specs::Fields::value_with, cx_field::specs::Fields::commands))]
    pub(crate) fn batch(&mut self, commands: &Commands, out: &mut Outbox) -> Result<Why, NoMemory>
        requires empty { out.old.list ≡ [] }
        requires commands { IsTrue (field.commands.fits commands.now) }
        ensures { let s = self.old in
            IsReply leader_rules s (batch_row s.cluster s.me s.durable s.volatile commands.now)
            result self.new out.new.list }
    {
        if !matches!(self.mode, Mode::Leading) {
            return Ok(Why::Idle);
        }
        let Some(own) = self.own else {
            return Ok(Why::Idle);
        };
        let value = Value::Batch(commands.copy(self.alloc)?);
        out.room(1)?;
        // Last of what can fail, since it takes the slot.
        match self.proposals.add(self.alloc, &value)? {
            None => Ok(Why::Window),
            Some(slot) => {
                let cw = self.proposals.cw();
                out.push(proposal(&self.cluster, self.index, &own, cw, slot, value));
                Ok(Why::Proposed)
            }
        }
    }

    /// A proxy reports that a slot is chosen in this round. A slot below the chosen watermark was forgotten (`Past`).
    pub(crate) fn chosen_in(&mut self, round: Round, slot: u64) -> Result<Why, NoMemory>
        ensures { let s = self.old in
            IsReply leader_rules s (chosen_in_row s.durable s.volatile round slot) result
            self.new [] }
    {
        if !matches!(self.mode, Mode::Leading) || !is_same(round, round_of(&self.own)) {
            return Ok(Why::Old);
        }
        if slot < self.proposals.cw() {
            return Ok(Why::Past);
        }
        if slot >= self.proposals.next() {
            return Ok(Why::Unasked);
        }
        if self.proposals.is_chosen(slot) {
            return Ok(Why::Same);
        }
        self.proposals.note(self.alloc, slot)?;
        Ok(Why::Chosen)
    }
}
