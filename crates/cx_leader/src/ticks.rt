//! What a leader asks again while it waits.

ghost use Rattle.std.specs.Prelude.{◌≡◌, ◌≤◌, ◌++◌};
ghost use Rattle.cx_role.specs.Prelude.{[], Some, length, IsTrue, IsReply};
ghost use Rattle.cx_role.specs.Prelude.mode;
ghost use Rattle.cx_model.specs.Leader.{stage_sends, tick_in, leader_rules};
ghost use Rattle.cx_field.specs.Fields as field;

use crate::Leader;
use crate::sending::{ask_to_forget, ask_to_promise, ask_to_record, inform_members, tell_batchers};
use cx_base::{NoMemory, WINDOW_LENGTH, Why};
use cx_field::Entry;
use cx_model::Stage;
use cx_role::Outbox;

impl Leader {
    /// It asks the matchmakers of the known set again, also those that have answered.
    pub(crate) fn match_again(&self, own: &Entry, out: &mut Outbox) -> Result<Why, NoMemory>
        requires round { IsTrue (field.round.fits own.now.round) }
        requires empty { out.old.list ≡ [] }
        ensures { let s = self.now in
            IsReply leader_rules s (tick_in s.cluster s.me s.volatile mode.Matching (Some own.now))
            result s out.new.list }
    {
        let set = self.set.ids();
        out.room(set.len())?;
        ask_to_record(self.index, own.round, &own.grid, set, out);
        Ok(Why::Resent)
    }

    /// It asks the acceptors of earlier grids again.
    pub(crate) fn phase1_again(&self, own: &Entry, out: &mut Outbox) -> Result<Why, NoMemory>
        requires mode { self.now.volatile.mode ≡ mode.Phase1 }
        requires round { IsTrue (field.round.fits own.now.round) }
        requires empty { out.old.list ≡ [] }
        ensures { let s = self.now in
            IsReply leader_rules s (tick_in s.cluster s.me s.volatile mode.Phase1 (Some own.now))
            result s out.new.list }
    {
        let Some(phase1) = &self.phase1 else {
            return Ok(Why::Resent);
        };
        out.room(usize::from(self.cluster.acceptors))?;
        ask_to_promise(self.index, own.round, &self.cluster, phase1, out);
        Ok(Why::Resent)
    }

    // It asks again what the present stage of retiring asks.
    fn stage_again(&self, own: &Entry, out: &mut Outbox)
        requires round { IsTrue (field.round.fits own.now.round) }
        requires acceptors { self.now.cluster.acceptors ≤ out.old.spare }
        requires matchmakers { length self.now.volatile.set ≤ out.old.spare }
        ensures { let s = self.now in
            out.new.list ≡ out.old.list
            ++ stage_sends s.cluster s.me own.now s.volatile.set s.volatile.collection }
    {
        match self.collector.stage() {
            Stage::Informing => {
                inform_members(self.index, own, self.collector.mark(), &self.cluster, out);
            }
            Stage::Collecting => {
                ask_to_forget(self.index, own, self.set.ids(), out);
            }
            Stage::Off | Stage::Retired => {}
        }
    }

    /// It proposes what is not known to be chosen, announces again that it leads, and asks again what retiring asks.
    pub(crate) fn lead_again(&self, own: &Entry, out: &mut Outbox) -> Result<Why, NoMemory>
        requires round { IsTrue (field.round.fits own.now.round) }
        requires empty { out.old.list ≡ [] }
        ensures { let s = self.now in
            IsReply leader_rules s (tick_in s.cluster s.me s.volatile mode.Leading (Some own.now))
            result s out.new.list }
    {
        let batchers = self.cluster.batchers;
        // A stage asks acceptors or matchmakers: the sum is enough for either.
        let asked = usize::from(self.cluster.acceptors) + self.set.ids().len();
        out.room(WINDOW_LENGTH + usize::from(batchers) + asked)?;
        match self
            .proposals
            .propose_open(self.alloc, &self.cluster, self.index, own, out)
        {
            Ok(()) => {}
            Err(NoMemory) => {
                out.clear();
                return Err(NoMemory);
            }
        }
        tell_batchers(self.index, own.round, batchers, out);
        self.stage_again(own, out);
        Ok(Why::Resent)
    }
}
