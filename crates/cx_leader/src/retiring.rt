//! How a leader retires the rounds below its own (JSys 2021): a column of its grid learns how many slots enough
//! replicas hold (this project's own), then f + 1 matchmakers forget the earlier rounds. A later leader asks a row of that
//! grid, which meets the column, so it learns below which slot it need not know what the retired rounds chose.

ghost use Rattle.std.specs.Prelude.{◌≡◌, ◌<◌, ◌&&◌};
ghost use Rattle.cx_role.specs.Prelude.{[], IsReply, Replies};
ghost use Rattle.cx_model.specs.Leader.{is_leading, is_own, collect_row, informed_row, garbage_b_row, leader_rules};

use crate::Leader;
use crate::rounds::{is_same, round_of};
use crate::sending::{ask_to_forget, inform_members};
use cx_base::{NoMemory, RoleId, Round, Why};
use cx_collect::Collector;
use cx_grid::is_member;
use cx_model::{Mode, Stage};
use cx_role::Outbox;

impl Leader {
    // Whether it leads, and in this round.
    fn leads(&self, round: Round) -> bool
        ensures { result ≡ (is_leading self.now.volatile.mode && is_own self.now.durable round) }
    {
        matches!(self.mode, Mode::Leading) && is_same(round, round_of(&self.own))
    }

    /// The order to retire all earlier rounds, once all that it proposed when it began to lead is known to be chosen,
    /// or held.
    pub(crate) fn collect(&mut self, out: &mut Outbox) -> Result<Why, NoMemory>
        requires empty { out.old.list ≡ [] }
        ensures { let s = self.old in
            IsReply leader_rules s (collect_row s.cluster s.me s.durable s.volatile) result self.new
            out.new.list }
    {
        if !matches!(self.mode, Mode::Leading) {
            return Ok(Why::Idle);
        }
        let Some(own) = self.own else {
            return Ok(Why::Idle);
        };
        if !matches!(self.collector.stage(), Stage::Off) {
            return Ok(Why::Same);
        }
        if !self.proposals.is_settled() {
            return Ok(Why::Waiting);
        }
        out.room(usize::from(self.cluster.acceptors))?;
        let cw = self.proposals.cw();
        self.collector = Collector::start(own.grid, self.cluster.f, cw);
        inform_members(self.index, &own, cw, &self.cluster, out);
        Ok(Why::Informing)
    }

    /// An acceptor knows how many slots enough replicas hold; a whole column ends the stage. A lesser number than the
    /// acceptors were sent doesn't count.
    pub(crate) fn informed(
        &mut self,
        from: RoleId,
        round: Round,
        cw: u64,
        out: &mut Outbox,
    ) -> Result<Why, NoMemory>
        requires acceptor { from.index < 64 }
        requires empty { out.old.list ≡ [] }
        ensures { let s = self.old in
            IsReply leader_rules s (informed_row s.cluster s.me s.durable s.volatile from round cw)
            result self.new out.new.list }
    {
        if !self.leads(round)
            || !matches!(self.collector.stage(), Stage::Informing)
            || cw < self.collector.mark()
        {
            return Ok(Why::Old);
        }
        let Some(own) = self.own else {
            return Ok(Why::Old);
        };
        if !is_member(&own.grid, from.index) {
            return Ok(Why::Unasked);
        }
        if self.collector.counted(from.index) {
            return Ok(Why::Same);
        }
        // The answer may end the stage, and once it is counted nothing can fail.
        out.room(self.set.ids().len())?;
        if !self.collector.informed(from.index, cw) {
            return Ok(Why::Counted);
        }
        ask_to_forget(self.index, &own, self.set.ids(), out);
        Ok(Why::Collecting)
    }

    /// A matchmaker has forgotten the earlier rounds; with f + 1 of the known set all are retired.
    pub(crate) fn forgotten(&mut self, from: RoleId, round: Round) -> Why
        requires matchmaker { from.index < 64 }
        ensures { let s = self.old in
            Replies leader_rules s (garbage_b_row s.cluster s.durable s.volatile from round) result
            self.new [] }
    {
        if !self.leads(round)
            || !matches!(self.collector.stage(), Stage::Collecting)
            || !self.set.contains(from.index)
        {
            return Why::Old;
        }
        if self.collector.counted(from.index) {
            return Why::Same;
        }
        if self.collector.garbage_b(from.index) {
            Why::Retired
        } else {
            Why::Counted
        }
    }
}
