//! A replacer that has the next set decided.

ghost use Rattle.std.specs.Prelude.{◌≡◌, ◌<◌, ◌&&◌};
ghost use Rattle.cx_role.specs.Prelude.{[], same_round, IsReply};
ghost use Rattle.cx_model.specs.Replacer.{is_deciding, next_b_row, replacer_rules};

use crate::Replacer;
use crate::counted::Counted;
use crate::rounds::is_same;
use crate::sends::ask_to_begin;
use cx_base::{NoMemory, RoleId, Round, Why};
use cx_model::Replacing;
use cx_role::Outbox;

impl Replacer {
    // Whether it has the next set decided under this ballot.
    fn decides(&self, ballot: Round) -> bool
        ensures { let s = self.now in result
            ≡ (is_deciding s.volatile.mode && same_round ballot s.durable.own) }
    {
        matches!(self.mode, Replacing::Deciding) && is_same(ballot, self.own)
    }

    /// A matchmaker has accepted the next set; with f + 1 of them it is decided, and its members are asked to begin.
    #[tactic(auto, using(crate::proofs::CountLaws::counts))]
    pub(crate) fn next_b(
        &mut self,
        from: RoleId,
        ballot: Round,
        out: &mut Outbox,
    ) -> Result<Why, NoMemory>
        requires matchmaker { from.index < 64 }
        requires empty { out.old.list ≡ [] }
        ensures { let s = self.old in
            IsReply replacer_rules s (next_b_row s.cluster s.me s.durable s.volatile from ballot)
            result self.new out.new.list }
    {
        if !self.decides(ballot) {
            return Ok(Why::Old);
        }
        if self.counted.contains(from.index) {
            return Ok(Why::Same);
        }
        if self.counted.len() < self.cluster.f {
            self.counted.add(from.index);
            return Ok(Why::Counted);
        }
        let (next, watermark) = (&self.next, self.watermark);
        ask_to_begin(self.alloc, self.index, next, watermark, &self.entries, out)?;
        self.mode = Replacing::Booting;
        self.counted = Counted::new();
        Ok(Why::Decided)
    }
}
