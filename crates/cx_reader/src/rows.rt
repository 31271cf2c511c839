//! What a reader does with what it is answered, and at a tick. Memory is taken first, so that running out of it leaves everything
//! as it was.

ghost use Rattle.std.specs.Prelude.{◌≡◌, ◌≤◌, ◌<◌, ◌+◌};
ghost use Rattle.cx_role.specs.Prelude.{[], length, IsTrue, live_entries, IsReply, IsStep};
ghost use Rattle.cx_model.specs.Reader.{match_ack_counted, match_ack_row, matched, pre_read_ack_row, pre_read_counted};
ghost use Rattle.cx_model.specs.Reader.{reader_rules, reader_tick};
ghost use Rattle.cx_reader.specs.Running.{are_apart};
ghost use Rattle.cx_field.specs.Fields as field;

use crate::Reader;
use crate::batch::Batch;
use crate::sends::ask_matchmakers;
use cx_base::{Duplicate, NoMemory, RoleId, Round, Why};
use cx_field::{Asking, Entries};
use cx_keep::Keeper;
use cx_model::{Acked, MatchAnswer};
use cx_role::{Outbox, StepFault};

impl Reader {
    /// A matchmaker answers with its retirement watermark and its entries. Only those of the known set are counted.
    #[tactic(auto, using(crate::proofs::Ranges::few_with, crate::proofs::Entries::apart_with))]
    pub(crate) fn match_answer<K: Keeper>(
        &mut self,
        keeper: &mut K,
        from: RoleId,
        asking: Asking,
        watermark: Round,
        entries: &Entries,
        out: &mut Outbox,
    ) -> Result<Why, StepFault>
        requires watermark { IsTrue (field.round0.fits watermark) }
        requires empty { out.old.list ≡ [] }
        ensures { IsStep K.append_gives K.tells reader_rules self.old
            (match_ack_row self.old.cluster self.old.me self.old.durable self.old.volatile from
            asking watermark entries.now self.old.volatile.running)
            result self.new keeper.old keeper.new out.new.list }
    {
        let Some(batch) = &self.running else {
            return Ok(Why::Unasked);
        };
        if !batch.awaits_matchmaker(&self.cluster, self.index, &self.set, asking, from.index) {
            return Ok(Why::Unasked);
        }
        if batch.has_told(from.index) {
            return Ok(Why::Same);
        }
        let answer = MatchAnswer {
            matchmaker: from.index,
            watermark,
            entries: entries.copy(self.alloc)?,
        };
        let more = batch.with_answer(self.alloc, answer)?;
        self.match_counted(keeper, more, out)
    }

    // One more matchmaker has answered.
    fn match_counted<K: Keeper>(
        &mut self,
        keeper: &mut K,
        batch: Batch,
        out: &mut Outbox,
    ) -> Result<Why, StepFault>
        requires few { length self.old.volatile.waiting + length batch.reads ≤ 64 }
        requires apart { IsTrue (are_apart batch.reads self.old.volatile.waiting) }
        requires empty { out.old.list ≡ [] }
        ensures { IsStep K.append_gives K.tells reader_rules self.old
            (match_ack_counted self.old.cluster self.old.me self.old.durable self.old.volatile
            batch) result self.new keeper.old keeper.new out.new.list }
    {
        if !batch.is_matched(&self.cluster) {
            self.running = Some(batch);
            return Ok(Why::Counted);
        }
        self.matched(keeper, batch, out)
    }

    // Enough matchmakers have answered. Where no grid is live nothing was ever voted for.
    #[tactic(auto, unfolding(cx_field::specs::Fields::mark, cx_wire::specs::Format::u64))]
    fn matched<K: Keeper>(
        &mut self,
        keeper: &mut K,
        batch: Batch,
        out: &mut Outbox,
    ) -> Result<Why, StepFault>
        requires few { length self.old.volatile.waiting + length batch.reads ≤ 64 }
        requires apart { IsTrue (are_apart batch.reads self.old.volatile.waiting) }
        requires empty { out.old.list ≡ [] }
        ensures { IsStep K.append_gives K.tells reader_rules self.old
            (matched self.old.cluster self.old.me self.old.durable self.old.volatile batch
            (live_entries batch.told)) result self.new keeper.old keeper.new out.new.list }
    {
        if !batch.has_live() {
            return self.finish(keeper, batch, 0, out);
        }
        out.room(usize::from(self.cluster.acceptors))?;
        batch.ask_acceptors(self.index, &self.cluster, out);
        self.running = Some(batch);
        Ok(Why::Asking)
    }

    /// An acceptor reports how far it voted.
    #[tactic(auto, using(crate::proofs::Ranges::few_with, crate::proofs::Entries::apart_with))]
    pub(crate) fn pre_read_answer<K: Keeper>(
        &mut self,
        keeper: &mut K,
        from: RoleId,
        asking: Asking,
        watermark: Round,
        mark: u64,
        out: &mut Outbox,
    ) -> Result<Why, StepFault>
        requires acceptor { from.index < 64 }
        requires mark { IsTrue (field.mark.fits mark) }
        requires empty { out.old.list ≡ [] }
        ensures { IsStep K.append_gives K.tells reader_rules self.old
            (pre_read_ack_row self.old.cluster self.old.me self.old.durable self.old.volatile from
            asking watermark mark self.old.volatile.running)
            result self.new keeper.old keeper.new out.new.list }
    {
        let Some(batch) = &self.running else {
            return Ok(Why::Unasked);
        };
        if !batch.awaits_acceptor(&self.cluster, self.index, asking, from.index) {
            return Ok(Why::Unasked);
        }
        if watermark != batch.watermark() {
            return Ok(Why::Old);
        }
        if batch.has_acked(from.index) {
            return Ok(Why::Same);
        }
        let ack = Acked {
            acceptor: from.index,
            mark,
        };
        let more = batch.with_ack(self.alloc, ack)?;
        self.pre_read_counted(keeper, more, out)
    }

    // One more acceptor has answered.
    fn pre_read_counted<K: Keeper>(
        &mut self,
        keeper: &mut K,
        batch: Batch,
        out: &mut Outbox,
    ) -> Result<Why, StepFault>
        requires few { length self.old.volatile.waiting + length batch.reads ≤ 64 }
        requires apart { IsTrue (are_apart batch.reads self.old.volatile.waiting) }
        requires empty { out.old.list ≡ [] }
        ensures { IsStep K.append_gives K.tells reader_rules self.old
            (pre_read_counted self.old.cluster self.old.me self.old.durable self.old.volatile batch)
            result self.new keeper.old keeper.new out.new.list }
    {
        if !batch.rows_whole() {
            self.running = Some(batch);
            return Ok(Why::Counted);
        }
        let mark = batch.mark();
        self.finish(keeper, batch, mark, out)
    }

    /// What the running batch waits for is asked for again: the matchmakers, and once enough of them have answered the acceptors.
    pub(crate) fn resend(&self, out: &mut Outbox) -> Result<Why, NoMemory>
        requires empty { out.old.list ≡ [] }
        ensures { IsReply reader_rules self.now
            (reader_tick self.now.cluster self.now.me self.now.volatile self.now.volatile.running)
            result self.now out.new.list }
    {
        let Some(batch) = &self.running else {
            return Ok(Why::Idle);
        };
        if batch.is_matched(&self.cluster) {
            out.room(usize::from(self.cluster.acceptors))?;
            batch.ask_acceptors(self.index, &self.cluster, out);
            return Ok(Why::Resent);
        }
        let set = self.set.ids();
        out.room(set.len())?;
        ask_matchmakers(self.index, batch.turn(), set, out);
        Ok(Why::Resent)
    }
}
