//! How a batch begins, and how one ends. Memory is taken first, so that running out of it leaves everything as it was.

ghost use Rattle.std.specs.Prelude.{◌≡◌, ◌==◌, ◌≤◌, ◌<◌, ◌&&◌, nat_lt, not};
ghost use Rattle.cx_role.specs.Prelude.{[], false, length, IsTrue, IsStep};
ghost use Rattle.cx_role.specs.Role.{takes_no_memory};
ghost use Rattle.cx_model.specs.Reader.{begin, finish, last_turn, reader_rules};
ghost use Rattle.cx_field.specs.Fields as field;

use crate::Reader;
use crate::batch::Batch;
use crate::reads::AskedReads;
use crate::records::LAST_TURN;
use crate::sends::ask_matchmakers;
use cx_base::Why;
use cx_keep::Keeper;
use cx_letter::Record;
use cx_role::{Outbox, StepFault, keep};

impl Reader {
    // A batch of these reads begins: its turn is kept, and all matchmakers of the known set are asked.
    #[tactic(auto, using(crate::proofs::Turns::turns))]
    pub(crate) fn begin<K: Keeper>(
        &mut self,
        keeper: &mut K,
        why: Why,
        reads: AskedReads,
        out: &mut Outbox,
    ) -> Result<Why, StepFault>
        requires next { self.old.durable.turn < last_turn }
        requires few { length reads ≤ 64 }
        requires memory { takes_no_memory why ≡ false }
        requires empty { out.old.list ≡ [] }
        ensures { IsStep K.append_gives K.tells reader_rules self.old
            (begin self.old.me self.old.durable self.old.volatile why [] reads)
            result self.new keeper.old keeper.new out.new.list }
    {
        out.room(self.set.ids().len())?;
        let turn = self.turn + 1;
        keep(keeper, &mut self.live, &Record::Turn { turn })?;
        self.turn = turn;
        self.waiting.clear();
        self.running = Some(Batch::new(self.alloc, turn, reads));
        ask_matchmakers(self.index, turn, self.set.ids(), out);
        Ok(why)
    }

    // Whether reads wait, and there is a turn for them.
    fn has_next(&self) -> bool
        ensures { result ≡ (nat_lt 0 (length self.now.volatile.waiting)
            && not (self.now.durable.turn == last_turn)) }
    {
        0 < self.waiting.len() && self.turn != LAST_TURN
    }

    // The batch has its number: the replicas are asked, and what waits is the next one, where there is a turn for it.
    #[tactic(auto, using(crate::proofs::Turns::turns))]
    pub(crate) fn finish<K: Keeper>(
        &mut self,
        keeper: &mut K,
        batch: Batch,
        mark: u64,
        out: &mut Outbox,
    ) -> Result<Why, StepFault>
        requires mark { IsTrue (field.mark.fits mark) }
        requires empty { out.old.list ≡ [] }
        ensures { IsStep K.append_gives K.tells reader_rules self.old
            (finish self.old.me self.old.durable self.old.volatile batch mark)
            result self.new keeper.old keeper.new out.new.list }
    {
        if !self.has_next() {
            out.room(batch.len())?;
            batch.ask_replicas(self.index, mark, out);
            self.running = None;
            return Ok(Why::Sent);
        }
        out.room(batch.len() + self.set.ids().len())?;
        let next = self.turn + 1;
        keep(keeper, &mut self.live, &Record::Turn { turn: next })?;
        self.turn = next;
        let waiting = std::mem::replace(&mut self.waiting, AskedReads::new(self.alloc));
        self.running = Some(Batch::new(self.alloc, next, waiting));
        batch.ask_replicas(self.index, mark, out);
        ask_matchmakers(self.index, next, self.set.ids(), out);
        Ok(Why::Sent)
    }
}
