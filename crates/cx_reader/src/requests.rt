//! What a reader does with what clients ask.

ghost use Rattle.std.specs.Prelude.{◌≡◌};
ghost use Rattle.cx_role.specs.Prelude.{[], false, None, IsStep};
ghost use Rattle.cx_model.specs.Reader.{is_among, reader_rules, request_over, request_row};

use crate::Reader;
use crate::asked::Asked;
use crate::records::LAST_TURN;
use cx_base::{Duplicate, READS, Why};
use cx_keep::Keeper;
use cx_role::{Outbox, StepFault};

impl Reader {
    /// A client asks for a key. A read that waits goes on waiting, with what it asks now.
    pub(crate) fn request<K: Keeper>(
        &mut self,
        keeper: &mut K,
        one: Asked,
        out: &mut Outbox,
    ) -> Result<Why, StepFault>
        requires empty { out.old.list ≡ [] }
        ensures { IsStep K.append_gives K.tells reader_rules self.old
            (request_row self.old.me self.old.durable self.old.volatile one)
            result self.new keeper.old keeper.new out.new.list }
    {
        if self.waiting.has(one.token()) {
            self.waiting.put_again(one);
            return Ok(Why::Again);
        }
        self.request_over(keeper, one, out)
    }

    // A read that doesn't wait. The first of the running batch begins that anew, with all that wait.
    fn request_over<K: Keeper>(
        &mut self,
        keeper: &mut K,
        one: Asked,
        out: &mut Outbox,
    ) -> Result<Why, StepFault>
        requires new { is_among one.read self.old.volatile.waiting ≡ false }
        requires empty { out.old.list ≡ [] }
        ensures { IsStep K.append_gives K.tells reader_rules self.old
            (request_over self.old.me self.old.durable self.old.volatile one
            self.old.volatile.running) result self.new keeper.old keeper.new out.new.list }
    {
        let Some(batch) = &self.running else {
            return self.request_first(keeper, one, out);
        };
        if batch.is_first(one.token()) {
            if self.turn == LAST_TURN {
                return Ok(Why::End);
            }
            let reads = batch.again(self.alloc, one, &self.waiting)?;
            return self.begin(keeper, Why::Again, reads, out);
        }
        if batch.has(one.token()) {
            return Ok(Why::Same);
        }
        if self.waiting.len() + batch.len() >= READS {
            return Ok(Why::Full);
        }
        self.waiting.push(one)?;
        Ok(Why::Queued)
    }

    // No batch runs, so one begins.
    fn request_first<K: Keeper>(
        &mut self,
        keeper: &mut K,
        one: Asked,
        out: &mut Outbox,
    ) -> Result<Why, StepFault>
        requires new { is_among one.read self.old.volatile.waiting ≡ false }
        requires empty { out.old.list ≡ [] }
        ensures { IsStep K.append_gives K.tells reader_rules self.old
            (request_over self.old.me self.old.durable self.old.volatile one None)
            result self.new keeper.old keeper.new out.new.list }
    {
        if self.waiting.len() >= READS {
            return Ok(Why::Full);
        }
        if self.turn == LAST_TURN {
            return Ok(Why::End);
        }
        let mut reads = self.waiting.copy(self.alloc)?;
        reads.push(one)?;
        self.begin(keeper, Why::Started, reads, out)
    }
}
