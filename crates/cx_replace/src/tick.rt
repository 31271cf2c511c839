//! What a replacer asks again while it waits, and tells again while it doesn't.

ghost use Rattle.std.specs.Prelude.{◌≡◌};
ghost use Rattle.cx_role.specs.Prelude.{[], IsTrue, IsReply};
ghost use Rattle.cx_model.specs.declared.states.Replacing.TheVariants as replacing;
ghost use Rattle.cx_model.specs.Replacer.{is_deciding, is_stopping, replacer_rules, tick_in};

use crate::Replacer;
use crate::sends::{ask_to_accept, ask_to_begin, ask_to_stop, tell_all};
use cx_base::{NoMemory, Set, Why};
use cx_role::Outbox;

impl Replacer {
    /// A later set than the first is told again.
    pub(crate) fn tell_again(&self, out: &mut Outbox) -> Result<Why, NoMemory>
        requires empty { out.old.list ≡ [] }
        ensures { let s = self.now in
            IsReply replacer_rules s (tick_in s.cluster s.me s.durable s.volatile replacing.Idle)
            result s out.new.list }
    {
        if !self.set.is_above(&Set::first(&self.cluster)) {
            return Ok(Why::Idle);
        }
        tell_all(&self.cluster, self.index, &self.set, out)?;
        Ok(Why::Resent)
    }

    /// The known set is asked again to stop.
    pub(crate) fn stop_again(&self, out: &mut Outbox) -> Result<Why, NoMemory>
        requires stopping { IsTrue (is_stopping self.now.volatile.mode) }
        requires empty { out.old.list ≡ [] }
        ensures { let s = self.now in
            IsReply replacer_rules s
            (tick_in s.cluster s.me s.durable s.volatile replacing.Stopping) result s out.new.list }
    {
        let ids = self.set.ids();
        out.room(ids.len())?;
        ask_to_stop(self.index, self.own, ids, out);
        Ok(Why::Resent)
    }

    /// The known set is asked again to accept the next one.
    pub(crate) fn accept_again(&self, out: &mut Outbox) -> Result<Why, NoMemory>
        requires deciding { IsTrue (is_deciding self.now.volatile.mode) }
        requires empty { out.old.list ≡ [] }
        ensures { let s = self.now in
            IsReply replacer_rules s
            (tick_in s.cluster s.me s.durable s.volatile replacing.Deciding) result s out.new.list }
    {
        let ids = self.set.ids();
        out.room(ids.len())?;
        ask_to_accept(self.index, self.own, &self.next, ids, out);
        Ok(Why::Resent)
    }

    /// The members of the next set are asked again to begin.
    pub(crate) fn begin_again(&self, out: &mut Outbox) -> Result<Why, NoMemory>
        requires empty { out.old.list ≡ [] }
        ensures { let s = self.now in
            IsReply replacer_rules s (tick_in s.cluster s.me s.durable s.volatile replacing.Booting)
            result s out.new.list }
    {
        let (next, watermark) = (&self.next, self.watermark);
        ask_to_begin(self.alloc, self.index, next, watermark, &self.entries, out)?;
        Ok(Why::Resent)
    }
}
