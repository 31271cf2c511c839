//! A reader that learns of another set of matchmakers.

ghost use Rattle.std.specs.Prelude.{◌≡◌};
ghost use Rattle.cx_role.specs.Prelude.{[], IsReply};
ghost use Rattle.cx_model.specs.Reader.{asked_anew, reader_rules, sets_row};

use crate::Reader;
use crate::sends::ask_matchmakers;
use cx_base::{NoMemory, Set, Why};
use cx_role::Outbox;

impl Reader {
    // Where the running batch waits for matchmakers, it asks these, and counts none of those that it asked before.
    fn asks_anew(&mut self, set: Set, out: &mut Outbox) -> Result<Why, NoMemory>
        requires empty { out.old.list ≡ [] }
        ensures { IsReply reader_rules self.old
            (asked_anew self.old.cluster self.old.me (record self.old.volatile { set = set })
            self.old.volatile.running) result self.new out.new.list }
    {
        let Some(batch) = &mut self.running else {
            self.set = set;
            return Ok(Why::Learnt);
        };
        if batch.is_matched(&self.cluster) {
            self.set = set;
            return Ok(Why::Learnt);
        }
        out.room(set.ids().len())?;
        batch.recount();
        ask_matchmakers(self.index, batch.turn(), set.ids(), out);
        self.set = set;
        Ok(Why::Learnt)
    }

    /// Another set of matchmakers took over, which then is the known one, unless it is not above that. AskedReads wait on.
    pub(crate) fn learn(&mut self, set: Set, out: &mut Outbox) -> Result<Why, NoMemory>
        requires empty { out.old.list ≡ [] }
        ensures { IsReply reader_rules self.old (sets_row self.old.cluster self.old.me
            self.old.volatile set) result self.new out.new.list }
    {
        if !set.is_above(&self.set) {
            return Ok(Why::Old);
        }
        self.asks_anew(set, out)
    }
}
