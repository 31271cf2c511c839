//! A leader that learns of another set of matchmakers: it asks these what it waits for, and counts them alone (JSys 2021).

ghost use Rattle.std.specs.Prelude.{◌≡◌};
ghost use Rattle.cx_role.specs.Prelude.{[], Some, IsTrue, IsReply};
ghost use Rattle.cx_role.specs.Prelude.mode;
ghost use Rattle.cx_field.specs.Fields as field;
ghost use Rattle.cx_model.specs.Leader.{set_learnt, sets_row, leader_rules};

use crate::Leader;
use crate::sending::{ask_to_forget, ask_to_record};
use cx_base::{NoMemory, Set, Why};
use cx_field::Entry;
use cx_model::{Mode, Stage};
use cx_role::Outbox;

impl Leader {
    // It asks these matchmakers to record its round.
    fn match_anew(&mut self, set: Set, own: &Entry, out: &mut Outbox) -> Result<Why, NoMemory>
        requires mode { self.old.volatile.mode ≡ mode.Matching }
        requires round { IsTrue (field.round.fits own.now.round) }
        requires empty { out.old.list ≡ [] }
        ensures { let s = self.old in
            IsReply leader_rules s (set_learnt s.me (record s.volatile { set = set }) mode.Matching
            (Some own.now)) result self.new out.new.list }
    {
        out.room(set.ids().len())?;
        self.set = set;
        self.told.clear();
        ask_to_record(self.index, own.round, &own.grid, set.ids(), out);
        Ok(Why::Learnt)
    }

    // Where matchmakers are to forget the earlier rounds, it asks these. In another stage it waits for none.
    fn collect_anew(&mut self, set: Set, own: &Entry, out: &mut Outbox) -> Result<Why, NoMemory>
        requires round { IsTrue (field.round.fits own.now.round) }
        requires empty { out.old.list ≡ [] }
        ensures { let s = self.old in
            IsReply leader_rules s (set_learnt s.me (record s.volatile { set = set }) mode.Leading
            (Some own.now)) result self.new out.new.list }
    {
        if !matches!(self.collector.stage(), Stage::Collecting) {
            self.set = set;
            return Ok(Why::Learnt);
        }
        out.room(set.ids().len())?;
        self.set = set;
        self.collector.recount();
        ask_to_forget(self.index, own, set.ids(), out);
        Ok(Why::Learnt)
    }

    // It begins anew with what it waits for from matchmakers. Idle or in phase 1 it waits for nothing from them.
    fn asks_anew(&mut self, set: Set, out: &mut Outbox) -> Result<Why, NoMemory>
        requires empty { out.old.list ≡ [] }
        ensures { let s = self.old in
            IsReply leader_rules s
            (set_learnt s.me (record s.volatile { set = set }) s.volatile.mode s.durable.own)
            result self.new out.new.list }
    {
        let Some(own) = self.own else {
            self.set = set;
            return Ok(Why::Learnt);
        };
        match self.mode {
            Mode::Idle | Mode::Phase1 => {
                self.set = set;
                Ok(Why::Learnt)
            }
            Mode::Matching => self.match_anew(set, &own, out),
            Mode::Leading => self.collect_anew(set, &own, out),
        }
    }

    /// Another set of matchmakers took over. It becomes the known one if it is above that (each of its indexes is greater).
    /// What is still waited for is then asked of it, and answers of the earlier set count no longer.
    pub(crate) fn learn(&mut self, set: Set, out: &mut Outbox) -> Result<Why, NoMemory>
        requires empty { out.old.list ≡ [] }
        ensures { let s = self.old in
            IsReply leader_rules s (sets_row s.me s.durable s.volatile set) result self.new
            out.new.list }
    {
        if !set.is_above(&self.set) {
            return Ok(Why::Old);
        }
        self.asks_anew(set, out)
    }
}
