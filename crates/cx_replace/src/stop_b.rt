//! A replacer that stops the known set: what its members had is joined, and the next set is asked for.

ghost use Rattle.std.specs.Prelude.{◌≡◌, ◌&&◌};
ghost use Rattle.cx_role.specs.Prelude.{[], IsTrue, is_in, same_round, IsReply};
ghost use Rattle.cx_model.specs.Replacer.{decide, halt_counted, is_stopping, joined_entries, replacer_rules, stop_b_row, to_decide};
ghost use Rattle.cx_replace.specs.State.{halt_fits, with_halt};
ghost use Rattle.cx_field.specs.Fields as field;

use crate::Replacer;
use crate::counted::Counted;
use crate::join::{has_halted, join, to_decide, watermark};
use crate::rounds::is_same;
use crate::sends::ask_to_accept;
use cx_base::{Duplicate, Few, JOINED, NoMemory, RoleId, Round, Set, Why};
use cx_field::Entries;
use cx_model::{Halt, MatchAnswer, Replacing};
use cx_role::Outbox;

impl Replacer {
    // Whether it waits for a matchmaker to stop under this ballot.
    fn stops(&self, matchmaker: u16, ballot: Round) -> bool
        ensures { let s = self.now in result
            ≡ (is_stopping s.volatile.mode && same_round ballot s.durable.own
            && is_in matchmaker s.volatile.set) }
    {
        matches!(self.mode, Replacing::Stopping)
            && is_same(ballot, self.own)
            && self.set.contains(matchmaker)
    }

    // Enough have stopped. More entries than one may begin with end the ballot.
    #[tactic(auto, using(crate::proofs::JoinLaws::joins))]
    fn decide(&mut self, halt: Halt, out: &mut Outbox) -> Result<Why, NoMemory>
        requires stopping { IsTrue (is_stopping self.old.volatile.mode) }
        requires halt { IsTrue (halt_fits halt) }
        requires empty { out.old.list ≡ [] }
        ensures { let s = self.old in let v = with_halt halt s.volatile in
            IsReply replacer_rules s (decide s.me s.durable v (joined_entries v.halts)
            (to_decide v.next v.halts)) result self.new out.new.list }
    {
        self.halts.reserve(1)?;
        let list = join(self.alloc, &self.halts, &halt)?;
        let next = to_decide(&self.next, &self.halts, &halt);
        let watermark = watermark(&self.halts, &halt);
        if list.len() > JOINED {
            self.halts.push_reserved(halt);
            self.mode = Replacing::Idle;
            return Ok(Why::Full);
        }
        out.room(self.set.ids().len())?;
        ask_to_accept(self.index, self.own, &next, self.set.ids(), out);
        self.halts.push_reserved(halt);
        self.mode = Replacing::Deciding;
        self.next = next;
        self.counted = Counted::new();
        self.watermark = watermark;
        self.entries = Few::from_vec(list);
        Ok(Why::Asking)
    }

    // One more has stopped.
    fn count_halt(&mut self, halt: Halt, out: &mut Outbox) -> Result<Why, NoMemory>
        requires stopping { IsTrue (is_stopping self.old.volatile.mode) }
        requires halt { IsTrue (halt_fits halt) }
        requires empty { out.old.list ≡ [] }
        ensures { let s = self.old in let v = with_halt halt s.volatile in
            IsReply replacer_rules s (halt_counted s.cluster s.me s.durable v) result self.new
            out.new.list }
    {
        if self.halts.len() < usize::from(self.cluster.f) {
            self.halts.push(halt)?;
            return Ok(Why::Counted);
        }
        self.decide(halt, out)
    }

    /// A matchmaker of the known set has stopped, and tells what it had, and which set it accepted.
    pub(crate) fn stop_b(
        &mut self,
        from: RoleId,
        ballot: Round,
        watermark: Round,
        entries: &Entries,
        accepted: Round,
        set: &Set,
        out: &mut Outbox,
    ) -> Result<Why, NoMemory>
        requires watermark { IsTrue (field.round0.fits watermark) }
        requires entries { IsTrue (field.entries.fits entries.now) }
        requires empty { out.old.list ≡ [] }
        ensures { let s = self.old in
            IsReply replacer_rules s
            (stop_b_row s.cluster s.me s.durable s.volatile from ballot watermark entries.now
            accepted set.now) result self.new out.new.list }
    {
        if !self.stops(from.index, ballot) {
            return Ok(Why::Old);
        }
        if has_halted(&self.halts, from.index) {
            return Ok(Why::Same);
        }
        let answer = MatchAnswer {
            matchmaker: from.index,
            watermark,
            entries: entries.copy(self.alloc)?,
        };
        let halt = Halt {
            answer,
            accepted,
            next: *set,
        };
        self.count_halt(halt, out)
    }
}
