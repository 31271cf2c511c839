//! A leader that asks the matchmakers which grids earlier rounds used (JSys 2021). A grid is live until its round is retired.

ghost use Rattle.std.specs.Prelude.{◌≡◌, ◌++◌, ◌∷◌, ◌&&◌};
ghost use Rattle.cx_role.specs.Prelude.{[], Some, IsTrue, is_in, list_all, live_entries, names_entry};
ghost use Rattle.cx_role.specs.Prelude.{Entry as EntryOf, IsReply};
ghost use Rattle.cx_model.specs.Leader.{is_matching, is_own, bypass, finish, matched_by, match_counted, match_b_row};
ghost use Rattle.cx_model.specs.Leader.{leader_rules};
ghost use Rattle.cx_leader.specs.Promising.{ask_row, leader_with_answer};
ghost use Rattle.cx_leader.specs.State.{is_named};

use crate::Leader;
use crate::entries::{is_counted, live_entries};
use crate::leading::begin_to_lead;
use crate::rounds::{is_same, round_of};
use crate::sending::{ask_to_promise, tell_batchers};
use cx_base::{Duplicate, NoMemory, RoleId, Round, Why};
use cx_field::{Entries, Entry};
use cx_model::{MatchAnswer, Mode};
use cx_phase1::Phase1;
use cx_role::Outbox;

impl Leader {
    // No earlier grid is live, so there is nobody to ask, and nothing to propose: a round that has proposed is recorded by
    // f + 1 matchmakers, and one that retires it is live in its place.
    fn lead_alone(
        &mut self,
        answer: MatchAnswer,
        own: &Entry,
        out: &mut Outbox,
    ) -> Result<Why, NoMemory>
        requires mode { IsTrue (is_matching self.old.volatile.mode) }
        requires own { self.old.durable.own ≡ Some own.now }
        requires named { IsTrue (is_named self.old.cluster answer) }
        requires empty { out.old.list ≡ [] }
        ensures { let s = self.old in let v = leader_with_answer answer s.volatile in
            IsReply leader_rules s (finish s.cluster s.me own.now v) result self.new out.new.list }
    {
        self.told.reserve(1)?;
        out.room(usize::from(self.cluster.batchers))?;
        self.told.push_reserved(answer);
        self.mode = Mode::Leading;
        self.proposals.clear();
        tell_batchers(self.index, own.round, self.cluster.batchers, out);
        Ok(Why::Leads)
    }

    // The round came by a change, so no acceptor is asked (phase 1 bypassing, JSys 2021): no round lies between it and the
    // one before, in which its leader proposed all that can have been chosen from `cw` on. It proposes these values again. The
    // matchmakers' answers say only that later leaders will find its grid.
    fn bypass(
        &mut self,
        answer: MatchAnswer,
        own: &Entry,
        out: &mut Outbox,
    ) -> Result<Why, NoMemory>
        requires mode { IsTrue (is_matching self.old.volatile.mode) }
        requires own { self.old.durable.own ≡ Some own.now }
        requires named { IsTrue (is_named self.old.cluster answer) }
        requires empty { out.old.list ≡ [] }
        ensures { let s = self.old in let v = leader_with_answer answer s.volatile in
            IsReply leader_rules s (bypass s.cluster s.me own.now v) result self.new out.new.list }
    {
        self.told.reserve(1)?;
        let proposals = &self.proposals;
        begin_to_lead(self.alloc, &self.cluster, self.index, own, proposals, out)?;
        self.told.push_reserved(answer);
        self.mode = Mode::Leading;
        self.proposals.lead_on();
        Ok(Why::Bypassed)
    }

    // The acceptors of the live grids are asked.
    fn ask(
        &mut self,
        answer: MatchAnswer,
        live: &[Entry],
        own: &Entry,
        out: &mut Outbox,
    ) -> Result<Why, NoMemory>
        requires mode { IsTrue (is_matching self.old.volatile.mode) }
        requires own { self.old.durable.own ≡ Some own.now }
        requires named { IsTrue (is_named self.old.cluster answer) }
        requires live { live.now ≡ live_entries (self.old.volatile.told ++ answer ∷ []) }
        requires empty { out.old.list ≡ [] }
        ensures { let s = self.old in let v = leader_with_answer answer s.volatile in
            IsReply leader_rules s (ask_row s.cluster s.me own.now v live.now) result self.new
            out.new.list }
    {
        let phase1 = Phase1::new(self.alloc, live)?;
        self.told.reserve(1)?;
        out.room(usize::from(self.cluster.acceptors))?;
        self.told.push_reserved(answer);
        ask_to_promise(self.index, own.round, &self.cluster, &phase1, out);
        self.phase1 = Some(phase1);
        self.mode = Mode::Phase1;
        Ok(Why::Phase1)
    }

    // Enough matchmakers have answered, in a round that came by an order to lead.
    fn matched(
        &mut self,
        answer: MatchAnswer,
        own: &Entry,
        out: &mut Outbox,
    ) -> Result<Why, NoMemory>
        requires mode { IsTrue (is_matching self.old.volatile.mode) }
        requires own { self.old.durable.own ≡ Some own.now }
        requires named { IsTrue (is_named self.old.cluster answer) }
        requires empty { out.old.list ≡ [] }
        ensures { let s = self.old in let v = leader_with_answer answer s.volatile in
            IsReply leader_rules s (matched_by s.cluster s.me own.now v (live_entries v.told))
            result self.new out.new.list }
    {
        let live = live_entries(self.alloc, &self.told, &answer)?;
        match live.as_slice() {
            [] => self.lead_alone(answer, own, out),
            [_, ..] => self.ask(answer, &live, own, out),
        }
    }

    // One more matchmaker has answered.
    fn count(&mut self, answer: MatchAnswer, own: &Entry, out: &mut Outbox) -> Result<Why, NoMemory>
        requires mode { IsTrue (is_matching self.old.volatile.mode) }
        requires own { self.old.durable.own ≡ Some own.now }
        requires named { IsTrue (is_named self.old.cluster answer) }
        requires empty { out.old.list ≡ [] }
        ensures { let s = self.old in let v = leader_with_answer answer s.volatile in
            IsReply leader_rules s (match_counted s.cluster s.me s.durable.own v) result self.new
            out.new.list }
    {
        // The list lacks this answer: with f in it, f + 1 have answered.
        if self.told.len() < usize::from(self.cluster.f) {
            self.told.push(answer)?;
            return Ok(Why::Counted);
        }
        // The third number of a round counts the changes of its grid: an order to lead begins with 0.
        if own.round.s > 0 {
            return self.bypass(answer, own, out);
        }
        self.matched(answer, own, out)
    }

    // Whether a matchmaker is asked in this round: it is of the known set, and enough of these have not answered yet.
    fn awaits(&self, matchmaker: u16, round: Round) -> bool
        ensures { let s = self.now in
            result ≡ (is_matching s.volatile.mode && is_own s.durable round
            && is_in matchmaker s.volatile.set) }
    {
        matches!(self.mode, Mode::Matching)
            && is_same(round, round_of(&self.own))
            && self.set.contains(matchmaker)
    }

    /// A matchmaker answers with its retirement watermark and its entries.
    pub(crate) fn match_answer(
        &mut self,
        from: RoleId,
        round: Round,
        watermark: Round,
        entries: &Entries,
        out: &mut Outbox,
    ) -> Result<Why, NoMemory>
        requires empty { out.old.list ≡ [] }
        requires named { IsTrue (list_all (λ (e : EntryOf). names_entry self.old.cluster e)
            entries.now) }
        ensures { let s = self.old in
            IsReply leader_rules s (match_b_row s.cluster s.me s.durable s.volatile from round
            watermark entries.now) result self.new out.new.list }
    {
        if !self.awaits(from.index, round) {
            return Ok(Why::Old);
        }
        if is_counted(&self.told, from.index) {
            return Ok(Why::Same);
        }
        let Some(own) = self.own else {
            return Ok(Why::Old);
        };
        let answer = MatchAnswer {
            matchmaker: from.index,
            watermark,
            entries: entries.copy(self.alloc)?,
        };
        self.count(answer, &own, out)
    }
}
