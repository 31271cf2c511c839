//! A leader that asks the acceptors of earlier grids to promise its round (VLDB 2021).

ghost use Rattle.std.specs.Prelude.{◌≡◌, ◌&&◌};
ghost use Rattle.cx_role.specs.Prelude.{[], Some, IsTrue, Promised, IsReply};
ghost use Rattle.cx_model.specs.Leader.{is_promising, is_own, phase1b_row, leader_rules};
ghost use Rattle.cx_field.specs.Fields as field;
ghost use Rattle.cx_leader.specs.Promising.{promised_row};

use crate::Leader;
use crate::rounds::{is_same, round_of};
use cx_base::{Duplicate, NoMemory, RoleId, Round, Why};
use cx_field::{Entry, Votes};
use cx_model::Mode;
use cx_phase1::Told;
use cx_role::Outbox;

impl Leader {
    // Whether it waits for promises of this round.
    fn asks(&self, round: Round) -> bool
        ensures { result ≡ (is_promising self.now.volatile.mode && is_own self.now.durable round) }
    {
        matches!(self.mode, Mode::Phase1) && is_same(round, round_of(&self.own))
    }

    // An acceptor that is asked in this round has answered. The answer is counted in a copy, which is put in place when
    // nothing can fail any more.
    fn promised(
        &mut self,
        own: &Entry,
        acceptor: u16,
        cw: u64,
        votes: &Votes,
        out: &mut Outbox,
    ) -> Result<Why, NoMemory>
        requires mode { IsTrue (is_promising self.old.volatile.mode) }
        requires own { self.old.durable.own ≡ Some own.now }
        requires cw { IsTrue (field.mark.fits cw) }
        requires votes { IsTrue ((field.votes cw).fits votes.now) }
        requires empty { out.old.list ≡ [] }
        ensures { let s = self.old in
            let p : Promised = record { acceptor = acceptor; cw = cw; votes = votes.now } in
            IsReply leader_rules s (promised_row s.cluster s.me own.now s.volatile p) result
            self.new out.new.list }
    {
        let Some(phase1) = &self.phase1 else {
            return Ok(Why::Unasked);
        };
        if !phase1.asks(acceptor) {
            return Ok(Why::Unasked);
        }
        let mut phase1 = phase1.copy(self.alloc)?;
        match phase1.answer(acceptor, cw, votes)? {
            Told::Unasked => Ok(Why::Unasked),
            Told::Same => Ok(Why::Same),
            Told::Counted => {
                self.phase1 = Some(phase1);
                Ok(Why::Counted)
            }
            // Each live grid now has a whole row of promises. The plan begins at the greatest chosen watermark, this
            // leader's or a reported one.
            Told::Whole => {
                let plan = phase1.plan(self.proposals.cw())?;
                self.lead_with(own, &plan, out)
            }
        }
    }

    /// An acceptor promises, and reports its votes.
    pub(crate) fn promise(
        &mut self,
        from: RoleId,
        round: Round,
        cw: u64,
        votes: &Votes,
        out: &mut Outbox,
    ) -> Result<Why, NoMemory>
        requires cw { IsTrue (field.mark.fits cw) }
        requires votes { IsTrue ((field.votes cw).fits votes.now) }
        requires empty { out.old.list ≡ [] }
        ensures { let s = self.old in
            IsReply leader_rules s (phase1b_row s.cluster s.me s.durable s.volatile from round cw
            votes.now) result self.new out.new.list }
    {
        if !self.asks(round) {
            return Ok(Why::Old);
        }
        let Some(own) = self.own else {
            return Ok(Why::Old);
        };
        self.promised(&own, from.index, cw, votes, out)
    }
}
