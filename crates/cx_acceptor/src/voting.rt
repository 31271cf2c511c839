//! The row of a vote.

ghost use Rattle.std.specs.Prelude.{◌≡◌};
ghost use Rattle.cx_role.specs.Prelude.{[], IsTrue, Kind, role, in_window, names_round, names_value, IsStep};
ghost use Rattle.cx_model.specs.Acceptor.{acceptor_rules, phase2a_row};
ghost use Rattle.cx_field.specs.Fields as field;

use crate::Acceptor;
use crate::votes::{has_vote_in_round, keep_from, place};
use cx_base::{Duplicate, RoleId, Round, Value, Why};
use cx_field::Vote;
use cx_keep::Keeper;
use cx_letter::{Record, phase2b};
use cx_role::{Outbox, StepFault, keep};

impl Acceptor {
    /// A proxy leader asks for a vote: in a round below the promised one the round's leader is warned, else the vote is
    /// kept before it is sent, once for each round and slot (VLDB 2021).
    pub(crate) fn phase2a<K: Keeper>(
        &mut self,
        keeper: &mut K,
        from: RoleId,
        round: Round,
        slot: u64,
        cw: u64,
        value: &Value,
        out: &mut Outbox,
    ) -> Result<Why, StepFault>
        requires empty { out.old.list ≡ [] }
        requires sender { from ≡ role Kind.Proxy from.index }
        requires round { IsTrue (field.round.fits round) }
        requires slot { IsTrue (field.slot.fits slot) }
        requires mark { IsTrue (field.mark.fits cw) }
        requires window { IsTrue (in_window cw slot) }
        requires value { IsTrue (field.value.fits value.now) }
        requires named { IsTrue (names_round self.old.cluster round) }
        requires values { IsTrue (names_value self.old.cluster value.now) }
        ensures { IsStep K.append_gives K.tells acceptor_rules self.old
            (phase2a_row self.old.me self.old.durable from round slot cw value.now)
            result self.new keeper.old keeper.new out.new.list }
    {
        if round.is_before(&self.promise) {
            return Ok(self.refuse(round, out)?);
        }
        if slot < self.cw {
            return Ok(Why::Past);
        }
        if has_vote_in_round(&self.votes, slot, round) {
            out.room(1)?;
            out.push(phase2b(self.me.index, from.index, round, slot));
            return Ok(Why::Same);
        }
        let vote = Vote {
            round,
            slot,
            value: value.copy(self.alloc)?,
        };
        let record = Record::Vote {
            round,
            slot,
            cw,
            value: value.copy(self.alloc)?,
        };
        self.votes.reserve(1)?;
        out.room(1)?;
        keep(keeper, &mut self.live, &record)?;
        self.promise = round;
        self.cw = self.cw.max(cw);
        self.top = self.top.max(slot + 1);
        keep_from(&mut self.votes, self.cw);
        place(&mut self.votes, vote);
        out.push(phase2b(self.me.index, from.index, round, slot));
        Ok(Why::Voted)
    }
}
