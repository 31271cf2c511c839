//! The row of a promise.

ghost use Rattle.std.specs.Prelude.{◌≡◌, ◌∷◌};
ghost use Rattle.cx_role.specs.Prelude.{[], true, IfOk, IsTrue, Kind, role, is_before, names_round, replied, IsReply, IsStep};
ghost use Rattle.cx_model.specs.Acceptor.{acceptor_rules, nack_to, phase1a_row};
ghost use Rattle.cx_field.specs.Fields as field;

use crate::Acceptor;
use cx_base::{Few, NoMemory, RoleId, Round, Why, copy_all};
use cx_field::Votes;
use cx_keep::Keeper;
use cx_letter::{Record, nack, phase1b};
use cx_role::{Outbox, StepFault, keep};

impl Acceptor {
    /// A leader asks to promise its round, and for the votes from the chosen watermark on; they are reported once the promise
    /// is kept (VLDB 2021).
    pub(crate) fn phase1a<K: Keeper>(
        &mut self,
        keeper: &mut K,
        from: RoleId,
        round: Round,
        out: &mut Outbox,
    ) -> Result<Why, StepFault>
        requires empty { out.old.list ≡ [] }
        requires sender { from ≡ role Kind.Leader from.index }
        requires round { IsTrue (field.round.fits round) }
        requires named { IsTrue (names_round self.old.cluster round) }
        ensures { IsStep K.append_gives K.tells acceptor_rules self.old
            (phase1a_row self.old.me self.old.durable from round)
            result self.new keeper.old keeper.new out.new.list }
    {
        if round.is_before(&self.promise) {
            return Ok(self.refuse(round, out)?);
        }
        let votes = self.told_votes()?;
        out.room(1)?;
        if round == self.promise {
            out.push(phase1b(self.me.index, from.index, round, self.cw, votes));
            return Ok(Why::Same);
        }
        keep(keeper, &mut self.live, &Record::Promise { round })?;
        self.promise = round;
        out.push(phase1b(self.me.index, from.index, round, self.cw, votes));
        Ok(Why::Promised)
    }

    /// Tells a round's leader that a greater one was promised.
    pub(crate) fn refuse(&self, round: Round, out: &mut Outbox) -> Result<Why, NoMemory>
        requires before { is_before round self.now.durable.promise ≡ true }
        requires empty { out.old.list ≡ [] }
        requires round { IsTrue (field.round.fits round) }
        ensures { IsReply acceptor_rules self.now
            (replied Why.Nack tt (nack_to self.now.me round self.now.durable.promise ∷ []))
            result self.now out.new.list }
    {
        out.room(1)?;
        out.push(nack(self.me.index, round.id, round, self.promise));
        Ok(Why::Nack)
    }

    pub(crate) fn told_votes(&self) -> Result<Votes, NoMemory>
        ensures votes { IfOk result (λ votes. votes ≡ self.now.durable.votes) }
        ensures fit { IfOk result (λ votes. IsTrue ((field.votes self.now.durable.cw).fits votes)) }
    {
        Ok(Few::from_vec(copy_all(self.alloc, &self.votes)?))
    }
}
