//! The rows of how many slots are chosen.

ghost use Rattle.std.specs.Prelude.{◌≡◌};
ghost use Rattle.cx_role.specs.Prelude.{[], IsTrue, Kind, role, names_round, IsReply, IsStep};
ghost use Rattle.cx_model.specs.Acceptor.{acceptor_rules, inform_row, pre_read_row};
ghost use Rattle.cx_field.specs.Fields as field;

use crate::Acceptor;
use cx_base::{NoMemory, RoleId, Round, Why};
use cx_field::Asking;
use cx_keep::Keeper;
use cx_letter::{Record, informed, pre_read_ack};
use cx_role::{Outbox, StepFault, keep};

impl Acceptor {
    /// A leader that retires earlier rounds informs how many slots enough replicas hold; what is kept of it is the
    /// greatest number, and its round as a promise (this project's own).
    pub(crate) fn inform<K: Keeper>(
        &mut self,
        keeper: &mut K,
        from: RoleId,
        round: Round,
        mark: u64,
        out: &mut Outbox,
    ) -> Result<Why, StepFault>
        requires empty { out.old.list ≡ [] }
        requires sender { from ≡ role Kind.Leader from.index }
        requires round { IsTrue (field.round.fits round) }
        requires mark { IsTrue (field.mark.fits mark) }
        requires named { IsTrue (names_round self.old.cluster round) }
        ensures { IsStep K.append_gives K.tells acceptor_rules self.old
            (inform_row self.old.me self.old.durable from round mark)
            result self.new keeper.old keeper.new out.new.list }
    {
        if round.is_before(&self.promise) {
            return Ok(self.refuse(round, out)?);
        }
        out.room(1)?;
        if round == self.promise && mark <= self.cw {
            out.push(informed(self.me.index, from.index, round, self.cw));
            return Ok(Why::Same);
        }
        keep(keeper, &mut self.live, &Record::Water { round, mark })?;
        self.raise(round, mark);
        out.push(informed(self.me.index, from.index, round, self.cw));
        Ok(Why::Informed)
    }

    /// A reader asks from which slot on nothing was chosen by this acceptor's vote (this project's own).
    pub(crate) fn pre_read(
        &self,
        from: RoleId,
        asking: Asking,
        watermark: Round,
        out: &mut Outbox,
    ) -> Result<Why, NoMemory>
        requires empty { out.old.list ≡ [] }
        requires sender { from ≡ role Kind.Reader from.index }
        requires asking { IsTrue (field.asking.fits asking) }
        requires watermark { IsTrue (field.round0.fits watermark) }
        ensures { IsReply acceptor_rules self.now (pre_read_row self.now.me self.now.durable from
            asking watermark) result self.now out.new.list }
    {
        let mark = self.cw.max(self.top);
        out.room(1)?;
        out.push(pre_read_ack(self.me.index, from.index, asking, watermark, mark));
        Ok(Why::Asked)
    }
}
