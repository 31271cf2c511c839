//! The rows of a matchmaker.

ghost use Rattle.std.specs.Prelude.{◌≡◌};
ghost use Rattle.cx_role.specs.Prelude.{[], IsTrue, Kind, role, IsReply, IsStep};
ghost use Rattle.cx_model.specs.Matchmaker.{garbage_a_row, matchmaker_rules, match_a_row, match_read_row};
ghost use Rattle.cx_field.specs.Fields as field;

use crate::Matchmaker;
use crate::entries::{
    all_entries, earlier_entries, entries_again, has_entry, has_later, has_place, last_round,
    make_room, retire,
};
use crate::records::keep_own;
use cx_base::{Grid, NoMemory, RoleId, Round, Why};
use cx_field::{Asking, Entry, NackReason};
use cx_keep::Keeper;
use cx_letter::{Record, garbage_b, match_b, match_nack, match_read_ack};
use cx_role::{Outbox, StepFault};

impl Matchmaker {
    /// A leader asks that a round be recorded, and for the earlier rounds and their grids (JSys 2021). A round below the
    /// retirement watermark, one below another that is recorded, and one for which there is no room are refused (the limit
    /// of 16 is this project's own).
    pub(crate) fn match_a<K: Keeper>(
        &mut self,
        keeper: &mut K,
        from: RoleId,
        round: Round,
        grid: Grid,
        out: &mut Outbox,
    ) -> Result<Why, StepFault>
        requires empty { out.old.list ≡ [] }
        requires sender { from ≡ role Kind.Leader from.index }
        requires round { IsTrue (field.round.fits round) }
        requires grid { IsTrue (field.grid.fits grid) }
        ensures { IsStep K.append_gives K.tells matchmaker_rules self.old
            (match_a_row self.old.cluster self.old.me self.old.durable from round grid)
            result self.new keeper.old keeper.new out.new.list }
    {
        if round.is_before(&self.watermark) {
            out.room(1)?;
            out.push(match_nack(
                self.me.index,
                from.index,
                round,
                NackReason::Collected,
                self.watermark,
            ));
            return Ok(Why::Collected);
        }
        if has_later(&self.entries, round) {
            let last = last_round(&self.entries);
            out.room(1)?;
            out.push(match_nack(self.me.index, from.index, round, NackReason::Later, last));
            return Ok(Why::Later);
        }
        if has_entry(&self.entries, round) {
            let entries = entries_again(self.alloc, &self.cluster, &self.entries, round)?;
            out.room(1)?;
            out.push(match_b(self.me.index, from.index, round, self.watermark, entries));
            return Ok(Why::Same);
        }
        if !has_place(&self.cluster, &grid, &self.entries) {
            let last = last_round(&self.entries);
            out.room(1)?;
            out.push(match_nack(self.me.index, from.index, round, NackReason::Full, last));
            return Ok(Why::Full);
        }
        let entries = earlier_entries(self.alloc, &self.entries, round)?;
        self.entries.reserve(1)?;
        out.room(1)?;
        keep_own(keeper, &mut self.live, Record::Match { round, grid })?;
        make_room(&mut self.entries, self.watermark, &grid);
        self.entries.push_reserved(Entry { round, grid });
        out.push(match_b(self.me.index, from.index, round, self.watermark, entries));
        Ok(Why::Matched)
    }

    /// A leader asks to forget the rounds below its own (JSys 2021). The entry of its own round stays, or is made (this
    /// project's own).
    pub(crate) fn garbage_a<K: Keeper>(
        &mut self,
        keeper: &mut K,
        from: RoleId,
        round: Round,
        grid: Grid,
        out: &mut Outbox,
    ) -> Result<Why, StepFault>
        requires empty { out.old.list ≡ [] }
        requires sender { from ≡ role Kind.Leader from.index }
        requires round { IsTrue (field.round.fits round) }
        requires grid { IsTrue (field.grid.fits grid) }
        ensures { IsStep K.append_gives K.tells matchmaker_rules self.old
            (garbage_a_row self.old.me self.old.durable from round grid)
            result self.new keeper.old keeper.new out.new.list }
    {
        out.room(1)?;
        if !self.watermark.is_before(&round) {
            out.push(garbage_b(self.me.index, from.index, round));
            return Ok(Why::Same);
        }
        self.entries.reserve(1)?;
        keep_own(keeper, &mut self.live, Record::Garbage { round, grid })?;
        self.watermark = round;
        retire(&mut self.entries, round, grid);
        out.push(garbage_b(self.me.index, from.index, round));
        Ok(Why::Raised)
    }

    /// A reader asks for the retirement watermark and all entries (this project's own).
    pub(crate) fn match_read(
        &self,
        from: RoleId,
        asking: Asking,
        out: &mut Outbox,
    ) -> Result<Why, NoMemory>
        requires empty { out.old.list ≡ [] }
        requires sender { from ≡ role Kind.Reader from.index }
        requires asking { IsTrue (field.asking.fits asking) }
        ensures { IsReply matchmaker_rules self.now
            (match_read_row self.now.me self.now.durable from asking) result self.now out.new.list }
    {
        let entries = all_entries(self.alloc, &self.entries)?;
        out.room(1)?;
        out.push(match_read_ack(self.me.index, from.index, asking, self.watermark, entries));
        Ok(Why::Asked)
    }
}
