//! A matchmaker that is replaced: within its set it answers ballots as an acceptor of one decree does, and the first ballot stops it.

ghost use Rattle.std.specs.Prelude.{◌≡◌};
ghost use Rattle.cx_role.specs.Prelude.{[], None, IsTrue, Kind, role, names_set, IsStep};
ghost use Rattle.cx_model.specs.Matchmaker.{boot_a_row, boot_in, matchmaker_rules, next_a_row, stop_a_row};
ghost use Rattle.cx_field.specs.Fields as field;

use crate::Matchmaker;
use crate::entries::all_entries;
use crate::records::keep_own;
use cx_base::{Duplicate, RoleId, Round, Set, Why, copy_all};
use cx_field::{Entries, set_fits};
use cx_keep::Keeper;
use cx_letter::{Record, boot_b, next_b, stop_b, stop_nack};
use cx_role::{Outbox, StepFault};

impl Matchmaker {
    /// A replacer asks it to stop, and to promise a ballot. A lower ballot than the one that it promised is refused.
    pub(crate) fn stop_a<K: Keeper>(
        &mut self,
        keeper: &mut K,
        from: RoleId,
        round: Round,
        out: &mut Outbox,
    ) -> Result<Why, StepFault>
        requires empty { out.old.list ≡ [] }
        requires sender { from ≡ role Kind.Replacer from.index }
        requires round { IsTrue (field.round.fits round) }
        ensures { IsStep K.append_gives K.tells matchmaker_rules self.old
            (stop_a_row self.old.me self.old.durable from round)
            result self.new keeper.old keeper.new out.new.list }
    {
        out.room(1)?;
        if round.is_before(&self.ballot) {
            out.push(stop_nack(self.me.index, from.index, round, self.ballot));
            return Ok(Why::Nack);
        }
        let entries = all_entries(self.alloc, &self.entries)?;
        let (watermark, accepted, next) = (self.watermark, self.accepted, self.next);
        if round == self.ballot {
            out.push(stop_b(
                self.me.index,
                from.index,
                round,
                watermark,
                entries,
                accepted,
                next,
            ));
            return Ok(Why::Same);
        }
        keep_own(keeper, &mut self.live, Record::Stop { round })?;
        self.ballot = round;
        out.push(stop_b(
            self.me.index,
            from.index,
            round,
            watermark,
            entries,
            accepted,
            next,
        ));
        Ok(Why::Halted)
    }

    /// A replacer asks it to accept a set, as the one that follows its own. What it accepts in a ballot it promises too.
    pub(crate) fn next_a<K: Keeper>(
        &mut self,
        keeper: &mut K,
        from: RoleId,
        round: Round,
        set: &Set,
        out: &mut Outbox,
    ) -> Result<Why, StepFault>
        requires empty { out.old.list ≡ [] }
        requires sender { from ≡ role Kind.Replacer from.index }
        requires round { IsTrue (field.round.fits round) }
        requires set { IsTrue (names_set self.old.cluster set.now) }
        ensures { IsStep K.append_gives K.tells matchmaker_rules self.old
            (next_a_row self.old.me self.old.durable from round set.now)
            result self.new keeper.old keeper.new out.new.list }
    {
        out.room(1)?;
        if round.is_before(&self.ballot) {
            out.push(stop_nack(self.me.index, from.index, round, self.ballot));
            return Ok(Why::Nack);
        }
        if round == self.accepted {
            out.push(next_b(self.me.index, from.index, round));
            return Ok(Why::Same);
        }
        set_fits(set);
        keep_own(keeper, &mut self.live, Record::Next { round, set: *set })?;
        self.ballot = round;
        self.accepted = round;
        self.next = *set;
        out.push(next_b(self.me.index, from.index, round));
        Ok(Why::Accepted)
    }

    // A matchmaker that is of no set begins in this one.
    fn boot<K: Keeper>(
        &mut self,
        keeper: &mut K,
        from: RoleId,
        set: &Set,
        watermark: Round,
        entries: &Entries,
        out: &mut Outbox,
    ) -> Result<Why, StepFault>
        requires empty { out.old.list ≡ [] }
        requires sender { from ≡ role Kind.Replacer from.index }
        requires watermark { IsTrue (field.round0.fits watermark) }
        requires entries { IsTrue (field.joined.fits entries.now) }
        ensures { IsStep K.append_gives K.tells matchmaker_rules self.old
            (boot_in self.old.me from set.now watermark entries.now None)
            result self.new keeper.old keeper.new out.new.list }
    {
        let begun = copy_all(self.alloc, entries.as_slice())?;
        let entries = entries.copy(self.alloc)?;
        out.room(1)?;
        set_fits(set);
        keep_own(
            keeper,
            &mut self.live,
            Record::Boot {
                set: *set,
                watermark,
                entries,
            },
        )?;
        self.booted = Some(*set);
        self.watermark = watermark;
        self.entries = begun;
        out.push(boot_b(self.me.index, from.index, *set));
        Ok(Why::Booted)
    }

    /// A replacer asks it to begin in a set that was decided, with what the members of the set before had.
    pub(crate) fn boot_a<K: Keeper>(
        &mut self,
        keeper: &mut K,
        from: RoleId,
        set: &Set,
        watermark: Round,
        entries: &Entries,
        out: &mut Outbox,
    ) -> Result<Why, StepFault>
        requires empty { out.old.list ≡ [] }
        requires sender { from ≡ role Kind.Replacer from.index }
        requires watermark { IsTrue (field.round0.fits watermark) }
        requires entries { IsTrue (field.joined.fits entries.now) }
        ensures { let s = self.old in
            IsStep K.append_gives K.tells matchmaker_rules s
            (boot_a_row s.cluster s.me s.durable from set.now watermark entries.now)
            result self.new keeper.old keeper.new out.new.list }
    {
        if !set.contains(self.me.index) {
            return Ok(Why::Unasked);
        }
        match self.own_set() {
            Some(own) => {
                if set.ids() != own.ids() {
                    return Ok(Why::Old);
                }
                out.room(1)?;
                out.push(boot_b(self.me.index, from.index, *set));
                Ok(Why::Same)
            }
            None => self.boot(keeper, from, set, watermark, entries, out),
        }
    }
}
