//! The order to replace the known set.

ghost use Rattle.std.specs.Prelude.{◌≡◌};
ghost use Rattle.cx_role.specs.Prelude.{[], true, Some, IsTrue, IsStep, MayKeep};
ghost use Rattle.cx_model.specs.Replacer.{begin_in, replace_row, replacer_rules};
ghost use Rattle.cx_field.specs.Fields as field;

use crate::Replacer;
use crate::counted::Counted;
use crate::sends::ask_to_stop;
use cx_base::{Round, Set, Why};
use cx_keep::Keeper;
use cx_letter::Record;
use cx_model::Replacing;
use cx_role::{Outbox, StepFault, keep, names_set};

impl Replacer {
    // The ballot is kept before the known set is asked to stop.
    #[tactic(auto, unfolding(cx_letter::specs::Records::kept_record))]
    fn begin<K: Keeper>(
        &mut self,
        keeper: &mut K,
        ballot: Round,
        set: &Set,
        out: &mut Outbox,
    ) -> Result<Why, StepFault>
        requires live { self.old.live ≡ true }
        requires empty { out.old.list ≡ [] }
        requires ballot { IsTrue (field.round.fits ballot) }
        ensures { let s = self.old in
            IsStep K.append_gives K.tells replacer_rules s (begin_in s.me s.volatile set.now
            (Some ballot)) result self.new keeper.old keeper.new out.new.list }
    {
        out.room(self.set.ids().len())?;
        keep(keeper, &mut self.live, &Record::Ballot { round: ballot })?;
        self.own = ballot;
        self.mode = Replacing::Stopping;
        self.next = *set;
        self.halts.clear();
        self.counted = Counted::new();
        ask_to_stop(self.index, ballot, self.set.ids(), out);
        Ok(Why::Started)
    }

    /// The order to replace the known set by another one, which lies above it: a ballot above all that it has seen.
    #[tactic(auto, unfolding(cx_field::specs::Fields::round, cx_wire::specs::Format::u16, cx_wire::specs::Format::u32))]
    pub(crate) fn replace<K: Keeper>(
        &mut self,
        keeper: &mut K,
        set: &Set,
        out: &mut Outbox,
    ) -> Result<Why, StepFault>
        requires live { self.old.live ≡ true }
        requires empty { out.old.list ≡ [] }
        ensures step { let s = self.old in
            IsStep K.append_gives K.tells replacer_rules s (replace_row s.cluster s.me s.durable
            s.volatile set.now) result self.new keeper.old keeper.new out.new.list }
        ensures fits { let s = self.old in
            MayKeep replacer_rules s (replace_row s.cluster s.me s.durable s.volatile set.now) }
    {
        if !names_set(&self.cluster, set) {
            return Ok(Why::Stranger);
        }
        if !set.is_above(&self.set) {
            return Ok(Why::Old);
        }
        match Round::lead_after(self.own, self.seen, self.index) {
            None => Ok(Why::End),
            Some(ballot) => self.begin(keeper, ballot, set, out),
        }
    }
}
