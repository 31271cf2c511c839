//! A replacer that lets the members of the next set begin.

ghost use Rattle.std.specs.Prelude.{◌≡◌, ◌<◌, ◌&&◌};
ghost use Rattle.std.specs.Str.{bytes_eq};
ghost use Rattle.cx_role.specs.Prelude.{[], true, IsStep};
ghost use Rattle.cx_model.specs.Replacer.{boot_b_row, is_booting, replacer_rules};
ghost use Rattle.cx_replace.specs.State.{next_known};

use crate::Replacer;
use crate::sends::{room_to_tell, tell_each};
use crate::sets::keep_known;
use cx_base::{RoleId, Set, Why};
use cx_keep::Keeper;
use cx_model::Replacing;
use cx_role::{Outbox, StepFault};

impl Replacer {
    // Whether it lets the members of this set begin.
    fn boots(&self, set: &Set) -> bool
        ensures { let s = self.now in result
            ≡ (is_booting s.volatile.mode && bytes_eq set.now s.volatile.next) }
    {
        matches!(self.mode, Replacing::Booting) && set.ids() == self.next.ids()
    }

    // The next set is the known one from now on, and all who ask matchmakers are told of it. It is kept first, where the header
    // says so.
    fn know_next<K: Keeper>(&mut self, keeper: &mut K, out: &mut Outbox) -> Result<Why, StepFault>
        requires live { self.old.live ≡ true }
        requires empty { out.old.list ≡ [] }
        ensures { let s = self.old in
            IsStep K.append_gives K.tells replacer_rules s (next_known s.cluster s.me s.durable
            s.volatile) result self.new keeper.old keeper.new out.new.list }
    {
        room_to_tell(&self.cluster, out)?;
        if !self.keeps(&self.next) {
            tell_each(&self.cluster, self.index, &self.next, out);
            self.mode = Replacing::Idle;
            self.set = self.next;
            return Ok(Why::Replaced);
        }
        keep_known(keeper, &mut self.live, &self.next)?;
        tell_each(&self.cluster, self.index, &self.next, out);
        self.known = self.next;
        self.mode = Replacing::Idle;
        self.set = self.next;
        Ok(Why::Replaced)
    }

    /// A member of the next set has begun; with f + 1 of them it is the known one, which all who ask matchmakers are told.
    #[tactic(auto, using(crate::proofs::CountLaws::counts))]
    pub(crate) fn boot_b<K: Keeper>(
        &mut self,
        keeper: &mut K,
        from: RoleId,
        set: &Set,
        out: &mut Outbox,
    ) -> Result<Why, StepFault>
        requires live { self.old.live ≡ true }
        requires matchmaker { from.index < 64 }
        requires empty { out.old.list ≡ [] }
        ensures { let s = self.old in
            IsStep K.append_gives K.tells replacer_rules s (boot_b_row s.cluster s.me s.durable
            s.volatile from set.now) result self.new keeper.old keeper.new out.new.list }
    {
        if !self.boots(set) {
            return Ok(Why::Old);
        }
        if self.counted.contains(from.index) {
            return Ok(Why::Same);
        }
        if self.counted.len() < self.cluster.f {
            self.counted.add(from.index);
            return Ok(Why::Counted);
        }
        self.know_next(keeper, out)
    }
}
