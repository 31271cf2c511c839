//! The order to send another replica values that are kept (this project's own).

ghost use Rattle.std.specs.Prelude.{◌≡◌, ◌+◌, ◌<◌, ◌≤◌, ◌++◌, ◌^◌, ◌&&◌, [], true, nat_lt, OnErr, OnOk};
ghost use Rattle.cx_base.specs.Role.{role};
ghost use Rattle.cx_base.specs.declared.role.Kind.{Kind};
ghost use Rattle.cx_model.specs.Replica.{held, offer_of, offer_row, offers, replica_rules, value_kept};
ghost use Rattle.cx_role.specs.Role.{IsReply};

use crate::replica::Replica;
use cx_base::{NoMemory, Why};
use cx_letter::fetched;
use cx_role::Outbox;

/// How many slots are looked at.
const OFFERED: u64 = 32;

impl Replica {
    // Sends the value of a slot, where it is kept. Room was taken beforehand.
    #[tactic(auto, using(crate::proofs::Offering::past, crate::proofs::Values::slot_fits, crate::proofs::Rows::fits_at))]
    fn offer_at(&self, to: u16, slot: u64, out: &mut Outbox) -> Result<(), NoMemory>
        requires spare { 0 < out.old.spare }
        ensures list { let s = self.now in
            OnOk result (out.new.list ≡ out.old.list
            ++ offer_of s.me (role Kind.Replica to) slot (value_kept s.durable slot)) }
        ensures spare { out.old.spare ≤ out.new.spare + 1 }
    {
        if slot >= self.log.held() {
            return Ok(());
        }
        let Some(value) = self.log.value(self.alloc, slot)? else {
            return Ok(());
        };
        out.push(fetched(self.me.index, to, slot, value));
        Ok(())
    }

    // Sends the values of `count` slots from this one on, where they are kept, the greatest slot first. Room was taken beforehand.
    #[tactic(auto, using(crate::proofs::Offering::offers_next))]
    fn offer_each(&self, to: u16, slot: u64, count: u64, out: &mut Outbox) -> Result<(), NoMemory>
        requires spare { count ≤ out.old.spare }
        requires few { count ≤ 32 }
        requires short { slot < 2 ^ 40 }
        ensures { let s = self.now in
            OnOk result (out.new.list ≡ out.old.list
            ++ offers s.me (role Kind.Replica to) s.durable slot count) }
    {
        for passed in 0..count {
            self.offer_at(to, slot + (count - passed - 1), out)?;
        }
        Ok(())
    }

    // Sends the values of `count` slots, or nothing when out of memory.
    fn offer_all(&self, to: u16, slot: u64, count: u64, out: &mut Outbox) -> Result<(), NoMemory>
        requires empty { out.old.list ≡ [] }
        requires few { count ≤ 32 }
        requires short { slot < 2 ^ 40 }
        ensures sent { let s = self.now in
            OnOk result (out.new.list ≡ offers s.me (role Kind.Replica to) s.durable slot count) }
        ensures none { OnErr result (out.new.list ≡ []) }
    {
        out.room(count as usize)?;
        match self.offer_each(to, slot, count, out) {
            Ok(()) => Ok(()),
            Err(NoMemory) => {
                out.clear();
                Err(NoMemory)
            }
        }
    }

    // Whether a value is kept of one of `count` slots from this one on.
    fn keeps_some(&self, slot: u64, count: u64) -> bool
        requires { count ≤ 32 }
        ensures some { let d = self.now.durable in result
            ≡ (nat_lt slot (held d) && nat_lt d.first (held d) && nat_lt d.first (slot + count)) }
        ensures short { result ≡ true → slot < 2 ^ 40 }
    {
        let (first, held) = (self.log.first(), self.log.held());
        slot < held && first < held && first < slot + count
    }

    /// The order to send another replica the values that are kept of 32 slots from this one on, the greatest slot first. It
    /// changes nothing.
    #[tactic(auto, using(crate::proofs::Offering::none_word, crate::proofs::Offering::some_word))]
    pub(crate) fn offer(&self, to: u16, slot: u64, out: &mut Outbox) -> Result<Why, NoMemory>
        requires empty { out.old.list ≡ [] }
        ensures { let s = self.now in
            IsReply replica_rules s (offer_row s.cluster s.me s.durable s.volatile to slot) result s
            out.new.list }
    {
        if to >= self.cluster.replicas || to == self.me.index {
            return Ok(Why::Stranger);
        }
        if !self.keeps_some(slot, OFFERED) {
            return Ok(Why::Idle);
        }
        self.offer_all(to, slot, OFFERED, out)?;
        Ok(Why::Fetched)
    }
}
