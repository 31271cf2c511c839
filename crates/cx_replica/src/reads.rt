//! The rows of reads, and of the value that another replica asks for.

ghost use Rattle.std.specs.Prelude.{◌≡◌, [], IsTrue};
ghost use Rattle.cx_base.specs.Role.{role};
ghost use Rattle.cx_base.specs.declared.role.Kind.{Kind};
ghost use Rattle.cx_model.specs.Replica.{before, fetch_row, fetched_by, read_row, replica_rules};
ghost use Rattle.cx_field.specs.Fields as field;
ghost use Rattle.cx_role.specs.Role.{IsReply};

use crate::replica::Replica;
use crate::sending::answer_at;
use cx_base::{NoMemory, READS, RoleId, Why};
use cx_letter::fetched;
use cx_model::Deferred;
use cx_role::Outbox;

impl Replica {
    /// A reader, or a client in a session, asks for a key's text, once the slots that it names are held. It is answered at
    /// once where they are, and else waits.
    /// A reader is a role that reads for a client, which the token names; in a session the client asks by itself.
    #[tactic(auto, using(crate::proofs::Values::mark_fits))]
    pub(crate) fn read(&mut self, one: Deferred, out: &mut Outbox) -> Result<Why, NoMemory>
        requires token { IsTrue (field.token.fits one.token) }
        requires empty { out.old.list ≡ [] }
        ensures { IsReply replica_rules self.old (read_row self.old.me self.old.durable
            self.old.volatile one) result self.new out.new.list }
    {
        let held = self.log.held();
        if one.mark <= held {
            out.room(1)?;
            out.push(answer_at(self.me, held, &self.machine, &one));
            return Ok(Why::Answered);
        }
        if self.deferred.has(one.token) {
            return Ok(Why::Same);
        }
        if self.deferred.len() >= READS {
            return Ok(Why::Full);
        }
        self.deferred.push(one)?;
        Ok(Why::Deferred)
    }

    /// The replica that asks this one for values: each asks the next one, the last asks the first.
    fn before(&self) -> u32
        ensures { result ≡ before self.now.cluster self.now.me }
    {
        let replicas = u32::from(self.cluster.replicas);
        (u32::from(self.me.index) + replicas - 1) % replicas
    }

    /// The replica before this one asked for the value of a slot: it holds all lower ones, and no other replica asks this
    /// one.
    fn note_fetch(&mut self, from: RoleId, slot: u64)
        ensures { self.new ≡ record self.old {
          volatile = fetched_by self.old.cluster self.old.me self.old.volatile from slot;
        } }
    {
        if u32::from(from.index) == self.before() {
            self.fetched = self.fetched.max(slot);
        }
    }

    /// Another replica asks for the value of a slot, which may be forgotten (this project's own).
    #[tactic(auto, using(crate::proofs::Values::slot_fits, crate::proofs::Rows::fits_at))]
    pub(crate) fn fetch(
        &mut self,
        from: RoleId,
        slot: u64,
        out: &mut Outbox,
    ) -> Result<Why, NoMemory>
        requires from { from ≡ role Kind.Replica from.index }
        requires empty { out.old.list ≡ [] }
        ensures { IsReply replica_rules self.old
            (fetch_row self.old.cluster self.old.me self.old.durable self.old.volatile from slot)
            result self.new out.new.list }
    {
        if slot < self.log.first() {
            self.note_fetch(from, slot);
            return Ok(Why::Past);
        }
        if slot >= self.log.held() {
            self.note_fetch(from, slot);
            return Ok(Why::Idle);
        }
        // Noted only after this, which may run out of memory.
        let Some(value) = self.log.value(self.alloc, slot)? else {
            self.note_fetch(from, slot);
            return Ok(Why::Idle);
        };
        out.room(1)?;
        self.note_fetch(from, slot);
        out.push(fetched(self.me.index, from.index, slot, value));
        Ok(Why::Fetched)
    }
}
