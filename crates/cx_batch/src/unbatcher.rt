//! The unbatcher.

ghost use Rattle.std.specs.Prelude.{◌≡◌, ◌≤◌, ◌++◌};
ghost use Rattle.cx_role.specs.Prelude.{length, map, IsTrue, list_all, Answered};
ghost use Rattle.cx_role.specs.Prelude.kind;
ghost use Rattle.cx_field.specs.Fields as field;
ghost use Rattle.cx_model.specs.Unbatcher.{unbatcher_rules, answer_to};

use cx_base::{Answered, Cluster, NoMemory, Order, RoleId, Why};
use cx_keep::Keeper;
use cx_letter::{Datagram, Msg, Record};
use cx_role::{Outbox, Role, StepFault, WakeFault, is_for};
use std::alloc::Global;
use std::marker::Model;

/// Sends each client its own answer, and remembers nothing.
#[derive(Drop)]
pub struct Unbatcher {
    cluster: Cluster,
    me: RoleId,
    live: bool,
}

impl Model for Unbatcher {
    ghost use Rattle.std.specs.Prelude.{◌≡◌};
    ghost use Rattle.cx_role.specs.Prelude.{Running};
    ghost use Rattle.cx_role.specs.Prelude.kind;

    ghost Value = { Running (Unit {0}) (Unit {0}) };

    ghost view = { λ u. record {
      cluster = u.cluster;
      me = u.me;
      live = u.live;
      durable = tt;
      volatile = tt;
    } };

    ghost invariant = { λ u. u.me.kind ≡ kind.Unbatcher };
}

impl Role for Unbatcher {
    ghost Durable = { Unit {0} };

    ghost Volatile = { Unit {0} };

    ghost rules = { unbatcher_rules };

    ghost state = { λ s. s };

    fn new(_alloc: Global, cluster: &Cluster, me: RoleId) -> Result<Self, NoMemory> {
        Ok(Unbatcher {
            cluster: *cluster,
            me,
            live: true,
        })
    }

    #[tactic(auto, using(crate::proofs::Records::unbatcher_refuses))]
    fn reopen(self, records: &[Record]) -> Result<Self, WakeFault> {
        if let [_, ..] = records {
            return Err(WakeFault::Record { index: 0 });
        }
        Ok(Unbatcher {
            cluster: self.cluster,
            me: self.me,
            live: true,
        })
    }

    #[tactic(auto, using(cx_field::proofs::ListLaws::each_answer_fits), unfolding(cx_letter::specs::Messages::results))]
    fn take<K: Keeper>(
        &mut self,
        _keeper: &mut K,
        datagram: &Datagram,
        out: &mut Outbox,
    ) -> Result<Why, StepFault> {
        if !is_for(&self.cluster, self.me, datagram) {
            return Ok(Why::Stranger);
        }
        match datagram.msg() {
            Msg::Results { answers, .. } => {
                out.room(answers.as_slice().len())?;
                answer_all(self.me, answers.as_slice(), out);
                Ok(Why::Unbatched)
            }
            _ => Ok(Why::Stranger),
        }
    }

    fn order<K: Keeper>(
        &mut self,
        _keeper: &mut K,
        _order: &Order,
        _out: &mut Outbox,
    ) -> Result<Why, StepFault> {
        Ok(Why::Stranger)
    }

    fn tick(&mut self, _out: &mut Outbox) -> Result<Why, NoMemory> {
        Ok(Why::Idle)
    }

    fn live(&self) -> bool {
        self.live
    }
}

// To each client its answer, in order.
fn answer_all(me: RoleId, answers: &[Answered], out: &mut Outbox)
    requires kind { me.kind ≡ kind.Unbatcher }
    requires fit { IsTrue (list_all (λ (a : Answered). field.answered.fits a) answers.now) }
    requires spare { length answers.now ≤ out.old.spare }
    ensures { out.new.list ≡ out.old.list ++ map (answer_to me) answers.now }
{
    for answer in answers {
        out.push(answer_to(me, answer));
    }
}

#[tactic(auto, unfolding(cx_field::specs::Fields::answered))]
fn answer_to(me: RoleId, answer: &Answered) -> Datagram
    requires kind { me.kind ≡ kind.Unbatcher }
    requires fits { IsTrue (field.answered.fits answer.now) }
    ensures { result ≡ answer_to me answer.now }
{
    cx_letter::answer(me.index, answer.client, answer.seq, answer.at, answer.reply)
}
