//! The batcher.

ghost use Rattle.std.specs.Prelude.{◌≡◌, ◌≤◌, ◌++◌, ◌∷◌};
ghost use Rattle.cx_role.specs.Prelude.{[], vec_len, IfOk, OnOk, OnErr, IsTrue, list_all, Command};
ghost use Rattle.cx_role.specs.Prelude.{opened, IsReply, Replies};
ghost use Rattle.cx_role.specs.Prelude.kind;
ghost use Rattle.cx_field.specs.Fields as field;
ghost use Rattle.cx_model.specs.Batcher.{BatcherVolatile, batcher_rules, batch_to, submit_row, leads_row};

use cx_base::{Cluster, Command, Duplicate, Few, NoMemory, Order, RoleId, Round, Why};
use cx_keep::Keeper;
use cx_letter::{Datagram, Msg, Record};
use cx_role::{Outbox, Role, StepFault, WakeFault, is_for};
use std::alloc::Global;
use std::marker::Model;

/// Gathers commands, and sends them together to the leader of the greatest round that it knows.
#[derive(Drop)]
pub struct Batcher {
    alloc: Global,
    cluster: Cluster,
    me: RoleId,
    live: bool,
    waiting: Vec<Command>,
    round: Round,
}

impl Model for Batcher {
    ghost use Rattle.cx_role.specs.Prelude.{Running};
    ghost use Rattle.cx_model.specs.Batcher.{BatcherVolatile};
    ghost use Rattle.cx_batch.specs.Waiting.{CanWait, batcher_view};

    ghost Value = { Running (Unit {0}) BatcherVolatile };

    ghost view = { λ b. batcher_view b.cluster b.me b.live b.waiting.items b.round };

    ghost invariant = { λ b. CanWait b.cluster.batch b.me b.waiting.items };
}

impl Batcher {
    // A client hands in a command.
    fn submit(&mut self, command: &Command, out: &mut Outbox) -> Result<Why, NoMemory>
        requires fits { IsTrue (field.command.fits command.now) }
        requires empty { out.old.list ≡ [] }
        ensures { IsReply batcher_rules self.old
            (submit_row self.old.cluster self.old.me self.old.volatile command.now)
            result self.new out.new.list }
    {
        out.room(1)?;
        push_copy(self.alloc, &mut self.waiting, command)?;
        if self.waiting.len() < usize::from(self.cluster.batch) {
            return Ok(Why::Held);
        }
        let waiting = std::mem::replace(&mut self.waiting, Vec::new(self.alloc));
        out.push(batch_to(self.me, self.round, waiting));
        Ok(Why::Batched)
    }

    // A leader announces that it leads.
    fn told(&mut self, round: Round) -> Why
        ensures { Replies batcher_rules self.old (leads_row self.old.volatile round) result
            self.new [] }
    {
        if !self.round.is_before(&round) {
            return Why::Old;
        }
        self.round = round;
        Why::Leads
    }
}

impl Role for Batcher {
    ghost Durable = { Unit {0} };

    ghost Volatile = { BatcherVolatile };

    ghost rules = { batcher_rules };

    ghost state = { λ s. s };

    fn new(alloc: Global, cluster: &Cluster, me: RoleId) -> Result<Self, NoMemory>
        requires { me.kind ≡ kind.Batcher }
        ensures { IfOk result (λ batcher. batcher ≡ opened batcher_rules cluster.now me []) }
    {
        Ok(Batcher {
            alloc,
            cluster: *cluster,
            me,
            live: true,
            waiting: Vec::new(alloc),
            round: Round::ZERO,
        })
    }

    #[tactic(auto, using(crate::proofs::Records::batcher_refuses))]
    fn reopen(self, records: &[Record]) -> Result<Self, WakeFault> {
        if let [_, ..] = records {
            return Err(WakeFault::Record { index: 0 });
        }
        Ok(Batcher::new(self.alloc, &self.cluster, self.me)?)
    }

    #[tactic(auto, using(crate::proofs::Rows::other_takes))]
    fn take<K: Keeper>(
        &mut self,
        _keeper: &mut K,
        datagram: &Datagram,
        out: &mut Outbox,
    ) -> Result<Why, StepFault> {
        if !is_for(&self.cluster, self.me, datagram) {
            return Ok(Why::Stranger);
        }
        match datagram.msg() {
            Msg::Submit { command } => Ok(self.submit(command, out)?),
            Msg::Leads { round } => Ok(self.told(*round)),
            _ => Ok(Why::Stranger),
        }
    }

    fn order<K: Keeper>(
        &mut self,
        _keeper: &mut K,
        _order: &Order,
        _out: &mut Outbox,
    ) -> Result<Why, StepFault> {
        Ok(Why::Stranger)
    }

    fn tick(&mut self, out: &mut Outbox) -> Result<Why, NoMemory> {
        if self.waiting.is_empty() {
            return Ok(Why::Idle);
        }
        out.room(1)?;
        let waiting = std::mem::replace(&mut self.waiting, Vec::new(self.alloc));
        out.push(batch_to(self.me, self.round, waiting));
        Ok(Why::Batched)
    }

    fn live(&self) -> bool {
        self.live
    }
}

// The gathered commands, to the leader of the round.
#[tactic(auto, using(cx_field::proofs::ListLaws::commands_fit))]
fn batch_to(me: RoleId, round: Round, waiting: Vec<Command>) -> Datagram
    requires kind { me.kind ≡ kind.Batcher }
    requires some { 1 ≤ vec_len waiting }
    requires room { vec_len waiting ≤ 8 }
    requires fit { IsTrue (list_all (λ (k : Command). field.command.fits k) waiting.items) }
    ensures { result ≡ batch_to me round waiting.items }
{
    cx_letter::batch(me.index, round.id, Few::from_vec(waiting))
}

// One more at the end, or the list as it was.
fn push_copy<T: Duplicate>(alloc: Global, list: &mut Vec<T>, value: &T) -> Result<(), NoMemory>
    ensures ok { OnOk result (list.new.items ≡ list.old.items ++ value.now ∷ []) }
    ensures err { OnErr result (list.new.items ≡ list.old.items) }
{
    list.push(value.copy(alloc)?)?;
    Ok(())
}
