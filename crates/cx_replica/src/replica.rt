//! A replica's state, and how it is opened.

ghost use Rattle.std.specs.Prelude.{◌≡◌, true, false, is_some, IfSome, IsTrue};
ghost use Rattle.cx_field.specs.Fields as field;
ghost use Rattle.cx_model.specs.Replica.{ReplicaDurable, ReplicaVolatile, held, is_renewal_whole, replica_rules};

use crate::deferred::DeferredReads;
use crate::machine::Machine;
use crate::sending::{ask_next, tell_held};
use crate::wanted::Wanted;
use cx_base::{Cluster, Key, NoMemory, Order, RoleId, Why};
use cx_field::Token;
use cx_keep::Keeper;
use cx_letter::{Datagram, Msg, Record};
use cx_model::Deferred;
use cx_rlog::Log;
use cx_role::{Outbox, Role, StepFault, WakeFault, is_for};
use std::alloc::Global;
use std::marker::Model;

/// A replica: the chosen values in slot order, from a first slot on, those that came before their turn, what executing
/// leaves, and the reads that wait, at most 64.
#[derive(Drop)]
pub struct Replica {
    pub(crate) alloc: Global,
    pub(crate) cluster: Cluster,
    pub(crate) me: RoleId,
    // Whether it may take a step: once its list is whole, until its keeper fails.
    pub(crate) live: bool,
    pub(crate) log: Log,
    // What executing all values left, also those that it has forgotten.
    pub(crate) machine: Machine,
    // What its list has still to say while it is opened.
    pub(crate) wanted: Wanted,
    // The reads that wait until more slots are held.
    pub(crate) deferred: DeferredReads,
    // The greatest slot that the replica before this one asked for; that one holds all slots below.
    pub(crate) fetched: u64,
}

impl Model for Replica {
    ghost use Rattle.cx_model.specs.Replica.{ReplicaDurable, ReplicaVolatile};
    ghost use Rattle.cx_model.specs.Rules.{Running};
    ghost use Rattle.cx_replica.specs.Rows.{replica_view};
    ghost use Rattle.cx_replica.specs.Sound.{IsSound};

    ghost Value = { Running ReplicaDurable ReplicaVolatile };

    ghost view = { λ r.
        replica_view r.cluster r.me r.live r.log r.machine.left r.wanted r.deferred r.fetched };

    ghost invariant = { λ r.
        IsSound r.cluster r.me r.live r.log r.machine.left r.wanted r.deferred };
}

// A read that a client sends itself, in a session, and so doesn't name its client.
#[tactic(auto, unfolding(cx_field::specs::Fields::token, cx_wire::specs::Format::u16))]
fn session_read(client: u16, seq: u64, mark: u64, key: Key) -> Deferred
    requires { IsTrue (field.seq.fits seq) }
    ensures read { result
        ≡ record { token = record { client = client; seq = seq }; mark = mark; key = key } }
    ensures fits { IsTrue (field.token.fits result.token) }
{
    Deferred {
        token: Token { client, seq },
        mark,
        key,
    }
}

impl Replica {
    /// How many slots it holds: all below it.
    pub fn held(&self) -> u64
        ensures { result ≡ held self.now.durable }
    {
        self.log.held()
    }

    /// What its records left, before it takes a step again.
    fn stopped(self) -> Self
        ensures { result ≡ record self {
          live = false;
          volatile = replica_rules.fresh self.cluster self.durable;
        } }
    {
        let mut replica = self;
        replica.live = false;
        replica.log.forget_early();
        replica.deferred.clear();
        replica.fetched = 0;
        replica
    }

    /// It takes steps from now on, where its list has all that its base said.
    fn started(self) -> Option<Self>
        ensures some { IfSome result (λ replica. replica ≡ record self { live = true }) }
        ensures whole { is_some result ≡ is_renewal_whole self.durable }
    {
        let mut replica = self;
        if !replica.wanted.is_whole() {
            return None;
        }
        replica.live = true;
        Some(replica)
    }
}

impl Role for Replica {
    ghost Durable = { ReplicaDurable };

    ghost Volatile = { ReplicaVolatile };

    ghost rules = { replica_rules };

    ghost state = { λ s. s };

    fn new(alloc: Global, cluster: &Cluster, me: RoleId) -> Result<Self, NoMemory> {
        Ok(Replica {
            alloc,
            cluster: *cluster,
            me,
            live: true,
            log: Log::new(alloc)?,
            machine: Machine::new(alloc),
            wanted: Wanted::new(),
            deferred: DeferredReads::new(alloc),
            fetched: 0,
        })
    }

    fn reopen(self, records: &[Record]) -> Result<Self, WakeFault> {
        let mut replica = self.stopped();
        for (index, record) in records.iter().enumerate() {
            if !replica.fits(record) {
                return Err(WakeFault::Record { index });
            }
            replica = replica.remember(record)?;
        }
        match replica.started() {
            Some(replica) => Ok(replica),
            // The record that is missing would be the next one.
            None => Err(WakeFault::Record {
                index: records.len(),
            }),
        }
    }

    fn take<K: Keeper>(
        &mut self,
        keeper: &mut K,
        datagram: &Datagram,
        out: &mut Outbox,
    ) -> Result<Why, StepFault> {
        if !is_for(&self.cluster, self.me, datagram) {
            return Ok(Why::Stranger);
        }
        match datagram.msg() {
            Msg::Chosen { slot, value } => self.chosen(keeper, *slot, value, out),
            Msg::Read { token, mark, key } => {
                let one = Deferred {
                    token: *token,
                    mark: *mark,
                    key: *key,
                };
                Ok(self.read(one, out)?)
            }
            Msg::SessRead { seq, mark, key } => {
                let one = session_read(datagram.from().index, *seq, *mark, *key);
                Ok(self.read(one, out)?)
            }
            Msg::Fetch { mark } => Ok(self.fetch(datagram.from(), *mark, out)?),
            _ => Ok(Why::Stranger),
        }
    }

    #[tactic(auto, using(crate::proofs::Offering::orders_fit))]
    fn order<K: Keeper>(
        &mut self,
        _keeper: &mut K,
        order: &Order,
        out: &mut Outbox,
    ) -> Result<Why, StepFault> {
        match order {
            Order::Offer { to, slot } => Ok(self.offer(*to, *slot, out)?),
            Order::Lead(_) => Ok(Why::Stranger),
            Order::Change(_) => Ok(Why::Stranger),
            Order::Collect => Ok(Why::Stranger),
            Order::Replace(_) => Ok(Why::Stranger),
        }
    }

    #[tactic(auto, using(crate::proofs::Values::mark_fits))]
    fn tick(&mut self, out: &mut Outbox) -> Result<Why, NoMemory> {
        // One for each leader, one for the next replica.
        out.room(usize::from(self.cluster.leaders) + 1)?;
        let held = self.log.held();
        tell_held(&self.cluster, self.me, held, out);
        ask_next(&self.cluster, self.me, held, out);
        Ok(Why::Resent)
    }

    fn live(&self) -> bool {
        self.live
    }
}
