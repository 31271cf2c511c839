//! The acceptor.

ghost use Rattle.cx_model.specs.Acceptor.{AcceptorDurable, acceptor_rules};

use cx_base::{Cluster, NoMemory, Order, RoleId, Round, Why};
use cx_field::Vote;
use cx_keep::Keeper;
use cx_letter::{Datagram, Msg, Record};
use cx_role::{Outbox, Role, StepFault, WakeFault, is_for};
use std::alloc::Global;
use std::marker::Model;

/// An acceptor: the round that it promised, the chosen watermark, its last vote at each slot from there on by rising
/// slot, and one more than the greatest slot that it ever voted at (VLDB 2021; the chosen watermark is this project's own).
#[derive(Drop)]
pub struct Acceptor {
    pub(crate) alloc: Global,
    pub(crate) cluster: Cluster,
    pub(crate) me: RoleId,
    pub(crate) live: bool,
    pub(crate) promise: Round,
    pub(crate) cw: u64,
    pub(crate) votes: Vec<Vote>,
    pub(crate) top: u64,
}

impl Model for Acceptor {
    ghost use Rattle.cx_role.specs.Prelude.{Running};
    ghost use Rattle.cx_model.specs.Acceptor.{AcceptorDurable};
    ghost use Rattle.cx_acceptor.specs.Sound.{IsSound};

    ghost Value = { Running AcceptorDurable (Unit {0}) };

    ghost view = { λ a. record {
      cluster = a.cluster;
      me = a.me;
      live = a.live;
      volatile = tt;
      durable = record { promise = a.promise; cw = a.cw; votes = a.votes.items; top = a.top };
    } };

    ghost invariant = { λ a.
        IsSound a.cluster a.me
        (record { promise = a.promise; cw = a.cw; votes = a.votes.items; top = a.top }) };
}

impl Role for Acceptor {
    ghost Durable = { AcceptorDurable };

    ghost Volatile = { Unit {0} };

    ghost rules = { acceptor_rules };

    ghost state = { λ s. s };

    fn new(alloc: Global, cluster: &Cluster, me: RoleId) -> Result<Self, NoMemory> {
        Ok(Acceptor {
            alloc,
            cluster: *cluster,
            me,
            live: true,
            promise: Round::ZERO,
            cw: 0,
            votes: Vec::new(alloc),
            top: 0,
        })
    }

    fn reopen(self, records: &[Record]) -> Result<Self, WakeFault> {
        let mut acceptor = self;
        acceptor.live = true;
        for (index, what) in records.iter().enumerate() {
            if !acceptor.fits(what) {
                return Err(WakeFault::Record { index });
            }
            acceptor.remember(what)?;
        }
        Ok(acceptor)
    }

    fn take<K: Keeper>(
        &mut self,
        keeper: &mut K,
        datagram: &Datagram,
        out: &mut Outbox,
    ) -> Result<Why, StepFault> {
        if !is_for(&self.cluster, self.me, datagram) {
            return Ok(Why::Stranger);
        }
        let from = datagram.from();
        match datagram.msg() {
            Msg::Phase1A { round } => self.phase1a(keeper, from, *round, out),
            Msg::Phase2A {
                round,
                slot,
                cw,
                value,
            } => self.phase2a(keeper, from, *round, *slot, *cw, value, out),
            Msg::Inform { round, mark } => self.inform(keeper, from, *round, *mark, out),
            Msg::PreRead { asking, watermark } => Ok(self.pre_read(
                from, *asking, *watermark, out,
            )?),
            _ => Ok(Why::Stranger),
        }
    }

    fn order<K: Keeper>(
        &mut self,
        _keeper: &mut K,
        _order: &Order,
        _out: &mut Outbox,
    ) -> Result<Why, StepFault> {
        Ok(Why::Stranger)
    }

    fn tick(&mut self, _out: &mut Outbox) -> Result<Why, NoMemory> {
        Ok(Why::Idle)
    }

    fn live(&self) -> bool {
        self.live
    }
}
