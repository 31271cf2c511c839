//! The leader's state.

ghost use Rattle.std.specs.Prelude.{◌≡◌, ◌<◌};
ghost use Rattle.cx_role.specs.Prelude.{[], IfOk, IsTrue, true, role, names, IsReply};
ghost use Rattle.cx_role.specs.Prelude.kind;
ghost use Rattle.cx_leader.specs.State.{own_fits};
ghost use Rattle.cx_model.specs.Leader.{LeaderDurable, LeaderVolatile, is_idle, leader_takes, leader_rules};

use crate::opening::{last_begun, none_held};
use crate::proposals::Proposals;
use cx_base::{Cluster, Kind, NoMemory, Order, RoleId, Round, Set, Why};
use cx_collect::Collector;
use cx_field::Entry;
use cx_keep::Keeper;
use cx_letter::{Datagram, Msg, Record};
use cx_model::{MatchAnswer, Mode};
use cx_phase1::Phase1;
use cx_role::{Outbox, Role, StepFault, WakeFault, is_for};
use std::alloc::Global;
use std::marker::Model;

/// A leader of the cluster: its own round with its grid, and what it has taken since it was opened.
#[derive(Drop)]
pub struct Leader {
    pub(crate) alloc: Global,
    pub(crate) cluster: Cluster,
    pub(crate) index: u16,
    // Whether it may take a step: until an append fails.
    pub(crate) live: bool,
    // Its last round with the round's grid: all that its records leave. Each mode but `Idle` has one.
    pub(crate) own: Option<Entry>,
    pub(crate) mode: Mode,
    // The greatest round that a refusal named; the next order to lead goes above it.
    pub(crate) seen: Round,
    // The known set: the matchmakers that are asked, and whose answers count.
    pub(crate) set: Set,
    // The greatest number of slots that each replica reported.
    pub(crate) held: Vec<u64>,
    // The matchmakers' answers in its round, f + 1 at most.
    pub(crate) told: Vec<MatchAnswer>,
    // Who has promised, where acceptors are asked.
    pub(crate) phase1: Option<Phase1>,
    pub(crate) proposals: Proposals,
    // How far it is in retiring the rounds below its own.
    pub(crate) collector: Collector,
}

impl Model for Leader {
    ghost use Rattle.cx_role.specs.Prelude.{Running};
    ghost use Rattle.cx_model.specs.Leader.{LeaderDurable, LeaderVolatile};
    ghost use Rattle.cx_leader.specs.State.{IsLeader, leader_view};

    ghost Value = { Running LeaderDurable LeaderVolatile };

    ghost view = { λ l. leader_view l.cluster l.index l.live l.own l.mode l.seen l.set l.held.items
        l.told.items l.phase1 l.proposals l.collector };

    ghost invariant = { λ l.
        IsLeader l.cluster l.index l.own l.mode l.told.items l.phase1 l.held.items l.collector };
}

impl Leader {
    /// Whether it has no round to begin or to go on with: it was opened, or gave up its round.
    pub fn idle(&self) -> bool
        ensures { result ≡ is_idle self.now.volatile.mode }
    {
        matches!(self.mode, Mode::Idle)
    }
}

impl Leader {
    // One datagram, by its kind; `names` says that all that it names is in the cluster.
    #[tactic(auto, unfolding(cx_field::specs::Fields::mark, cx_wire::specs::Format::u64))]
    fn dispatch(&mut self, datagram: &Datagram, out: &mut Outbox) -> Result<Why, NoMemory>
        requires names { IsTrue (names self.old.cluster datagram.now) }
        requires empty { out.old.list ≡ [] }
        ensures { let s = self.old in
            IsReply leader_rules s (leader_takes s.cluster s.me s.durable s.volatile
            datagram.now.from datagram.now.msg) result self.new out.new.list }
    {
        let from = datagram.from();
        match datagram.msg() {
            Msg::MatchB {
                round,
                watermark,
                entries,
            } => self.match_answer(from, *round, *watermark, entries, out),
            Msg::MatchNack {
                round,
                reason,
                other,
            } => Ok(self.match_nack(from, *round, *reason, *other)),
            Msg::Phase1B { round, cw, votes } => self.promise(from, *round, *cw, votes, out),
            Msg::Nack { round, promise } => Ok(self.nack(*round, *promise)),
            Msg::Batch { commands } => self.batch(commands, out),
            Msg::ChosenIn { round, slot } => self.chosen_in(*round, *slot),
            Msg::Held { mark } => Ok(self.replica_holds(from, *mark)),
            Msg::Informed { round, mark } => self.informed(from, *round, *mark, out),
            Msg::GarbageB { round } => Ok(self.forgotten(from, *round)),
            Msg::Sets { set } => self.learn(*set, out),
            // No leader is sent these kinds.
            _ => Ok(Why::Stranger),
        }
    }
}

// A leader that was just opened, whose records left this round.
#[tactic(auto, using(crate::proofs::Opened::none_told))]
fn new_leader(
    alloc: Global,
    cluster: &Cluster,
    index: u16,
    own: Option<Entry>,
) -> Result<Leader, NoMemory>
    requires named { index < cluster.now.leaders }
    requires fits { IsTrue (own_fits index own) }
    ensures { IfOk result (λ leader. leader ≡ record {
      cluster = cluster.now;
      me = role kind.Leader index;
      live = true;
      durable = record { own = own };
      volatile = leader_rules.fresh cluster.now (record { own = own });
    }) }
{
    Ok(Leader {
        alloc,
        cluster: *cluster,
        index,
        live: true,
        own,
        mode: Mode::Idle,
        seen: Round::ZERO,
        set: Set::first(cluster),
        held: none_held(alloc, cluster.replicas)?,
        told: Vec::new(alloc),
        phase1: None,
        proposals: Proposals::new(alloc),
        collector: Collector::off(),
    })
}

impl Role for Leader {
    ghost Durable = { LeaderDurable };

    ghost Volatile = { LeaderVolatile };

    ghost rules = { leader_rules };

    ghost state = { λ s. s };

    #[tactic(auto, using(crate::proofs::Opened::openings))]
    fn new(alloc: Global, cluster: &Cluster, me: RoleId) -> Result<Self, NoMemory> {
        Ok(new_leader(alloc, cluster, me.index, None)?)
    }

    #[tactic(auto, using(crate::proofs::Opened::openings))]
    fn reopen(self, records: &[Record]) -> Result<Self, WakeFault> {
        let me = RoleId::new(Kind::Leader, self.index);
        let own = last_begun(self.own, &self.cluster, me, records)?;
        Ok(new_leader(self.alloc, &self.cluster, self.index, own)?)
    }

    #[tactic(auto, using(crate::proofs::Fits::take_fits))]
    fn take<K: Keeper>(
        &mut self,
        _keeper: &mut K,
        datagram: &Datagram,
        out: &mut Outbox,
    ) -> Result<Why, StepFault> {
        let me = RoleId::new(Kind::Leader, self.index);
        if !is_for(&self.cluster, me, datagram) {
            return Ok(Why::Stranger);
        }
        // Nothing is appended: only an order begins a round.
        Ok(self.dispatch(datagram, out)?)
    }

    fn order<K: Keeper>(
        &mut self,
        keeper: &mut K,
        order: &Order,
        out: &mut Outbox,
    ) -> Result<Why, StepFault> {
        match order {
            Order::Lead(grid) => self.lead(keeper, grid, out),
            Order::Change(grid) => self.change(keeper, grid, out),
            Order::Collect => Ok(self.collect(out)?),
            // A leader doesn't replace the matchmakers, and keeps no values to offer.
            Order::Replace(_) => Ok(Why::Stranger),
            Order::Offer { .. } => Ok(Why::Stranger),
        }
    }

    fn tick(&mut self, out: &mut Outbox) -> Result<Why, NoMemory> {
        let Some(own) = self.own else {
            return Ok(Why::Idle);
        };
        match self.mode {
            Mode::Idle => Ok(Why::Idle),
            Mode::Matching => self.match_again(&own, out),
            Mode::Phase1 => self.phase1_again(&own, out),
            Mode::Leading => self.lead_again(&own, out),
        }
    }

    fn live(&self) -> bool {
        self.live
    }
}
