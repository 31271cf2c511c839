//! The replacer's state.

ghost use Rattle.std.specs.Prelude.{◌≡◌};
ghost use Rattle.cx_role.specs.Prelude.{[], true, IsTrue, names, IsStep};
ghost use Rattle.cx_model.specs.Replacer.{ReplacerDurable, ReplacerVolatile, replacer_rules, replacer_takes};

use crate::counted::Counted;
use crate::opening::last_kept;
use cx_base::{Cluster, Kind, NoMemory, Order, RoleId, Round, Set, Why};
use cx_field::Entries;
use cx_keep::Keeper;
use cx_letter::{Datagram, Msg, Record};
use cx_model::{Halt, Replacing};
use cx_role::{Outbox, Role, StepFault, WakeFault, is_for};
use std::alloc::Global;
use std::marker::Model;

/// A replacer of the cluster: its greatest ballot, and what it has taken since it was opened. The ballot is durable, and where the
/// header says so the last set that it came to know: one that lost a decision finds it again by a greater ballot among the same
/// set.
#[derive(Drop)]
pub struct Replacer {
    pub(crate) alloc: Global,
    pub(crate) cluster: Cluster,
    pub(crate) index: u16,
    pub(crate) live: bool,
    pub(crate) own: Round,
    // The last set that it kept, or none.
    pub(crate) known: Set,
    pub(crate) mode: Replacing,
    pub(crate) seen: Round,
    // The set that it knows, and the one that is to follow it: the ordered one, then the one to decide.
    pub(crate) set: Set,
    pub(crate) next: Set,
    // The answers of the matchmakers that have stopped, and who has answered the later questions.
    pub(crate) halts: Vec<Halt>,
    pub(crate) counted: Counted,
    // What the members of the next set begin with.
    pub(crate) watermark: Round,
    pub(crate) entries: Entries,
}

impl Model for Replacer {
    ghost use Rattle.cx_role.specs.Prelude.{role, Running};
    ghost use Rattle.cx_role.specs.Prelude.kind;
    ghost use Rattle.cx_model.specs.Replacer.{ReplacerDurable, ReplacerVolatile};
    ghost use Rattle.cx_replace.specs.State.{IsReplacer};

    ghost Value = { Running ReplacerDurable ReplacerVolatile };

    ghost view = { λ r. record {
      cluster = r.cluster;
      me = role kind.Replacer r.index;
      live = r.live;
      durable = record { own = r.own; known = r.known };
      volatile = record {
        mode = r.mode;
        seen = r.seen;
        set = r.set;
        next = r.next;
        halts = r.halts.items;
        counted = r.counted;
        watermark = r.watermark;
        entries = r.entries;
      };
    } };

    ghost invariant = { λ r.
        IsReplacer r.cluster r.index r.own r.mode r.halts.items r.counted r.watermark r.entries };
}

impl Replacer {
    // One datagram, by its kind.
    fn taken<K: Keeper>(
        &mut self,
        keeper: &mut K,
        datagram: &Datagram,
        out: &mut Outbox,
    ) -> Result<Why, StepFault>
        requires live { self.old.live ≡ true }
        requires names { IsTrue (names self.old.cluster datagram.now) }
        requires empty { out.old.list ≡ [] }
        ensures { let s = self.old in
            IsStep K.append_gives K.tells replacer_rules s (replacer_takes s.cluster s.me s.durable
            s.volatile datagram.now.from datagram.now.msg) result self.new keeper.old keeper.new
            out.new.list }
    {
        let from = datagram.from();
        match datagram.msg() {
            Msg::StopB {
                round,
                watermark,
                entries,
                accepted,
                set,
            } => Ok(self.stop_b(from, *round, *watermark, entries, *accepted, set, out)?),
            Msg::NextB { round } => Ok(self.next_b(from, *round, out)?),
            Msg::BootB { set } => self.boot_b(keeper, from, set, out),
            Msg::StopNack { round, other } => Ok(self.stop_nack(*round, *other)),
            Msg::Sets { set } => self.sets(keeper, set),
            _ => Ok(Why::Stranger),
        }
    }
}

impl Role for Replacer {
    ghost Durable = { ReplacerDurable };

    ghost Volatile = { ReplacerVolatile };

    ghost rules = { replacer_rules };

    ghost state = { λ s. s };

    #[tactic(auto, using(crate::proofs::Opened::openings))]
    fn new(alloc: Global, cluster: &Cluster, me: RoleId) -> Result<Self, NoMemory> {
        Ok(Replacer::with_kept(alloc, cluster, me.index, Round::ZERO, &Set::empty()))
    }

    #[tactic(auto, using(crate::proofs::Opened::openings))]
    fn reopen(self, records: &[Record]) -> Result<Self, WakeFault> {
        let me = RoleId::new(Kind::Replacer, self.index);
        let (own, known) = last_kept(self.own, &self.known, &self.cluster, me, records)?;
        Ok(Replacer::with_kept(self.alloc, &self.cluster, self.index, own, &known))
    }

    #[tactic(auto, using(crate::proofs::FitLaws::take_fits))]
    fn take<K: Keeper>(
        &mut self,
        keeper: &mut K,
        datagram: &Datagram,
        out: &mut Outbox,
    ) -> Result<Why, StepFault> {
        let me = RoleId::new(Kind::Replacer, self.index);
        if !is_for(&self.cluster, me, datagram) {
            return Ok(Why::Stranger);
        }
        self.taken(keeper, datagram, out)
    }

    fn order<K: Keeper>(
        &mut self,
        keeper: &mut K,
        order: &Order,
        out: &mut Outbox,
    ) -> Result<Why, StepFault> {
        match order {
            Order::Replace(set) => self.replace(keeper, set, out),
            Order::Lead(_) => Ok(Why::Stranger),
            Order::Change(_) => Ok(Why::Stranger),
            Order::Collect => Ok(Why::Stranger),
            Order::Offer { .. } => Ok(Why::Stranger),
        }
    }

    fn tick(&mut self, out: &mut Outbox) -> Result<Why, NoMemory> {
        match self.mode {
            Replacing::Idle => self.tell_again(out),
            Replacing::Stopping => self.stop_again(out),
            Replacing::Deciding => self.accept_again(out),
            Replacing::Booting => self.begin_again(out),
        }
    }

    fn live(&self) -> bool {
        self.live
    }
}
