//! The matchmaker.

ghost use Rattle.cx_model.specs.Matchmaker.{MatchmakerDurable, matchmaker_rules};

use cx_base::{Cluster, NoMemory, Order, RoleId, Round, Set, Why};
use cx_field::Entry;
use cx_keep::Keeper;
use cx_letter::{Datagram, Msg, Record};
use cx_role::{Outbox, Role, StepFault, WakeFault, is_for};
use std::alloc::Global;
use std::marker::Model;

/// A matchmaker: the round below which rounds are retired, and the rounds that were recorded with their grids, in rising
/// order (JSys 2021). It records a round only while it has fewer than 16, or in the place of those with the same grid.
///
/// It is of one set for ever: the first one, or the one in which it began with what the members of an earlier set had. A ballot
/// stops it: from then on it answers only who replaces it (JSys 2021: a consensus among the old on who follows them).
#[derive(Drop)]
pub struct Matchmaker {
    pub(crate) alloc: Global,
    pub(crate) cluster: Cluster,
    pub(crate) me: RoleId,
    pub(crate) live: bool,
    pub(crate) watermark: Round,
    pub(crate) entries: Vec<Entry>,
    // The set in which it began, where that isn't the first.
    pub(crate) booted: Option<Set>,
    // The greatest ballot that it promised, and the last one in which it accepted a set to follow, with that set.
    pub(crate) ballot: Round,
    pub(crate) accepted: Round,
    pub(crate) next: Set,
}

impl Model for Matchmaker {
    ghost use Rattle.cx_role.specs.Prelude.{Running};
    ghost use Rattle.cx_model.specs.Matchmaker.{MatchmakerDurable};
    ghost use Rattle.cx_match.specs.Sound.{IsSound, matchmaker_durable};

    ghost Value = { Running MatchmakerDurable (Unit {0}) };

    ghost view = { λ m. record {
      cluster = m.cluster;
      me = m.me;
      live = m.live;
      durable = matchmaker_durable m.watermark m.entries.items m.booted m.ballot m.accepted m.next;
      volatile = tt;
    } };

    ghost invariant = { λ m. IsSound m.me
        (matchmaker_durable m.watermark m.entries.items m.booted m.ballot m.accepted m.next) };
}

impl Role for Matchmaker {
    ghost Durable = { MatchmakerDurable };

    ghost Volatile = { Unit {0} };

    ghost rules = { matchmaker_rules };

    ghost state = { λ s. s };

    fn new(alloc: Global, cluster: &Cluster, me: RoleId) -> Result<Self, NoMemory> {
        Ok(Matchmaker {
            alloc,
            cluster: *cluster,
            me,
            live: true,
            watermark: Round::ZERO,
            entries: Vec::new(alloc),
            booted: None,
            ballot: Round::ZERO,
            accepted: Round::ZERO,
            next: Set::empty(),
        })
    }

    fn reopen(self, records: &[Record]) -> Result<Self, WakeFault> {
        let mut matchmaker = self;
        matchmaker.live = true;
        for (index, what) in records.iter().enumerate() {
            if !matchmaker.fits(what) {
                return Err(WakeFault::Record { index });
            }
            matchmaker.remember(what)?;
        }
        Ok(matchmaker)
    }

    fn take<K: Keeper>(
        &mut self,
        keeper: &mut K,
        datagram: &Datagram,
        out: &mut Outbox,
    ) -> Result<Why, StepFault> {
        if !is_for(&self.cluster, self.me, datagram) {
            return Ok(Why::Stranger);
        }
        let from = datagram.from();
        match datagram.msg() {
            Msg::BootA {
                set,
                watermark,
                entries,
            } => self.boot_a(keeper, from, set, *watermark, entries, out),
            // Only a member of a set answers its leaders, readers and replacers, and one that has stopped only replacers.
            Msg::MatchA { .. }
            | Msg::GarbageA { .. }
            | Msg::MatchRead { .. }
            | Msg::StopA { .. }
            | Msg::NextA { .. }
                if !self.is_booted() => { Ok(Why::New) }
            Msg::MatchA { .. } | Msg::GarbageA { .. } | Msg::MatchRead { .. }
                if self.is_stopped() => { Ok(Why::Stopped) }
            Msg::MatchA { round, grid } => self.match_a(keeper, from, *round, *grid, out),
            Msg::GarbageA { round, grid } => self.garbage_a(keeper, from, *round, *grid, out),
            Msg::MatchRead { asking } => Ok(self.match_read(from, *asking, out)?),
            Msg::StopA { round } => self.stop_a(keeper, from, *round, out),
            Msg::NextA { round, set } => self.next_a(keeper, from, *round, set, out),
            _ => Ok(Why::Stranger),
        }
    }

    fn order<K: Keeper>(
        &mut self,
        _keeper: &mut K,
        _order: &Order,
        _out: &mut Outbox,
    ) -> Result<Why, StepFault> {
        Ok(Why::Stranger)
    }

    fn tick(&mut self, _out: &mut Outbox) -> Result<Why, NoMemory> {
        Ok(Why::Idle)
    }

    fn live(&self) -> bool {
        self.live
    }
}
