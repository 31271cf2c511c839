//! A role of the protocol.

ghost use Rattle.std.specs.Prelude.{◌≡◌, [], true, None, IfOk, IfErr, IsTrue};
ghost use Rattle.cx_keep.specs.Keeper.{all_fit};
ghost use Rattle.cx_model.specs.Names.{names_role};
ghost use Rattle.cx_model.specs.Rules.{Rules, Running, opened, refused, outcome_of};
ghost use Rattle.cx_letter.specs.declared.input.Input.TheVariants as input;
ghost use Rattle.cx_role.specs.declared.role.WakeFault.TheVariants as wake;
ghost use Rattle.cx_role.specs.Role.{IsReply, IsStep, MayKeep};
ghost use Rattle.cx_role.specs.Wake.{IsWakeFault, refused_behind, reopened};

use crate::{Outbox, StepFault};
use cx_base::{Cluster, NoMemory, Order, RoleId, Why};
use cx_keep::Keeper;
use cx_letter::{Datagram, Record};
use std::alloc::{AllocError, Global};
use thiserror::Error;

/// Why a role could not be opened.
#[derive(Debug, Drop, Error)]
pub enum WakeFault {
    /// The role could not have appended the record at this place.
    #[error("record {index} is not the role's own")]
    Record { index: usize },
    #[error("no memory")]
    NoMemory,
}

impl From<NoMemory> for WakeFault {
    ghost from_gives = { λ _ e. e ≡ wake.NoMemory };

    fn from(_: NoMemory) -> Self {
        WakeFault::NoMemory
    }
}

impl From<AllocError> for WakeFault {
    ghost from_gives = { λ _ e. e ≡ wake.NoMemory };

    fn from(_: AllocError) -> Self {
        WakeFault::NoMemory
    }
}

/// A kind of role: it takes one datagram, order or tick at a time, makes at most one append, and then changes its state and
/// sends. Memory is taken first, so that out of memory everything is as it was. The rows that are of no more use
/// (`takes_no_memory`: a stranger, what is old or past, a matchmaker that is in no set or has stopped, and the like) take none.
pub trait Role: Sized {
    /// The part of its state that its records leave.
    ghost Durable: { Type 0 };

    /// The part that is lost when it stops.
    ghost Volatile: { Type 0 };

    /// What it does, by the rules.
    ghost rules: { Rules Durable Volatile };

    /// Its state.
    ghost state: { Self → Running Durable Volatile };

    /// The role without records; it is one of the cluster's, of the kind that the rules are for.
    fn new(alloc: Global, cluster: &Cluster, me: RoleId) -> Result<Self, NoMemory>
        requires kind { me.kind ≡ rules.kind }
        requires named { IsTrue (names_role cluster.now me) }
        ensures { IfOk result (λ role. state role ≡ opened rules cluster.now me []) };

    /// The role as these records leave it; it is one of the cluster's, of the kind that the rules are for. The fault names
    /// exactly the first record that the role could not have appended in the state that those before it leave.
    fn open(
        alloc: Global,
        cluster: &Cluster,
        me: RoleId,
        records: &[Record],
    ) -> Result<Self, WakeFault>
        requires kind { me.kind ≡ rules.kind }
        requires named { IsTrue (names_role cluster.now me) }
        requires records { IsTrue (all_fit records.now) }
        ensures role { IfOk result (λ role. state role ≡ opened rules cluster.now me records.now) }
        ensures whole { IfOk result (λ _. refused rules cluster.now me records.now ≡ None) }
        ensures fault { IfErr result (IsWakeFault (refused rules cluster.now me records.now)) }
    {
        Self::new(alloc, cluster, me)?.reopen(records)
    }

    /// The role as it is opened again, once it has stopped: what its records left stays, with these after them, and the rest is as
    /// in a role that was just opened. The fault names exactly the first of them that the role could not have appended.
    fn reopen(self, records: &[Record]) -> Result<Self, WakeFault>
        requires records { IsTrue (all_fit records.now) }
        ensures role { IfOk result (λ role. state role ≡ reopened rules (state self) records.now) }
        ensures whole { IfOk result (λ _. refused_behind rules (state self) records.now ≡ None) }
        ensures fault { IfErr result
            (IsWakeFault (refused_behind rules (state self) records.now)) };

    /// One datagram. It first answers `stranger`, and nothing changes, where the datagram isn't to this role, no row of this
    /// role names its kind, or a name in it lies outside the cluster.
    fn take<K: Keeper>(
        &mut self,
        keeper: &mut K,
        datagram: &Datagram,
        out: &mut Outbox,
    ) -> Result<Why, StepFault>
        requires live { (state self.old).live ≡ true }
        requires empty { out.old.list ≡ [] }
        ensures step { IsStep K.append_gives K.tells rules (state self.old)
            (outcome_of rules (state self.old) (input.Take datagram.now))
            result (state self.new) keeper.old keeper.new out.new.list }
        ensures fits { MayKeep rules (state self.old)
            (outcome_of rules (state self.old) (input.Take datagram.now)) };

    /// One order, by the same law; most kinds have no rows for orders.
    fn order<K: Keeper>(
        &mut self,
        keeper: &mut K,
        order: &Order,
        out: &mut Outbox,
    ) -> Result<Why, StepFault>
        requires live { (state self.old).live ≡ true }
        requires empty { out.old.list ≡ [] }
        ensures step { IsStep K.append_gives K.tells rules (state self.old)
            (outcome_of rules (state self.old) (input.Order order.now))
            result (state self.new) keeper.old keeper.new out.new.list }
        ensures fits { MayKeep rules (state self.old)
            (outcome_of rules (state self.old) (input.Order order.now)) };

    /// One tick: what is waited for is sent again. A tick keeps nothing.
    fn tick(&mut self, out: &mut Outbox) -> Result<Why, NoMemory>
        requires live { (state self.old).live ≡ true }
        requires empty { out.old.list ≡ [] }
        ensures { IsReply rules (state self.old) (outcome_of rules (state self.old) input.Tick)
            result (state self.new) out.new.list };

    /// Whether the role may take a step: until an append fails.
    fn live(&self) -> bool
        ensures { result ≡ (state self.now).live };
}
