//! The proxy leader.

ghost use Rattle.std.specs.Prelude.{◌≡◌, ◌<◌};
ghost use Rattle.cx_role.specs.Prelude.{[], IfOk, opened, IsReply};
ghost use Rattle.cx_role.specs.Prelude.kind;
ghost use Rattle.cx_model.specs.Proxy.{ProxyVolatile, proxy_rules};
ghost use Rattle.cx_proxy.specs.Holds.{IsPendingInRange};
ghost use Rattle.cx_proxy.specs.Rows.{row_on_proposal, row_on_vote};

use crate::pendings::{Pendings, declined, find, put_pending, uncounted, update_pending};
use crate::sends::{again_all, all_or_none, announce, ask_column};
use cx_base::{Cluster, Duplicate, NoMemory, Order, RoleId, Round, Value, WINDOW, Why};
use cx_grid::{Marks, column_whole};
use cx_keep::Keeper;
use cx_letter::{Datagram, Msg, Record};
use cx_model::Pending;
use cx_role::{Outbox, Role, StepFault, WakeFault, is_for};
use std::alloc::Global;
use std::marker::Model;

/// Asks a column of a grid for votes on each value that a leader hands over, and announces what a column voted for.
#[derive(Drop)]
pub struct Proxy {
    alloc: Global,
    cluster: Cluster,
    me: RoleId,
    live: bool,
    // The values from the known chosen watermark on.
    pending: Pendings,
}

impl Model for Proxy {
    ghost use Rattle.cx_role.specs.Prelude.{Running};
    ghost use Rattle.cx_model.specs.Proxy.{ProxyVolatile};
    ghost use Rattle.cx_proxy.specs.Holds.{HasPendingRing, proxy_view};

    ghost Value = { Running (Unit {0}) ProxyVolatile };

    ghost view = { λ p. proxy_view p.cluster p.me p.live p.pending };

    ghost invariant = { λ p. HasPendingRing p.me p.pending };
}

impl Proxy {
    // The values that are pending.
    pub(crate) fn pendings(&self) -> &Pendings
        ensures first { result.now.first ≡ self.now.volatile.known }
        ensures items { result.now.items ≡ self.now.volatile.pending }
    {
        &self.pending
    }

    // A leader hands over a value for a slot. It comes beside the other parts, since it is copied only where it will be
    // asked for: one that is past or old takes no memory.
    #[tactic(auto, using(crate::proofs::Holding::mark_limit))]
    fn propose(
        &mut self,
        pending: Pending,
        value: &Value,
        out: &mut Outbox,
    ) -> Result<Why, NoMemory>
        requires parts { IsPendingInRange (record pending { value = value.now }) }
        requires empty { out.old.list ≡ [] }
        ensures { IsReply proxy_rules self.old (row_on_proposal self.old
            (record pending { value = value.now })) result self.new out.new.list }
    {
        if let Some(why) = declined(&self.pending, &pending) {
            self.pending.raise(pending.cw);
            return Ok(why);
        }
        let mut asked = pending;
        asked.value = value.copy(self.alloc)?;
        self.pending.make_room(self.alloc)?;
        let sent = ask_column(self.alloc, &self.cluster, self.me, &asked, out);
        all_or_none(sent, out)?;
        self.pending.raise(asked.cw);
        put_pending(&mut self.pending, asked);
        Ok(Why::Asking)
    }

    // An acceptor reports that it keeps a vote.
    fn vote(
        &mut self,
        acceptor: u16,
        round: Round,
        slot: u64,
        out: &mut Outbox,
    ) -> Result<Why, NoMemory>
        requires acceptor { acceptor < 64 }
        requires empty { out.old.list ≡ [] }
        ensures { IsReply proxy_rules self.old (row_on_vote self.old acceptor round slot) result
            self.new out.new.list }
    {
        let Some(pending) = find(&self.pending, slot) else {
            return Ok(Why::Unasked);
        };
        if let Some(why) = uncounted(pending, acceptor, round) {
            return Ok(why);
        }
        let mut marks = pending.marks.copy(self.alloc)?;
        marks.add(acceptor);
        if !column_whole(&pending.grid, &marks) {
            update_pending(&mut self.pending, slot, marks, false);
            return Ok(Why::Counted);
        }
        let sent = announce(self.alloc, &self.cluster, self.me, pending, out);
        all_or_none(sent, out)?;
        update_pending(&mut self.pending, slot, marks, true);
        Ok(Why::Chosen)
    }
}

impl Role for Proxy {
    ghost Durable = { Unit {0} };

    ghost Volatile = { ProxyVolatile };

    ghost rules = { proxy_rules };

    ghost state = { λ s. s };

    fn new(alloc: Global, cluster: &Cluster, me: RoleId) -> Result<Self, NoMemory>
        requires { me.kind ≡ kind.Proxy }
        ensures { IfOk result (λ proxy. proxy ≡ opened proxy_rules cluster.now me []) }
    {
        Ok(Proxy {
            alloc,
            cluster: *cluster,
            me,
            live: true,
            pending: Pendings::new(alloc, 0),
        })
    }

    #[tactic(auto, using(crate::proofs::Rows::proxy_refuses))]
    fn reopen(self, records: &[Record]) -> Result<Self, WakeFault> {
        if let [_, ..] = records {
            return Err(WakeFault::Record { index: 0 });
        }
        Ok(Proxy::new(self.alloc, &self.cluster, self.me)?)
    }

    fn take<K: Keeper>(
        &mut self,
        _keeper: &mut K,
        datagram: &Datagram,
        out: &mut Outbox,
    ) -> Result<Why, StepFault> {
        if !is_for(&self.cluster, self.me, datagram) {
            return Ok(Why::Stranger);
        }
        match datagram.msg() {
            Msg::Propose {
                round,
                grid,
                slot,
                cw,
                value,
            } => {
                let pending = Pending {
                    slot: *slot,
                    round: *round,
                    grid: *grid,
                    cw: *cw,
                    value: Value::Noop,
                    marks: Marks::new(),
                    done: false,
                };
                Ok(self.propose(pending, value, out)?)
            }
            Msg::Phase2B { round, slot } => {
                Ok(self.vote(datagram.from().index, *round, *slot, out)?)
            }
            _ => Ok(Why::Stranger),
        }
    }

    fn order<K: Keeper>(
        &mut self,
        _keeper: &mut K,
        _order: &Order,
        _out: &mut Outbox,
    ) -> Result<Why, StepFault> {
        Ok(Why::Stranger)
    }

    fn tick(&mut self, out: &mut Outbox) -> Result<Why, NoMemory> {
        if self.pending.is_empty() {
            return Ok(Why::Idle);
        }
        let sent = again_all(
            self.alloc,
            &self.cluster,
            self.me,
            &self.pending,
            WINDOW,
            out,
        );
        all_or_none(sent, out)?;
        Ok(Why::Resent)
    }

    fn live(&self) -> bool {
        self.live
    }
}
