//! What a proxy leader sends for a pending value: a value goes to several receivers, each of which gets its own copy.

ghost use Rattle.std.specs.Prelude.{◌≡◌, ◌<◌, ◌≤◌, ◌+◌, ◌*◌, ◌%◌, ◌++◌, ◌∷◌};
ghost use Rattle.cx_role.specs.Prelude.{[], length, map, OnErr, OnOk, All, numbers, Pending};
ghost use Rattle.cx_role.specs.Prelude.kind;
ghost use Rattle.cx_model.specs.Proxy.{phase2a_to, column_for, members_for, announcement};
ghost use Rattle.cx_model.specs.Proxy.{again_for, again_at, pending_at};
ghost use Rattle.cx_proxy.specs.Holds.{IsPendingInRange};

use crate::pendings::{Pendings, find};
use cx_base::{Cluster, Duplicate, NoMemory, RoleId};
use cx_grid::{in_column, is_member};
use cx_model::Pending;
use cx_role::Outbox;
use std::alloc::Global;

/// Asks the acceptors of the slot's column for votes.
#[tactic(auto, using(crate::proofs::Receivers::counted))]
pub fn ask_column(
    alloc: Global,
    cluster: &Cluster,
    me: RoleId,
    pending: &Pending,
    out: &mut Outbox,
) -> Result<(), NoMemory>
    requires kind { me.kind ≡ kind.Proxy }
    requires parts { IsPendingInRange pending.now }
    requires empty { out.old.list ≡ [] }
    ensures { OnOk result
        (out.new.list ≡ map (phase2a_to me pending.now) (column_for cluster.now pending.now)) }
{
    let col = column_of(pending);
    for acceptor in 0..cluster.acceptors {
        if in_column(&pending.grid, col, acceptor) {
            ask(alloc, me, pending, acceptor, out)?;
        }
    }
    Ok(())
}

/// Asks all members of the grid, at most 16.
#[tactic(auto, using(cx_role::proofs::Sends::sends))]
pub fn ask_members(
    alloc: Global,
    cluster: &Cluster,
    me: RoleId,
    pending: &Pending,
    out: &mut Outbox,
) -> Result<(), NoMemory>
    requires kind { me.kind ≡ kind.Proxy }
    requires parts { IsPendingInRange pending.now }
    requires room { length out.old.list + 16 ≤ 512 }
    ensures list { OnOk result (out.new.list
        ≡ out.old.list ++ map (phase2a_to me pending.now) (members_for cluster.now pending.now)) }
    ensures room { OnOk result (length out.new.list ≤ length out.old.list + 16) }
{
    // A grid has at most 16 members, as its members show.
    let _members = pending.grid.members();
    for acceptor in 0..cluster.acceptors {
        if is_member(&pending.grid, acceptor) {
            ask(alloc, me, pending, acceptor, out)?;
        }
    }
    Ok(())
}

/// Tells every replica the value, and the leader of its round that it is chosen: at most 9 datagrams.
#[tactic(auto, using(crate::proofs::Receivers::counted))]
pub fn announce(
    alloc: Global,
    cluster: &Cluster,
    me: RoleId,
    pending: &Pending,
    out: &mut Outbox,
) -> Result<(), NoMemory>
    requires kind { me.kind ≡ kind.Proxy }
    requires parts { IsPendingInRange pending.now }
    requires room { length out.old.list + 16 ≤ 512 }
    ensures list { OnOk result
        (out.new.list ≡ out.old.list ++ announcement cluster.now me pending.now) }
    ensures room { OnOk result (length out.new.list ≤ length out.old.list + 16) }
{
    for replica in 0..cluster.replicas {
        let value = pending.value.copy(alloc)?;
        out.room(1)?;
        out.push(cx_letter::chosen(me.index, replica, pending.slot, value));
    }
    out.room(1)?;
    out.push(cx_letter::chosen_in(me.index, pending.round.id, pending.round, pending.slot));
    Ok(())
}

/// Asks or announces again for each value that is pending at `count` slots from the ring's first on.
#[tactic(auto, using(crate::proofs::Receivers::again_on))]
pub fn again_all(
    alloc: Global,
    cluster: &Cluster,
    me: RoleId,
    pendings: &Pendings,
    count: u64,
    out: &mut Outbox,
) -> Result<(), NoMemory>
    requires kind { me.kind ≡ kind.Proxy }
    requires parts { All IsPendingInRange pendings.now.items }
    requires room { 16 * count ≤ 512 }
    requires empty { out.old.list ≡ [] }
    ensures { OnOk result (out.new.list
        ≡ again_at cluster.now me pendings.now.items (numbers pendings.now.first count)) }
{
    let first = pendings.first();
    for slot in first..first + count {
        again(alloc, cluster, me, pendings, slot, out)?;
    }
    Ok(())
}

/// What was sent stays, or nothing does when out of memory.
pub fn all_or_none(sent: Result<(), NoMemory>, out: &mut Outbox) -> Result<(), NoMemory>
    ensures same { result ≡ sent }
    ensures ok { OnOk result (out.new.list ≡ out.old.list) }
    ensures err { OnErr result (out.new.list ≡ []) }
{
    if sent.is_err() {
        out.clear();
    }
    sent
}

// The same for the value that is pending at a slot, if there is one: at most 16 datagrams.
fn again(
    alloc: Global,
    cluster: &Cluster,
    me: RoleId,
    pendings: &Pendings,
    slot: u64,
    out: &mut Outbox,
) -> Result<(), NoMemory>
    requires kind { me.kind ≡ kind.Proxy }
    requires parts { All IsPendingInRange pendings.now.items }
    requires room { length out.old.list + 16 ≤ 512 }
    ensures list { OnOk result (out.new.list
        ≡ out.old.list ++ again_for cluster.now me (pending_at slot pendings.now.items)) }
    ensures room { OnOk result (length out.new.list ≤ length out.old.list + 16) }
{
    let Some(pending) = find(pendings, slot) else {
        return Ok(());
    };
    if pending.done {
        announce(alloc, cluster, me, pending, out)
    } else {
        ask_members(alloc, cluster, me, pending, out)
    }
}

// Asks one acceptor for its vote.
fn ask(
    alloc: Global,
    me: RoleId,
    pending: &Pending,
    acceptor: u16,
    out: &mut Outbox,
) -> Result<(), NoMemory>
    requires kind { me.kind ≡ kind.Proxy }
    requires parts { IsPendingInRange pending.now }
    requires room { length out.old.list < 512 }
    ensures { OnOk result (out.new.list ≡ out.old.list ++ phase2a_to me pending.now acceptor ∷ []) }
{
    let value = pending.value.copy(alloc)?;
    out.room(1)?;
    out.push(cx_letter::phase2a(
        me.index,
        acceptor,
        pending.round,
        pending.slot,
        pending.cw,
        value,
    ));
    Ok(())
}

// The column of its grid that a slot belongs to.
fn column_of(pending: &Pending) -> u8
    ensures column { result ≡ pending.now.slot % pending.now.grid.cols }
    ensures within { result < pending.now.grid.cols }
{
    // No side of a grid is 0, which its members show.
    let _members = pending.grid.members();
    (pending.slot % u64::from(pending.grid.cols())) as u8
}
