//! How hosted roles are opened.

ghost use Rattle.std.specs.Prelude.{◌≡◌, ◌≤◌, ◌∷◌, [], ℕ, true, false, Some, None, Err, length};
ghost use Rattle.std.specs.Prelude.{IfOk, OnOk, OnErr, IsTrue, slice_get};
ghost use Rattle.cx_base.specs.declared.role.Kind.TheVariants as kind;
ghost use Rattle.cx_base.specs.declared.role.RoleId.{RoleId};
ghost use Rattle.cx_base.specs.Faults.{Rises};
ghost use Rattle.cx_client.specs.Client.{client_opened};
ghost use Rattle.cx_model.specs.Names.{names_role};
ghost use Rattle.cx_model.specs.Replica.{replica_rules};
ghost use Rattle.cx_model.specs.Rules.{opened};
ghost use Rattle.cx_script.specs.Requests.{IsScript, script_of};
ghost use Rattle.cx_seat.specs.declared.opening.OpenStop.TheVariants as open_stop;
ghost use Rattle.cx_seat.specs.Opening.{AreApart, AreOpened, IsBadAs, IsFirstBad, IsFirstUsed, IsOpened};
ghost use Rattle.cx_seat.specs.Opening.{LendsFor, NoneIsOut, StaysFor, first_holding, lent_to, unwoken_stop};
ghost use Rattle.cx_seat.specs.Durable.{IsDurablyOpened};
ghost use Rattle.cx_seat.specs.Stores.{SameRecords, disks_of, files_of, has_second, places_of};
ghost use Rattle.cx_seat.specs.Wake.{IsBadStore};

use crate::seat::holds_record;
use crate::{Guest, Seat, WakeStop, wake, wake_twin};
use cx_acceptor::Acceptor;
use cx_base::{Cluster, Event, Kind, RoleId};
use cx_batch::{Batcher, Unbatcher};
use cx_client::{Client, ClientOptions};
use cx_disk::Disk;
use cx_edge::Depot;
use cx_journal::RecordStore;
use cx_leader::Leader;
use cx_match::Matchmaker;
use cx_proxy::Proxy;
use cx_reader::Reader;
use cx_replace::Replacer;
use cx_replica::Replica;
use cx_role::Role;
use cx_script::script;
use std::alloc::Global;

/// Why the hosted roles could not all be opened.
#[derive(Clone, Copy)]
pub enum OpenStop {
    NoMemory,
    /// The store of a role failed.
    StoreFault { role: RoleId },
    /// The store of a role has other bytes at this place, in bytes, than a journal of that role.
    BadStore { role: RoleId, at: u64 },
    /// The node is to record, and the store of this role has a record.
    NotFresh { role: RoleId },
}

// What a role could not be woken for.
fn unwoken(me: RoleId, stop: WakeStop) -> OpenStop
    ensures stop { result ≡ unwoken_stop me stop }
    ensures not_used { (role : RoleId) → result ≡ open_stop.NotFresh role → ⊥ }
{
    match stop {
        WakeStop::Failed => OpenStop::StoreFault { role: me },
        WakeStop::Bad { at } => OpenStop::BadStore { role: me, at },
        WakeStop::NoMemory => OpenStop::NoMemory,
    }
}

// A role is woken from its store. A store from which it could not be woken is given back.
fn open_durable<D: Depot, R: Role>(
    alloc: Global,
    cluster: &Cluster,
    me: RoleId,
    depot: &mut D,
) -> Result<(RecordStore<D::Store>, R), OpenStop>
    requires kind { me.kind ≡ R.rules.kind }
    requires one { has_second me.kind ≡ false }
    requires named { IsTrue (names_role cluster.now me) }
    requires in_depot { NoneIsOut me (D.out depot.old) }
    ensures role { IfOk result (λ p. IsDurablyOpened R.rules D.Store.Disk.seen D.Store.Disk.faults
        cluster.now (D.tells depot.old) (files_of (D.stored depot.old) me) me p.0 (R.state p.1)) }
    ensures lends { LendsFor D.Depot me result (λ p. places_of (disks_of me (Some p.0)))
        depot.old depot.new }
    ensures bad { (role : RoleId) (at : ℕ) → result ≡ Err (open_stop.BadStore role at)
        → (role ≡ me)
        × (D.tells depot.old ≡ true
        → IsBadStore R.rules cluster.now me (files_of (D.stored depot.old) me) at) }
    ensures failed { (role : RoleId) → result ≡ Err (open_stop.StoreFault role)
        → (role ≡ me) × Rises (D.faults depot.old me) (D.faults depot.new me) }
    ensures not_used { (role : RoleId) → result ≡ Err (open_stop.NotFresh role) → ⊥ }
{
    let Ok(store) = depot.open(me, 0) else {
        return Err(OpenStop::StoreFault { role: me });
    };
    match wake(alloc, cluster, me, store) {
        Ok((journal, role)) => Ok((RecordStore::One { journal }, role)),
        Err((stop, store)) => {
            depot.close(me, 0, store);
            Err(unwoken(me, stop))
        }
    }
}

// A replica is woken from its two stores. Stores from which it could not be woken are given back, and so is the first one
// where the second one can't be opened.
fn open_twin<D: Depot>(
    alloc: Global,
    cluster: &Cluster,
    me: RoleId,
    depot: &mut D,
) -> Result<(RecordStore<D::Store>, Replica), OpenStop>
    requires kind { me.kind ≡ kind.Replica }
    requires named { IsTrue (names_role cluster.now me) }
    requires in_depot { NoneIsOut me (D.out depot.old) }
    ensures role { IfOk result
        (λ p. IsDurablyOpened replica_rules D.Store.Disk.seen D.Store.Disk.faults cluster.now
        (D.tells depot.old) (files_of (D.stored depot.old) me) me p.0 p.1) }
    ensures lends { LendsFor D.Depot me result (λ p. places_of (disks_of me (Some p.0)))
        depot.old depot.new }
    ensures bad { (role : RoleId) (at : ℕ) → result ≡ Err (open_stop.BadStore role at)
        → (role ≡ me)
        × (D.tells depot.old ≡ true
        → IsBadStore replica_rules cluster.now me (files_of (D.stored depot.old) me) at) }
    ensures failed { (role : RoleId) → result ≡ Err (open_stop.StoreFault role)
        → (role ≡ me) × Rises (D.faults depot.old me) (D.faults depot.new me) }
    ensures not_used { (role : RoleId) → result ≡ Err (open_stop.NotFresh role) → ⊥ }
{
    let Ok(first) = depot.open(me, 0) else {
        return Err(OpenStop::StoreFault { role: me });
    };
    let Ok(second) = depot.open(me, 1) else {
        depot.close(me, 0, first);
        return Err(OpenStop::StoreFault { role: me });
    };
    match wake_twin(alloc, cluster, me, first, second) {
        Ok((twin, role)) => Ok((RecordStore::Two { twin }, role)),
        Err((stop, first, second)) => {
            depot.close(me, 0, first);
            depot.close(me, 1, second);
            Err(unwoken(me, stop))
        }
    }
}

// A role that has no records.
fn open_fresh<R: Role>(alloc: Global, cluster: &Cluster, me: RoleId) -> Result<R, OpenStop>
    requires kind { me.kind ≡ R.rules.kind }
    requires named { IsTrue (names_role cluster.now me) }
    ensures role { IfOk result (λ role. R.state role ≡ opened R.rules cluster.now me []) }
    ensures only { OnErr result (result ≡ Err open_stop.NoMemory) }
{
    match R::open(alloc, cluster, me, &[]) {
        Ok(role) => Ok(role),
        Err(_) => Err(OpenStop::NoMemory),
    }
}

// A client and its requests among those of the input.
fn open_client(
    alloc: Global,
    cluster: &Cluster,
    me: RoleId,
    options: ClientOptions,
    events: &[Event],
) -> Result<Client, OpenStop>
    requires kind { me.kind ≡ kind.Client }
    requires named { IsTrue (names_role cluster.now me) }
    requires scripts { (client : ℕ) → IsScript cluster.now client (script_of client events.now) }
    requires some_window { 1 ≤ options.window }
    requires window { options.window ≤ 64 }
    ensures role { IfOk result
        (λ role. role ≡ client_opened cluster.now me (script_of me.index events.now) options) }
    ensures only { OnErr result (result ≡ Err open_stop.NoMemory) }
{
    match script(alloc, me.index, events) {
        Ok(script) => Ok(Client::open(cluster, me, script, options)),
        Err(_) => Err(OpenStop::NoMemory),
    }
}

// One role, by its kind.
fn open_guest<D: Depot>(
    alloc: Global,
    cluster: &Cluster,
    me: RoleId,
    options: ClientOptions,
    events: &[Event],
    depot: &mut D,
) -> Result<Guest<RecordStore<D::Store>>, OpenStop>
    requires named { IsTrue (names_role cluster.now me) }
    requires scripts { (client : ℕ) → IsScript cluster.now client (script_of client events.now) }
    requires some_window { 1 ≤ options.window }
    requires window { options.window ≤ 64 }
    requires in_depot { NoneIsOut me (D.out depot.old) }
    ensures opened { IfOk result
        (λ guest. IsOpened D.Store.Disk.seen D.Store.Disk.faults cluster.now options events.now
        (D.tells depot.old) (files_of (D.stored depot.old) me) me guest) }
    ensures lends { LendsFor D.Depot me result (λ guest. lent_to (guest ∷ [])) depot.old depot.new }
    ensures bad { (role : RoleId) (at : ℕ) → result ≡ Err (open_stop.BadStore role at)
        → D.tells depot.old ≡ true
        → IsBadAs cluster.now role (files_of (D.stored depot.old) role) at role.kind }
    ensures own { (role : RoleId) (at : ℕ) → result ≡ Err (open_stop.BadStore role at) → role ≡ me }
    ensures failed { (role : RoleId) → result ≡ Err (open_stop.StoreFault role)
        → Rises (D.faults depot.old role) (D.faults depot.new role) }
    ensures not_used { (role : RoleId) → result ≡ Err (open_stop.NotFresh role) → ⊥ }
{
    match me.kind {
        Kind::Client => {
            let role = open_client(alloc, cluster, me, options, events)?;
            Ok(Guest::Client { role })
        }
        Kind::Batcher => {
            let role = open_fresh::<Batcher>(alloc, cluster, me)?;
            Ok(Guest::Batcher { role })
        }
        Kind::Leader => {
            let (keeper, role) = open_durable::<D, Leader>(alloc, cluster, me, depot)?;
            Ok(Guest::Leader { role, keeper })
        }
        Kind::Proxy => {
            let role = open_fresh::<Proxy>(alloc, cluster, me)?;
            Ok(Guest::Proxy { role })
        }
        Kind::Acceptor => {
            let (keeper, role) = open_durable::<D, Acceptor>(alloc, cluster, me, depot)?;
            Ok(Guest::Acceptor { role, keeper })
        }
        Kind::Matchmaker => {
            let (keeper, role) = open_durable::<D, Matchmaker>(alloc, cluster, me, depot)?;
            Ok(Guest::Matchmaker { role, keeper })
        }
        Kind::Replica => {
            let (keeper, role) = open_twin(alloc, cluster, me, depot)?;
            Ok(Guest::Replica { role, keeper })
        }
        Kind::Unbatcher => {
            let role = open_fresh::<Unbatcher>(alloc, cluster, me)?;
            Ok(Guest::Unbatcher { role })
        }
        Kind::Reader => {
            let (keeper, role) = open_durable::<D, Reader>(alloc, cluster, me, depot)?;
            Ok(Guest::Reader { role, keeper })
        }
        Kind::Replacer => {
            let (keeper, role) = open_durable::<D, Replacer>(alloc, cluster, me, depot)?;
            Ok(Guest::Replacer { role, keeper })
        }
    }
}

/// Opens these roles in their order: the store of each that has records is taken from the depot, and the role woken
/// from it; a client gets its requests among those of the input. Those that were opened before a fault stay among the
/// seats.
pub fn open_seats<D: Depot>(
    alloc: Global,
    cluster: &Cluster,
    roles: &[RoleId],
    options: ClientOptions,
    events: &[Event],
    depot: &mut D,
    seats: &mut Vec<Seat<RecordStore<D::Store>>>,
) -> Result<(), OpenStop>
    requires named { (i : ℕ) (me : RoleId) → slice_get roles.now i ≡ Some me
        → IsTrue (names_role cluster.now me) }
    requires distinct { AreApart roles.now }
    requires scripts { (client : ℕ) → IsScript cluster.now client (script_of client events.now) }
    requires some_window { 1 ≤ options.window }
    requires window { options.window ≤ 64 }
    requires empty { seats.old.items ≡ [] }
    requires not_out { D.out depot.old ≡ [] }
    ensures opened { AreOpened D.Store.Disk.seen D.Store.Disk.faults cluster.now options events.now
        (D.tells depot.old) (files_of (D.stored depot.old)) roles.now seats.new.items }
    ensures all { OnOk result (length seats.new.items ≡ length roles.now) }
    ensures out { D.out depot.new ≡ lent_to seats.new.items }
    ensures tells_same { D.tells depot.new ≡ D.tells depot.old }

    // The records of a store stay, also where it could not be opened.
    ensures stored { D.tells depot.old ≡ true
        → SameRecords (files_of (D.stored depot.old)) (files_of (D.stored depot.new)) }
    ensures bad { (role : RoleId) (at : ℕ) → result ≡ Err (open_stop.BadStore role at)
        → D.tells depot.old ≡ true
        → IsFirstBad roles.now cluster.now (files_of (D.stored depot.old)) role at }
    ensures later { (role : RoleId) → D.faults depot.old role ≤ D.faults depot.new role }

    // A count rises only where the answer names its role.
    ensures others { (who : RoleId) → (result ≡ Err (open_stop.StoreFault who) → ⊥)
        → D.faults depot.new who ≡ D.faults depot.old who }
    ensures failed { (role : RoleId) → result ≡ Err (open_stop.StoreFault role)
        → Rises (D.faults depot.old role) (D.faults depot.new role) }

    // What the depot shows of other roles stays.
    ensures apart { (who : RoleId) → ((i : ℕ) → slice_get roles.now i ≡ Some who → ⊥)
        → StaysFor D.Depot depot.old depot.new who }
    ensures not_used { (role : RoleId) → result ≡ Err (open_stop.NotFresh role) → ⊥ }
{
    for role in roles {
        if seats.reserve(1).is_err() {
            return Err(OpenStop::NoMemory);
        }
        let guest = open_guest(alloc, cluster, *role, options, events, depot)?;
        seats.push_reserved(Seat::new(alloc, *role, guest));
    }
    Ok(())
}

// The first role whose store has a record, if one has.
fn first_used<D: Disk>(seats: &[Seat<RecordStore<D>>]) -> Option<RoleId>
    ensures { result ≡ first_holding seats.now }
{
    for seat in seats {
        if holds_record(seat) {
            return Some(seat.name());
        }
    }
    None
}

/// Opens these roles in their order, as `open_seats` does, and with its errors. Where their node is to record, no store may have a
/// record: `NotFresh` names the first role whose store has one, after all were opened. Whatever it answers, the seats have the stores
/// that are out: `close_seats` gives them back.
pub fn open_all<D: Depot>(
    alloc: Global,
    cluster: &Cluster,
    roles: &[RoleId],
    recording: bool,
    options: ClientOptions,
    events: &[Event],
    depot: &mut D,
    seats: &mut Vec<Seat<RecordStore<D::Store>>>,
) -> Result<(), OpenStop>
    requires named { (i : ℕ) (me : RoleId) → slice_get roles.now i ≡ Some me
        → IsTrue (names_role cluster.now me) }
    requires distinct { AreApart roles.now }
    requires scripts { (client : ℕ) → IsScript cluster.now client (script_of client events.now) }
    requires some_window { 1 ≤ options.window }
    requires window { options.window ≤ 64 }
    requires empty { seats.old.items ≡ [] }
    requires not_out { D.out depot.old ≡ [] }
    ensures opened { AreOpened D.Store.Disk.seen D.Store.Disk.faults cluster.now options events.now
        (D.tells depot.old) (files_of (D.stored depot.old)) roles.now seats.new.items }
    ensures all { OnOk result (length seats.new.items ≡ length roles.now) }
    ensures fresh { recording ≡ true → OnOk result (first_holding seats.new.items ≡ None) }
    ensures out { D.out depot.new ≡ lent_to seats.new.items }
    ensures tells_same { D.tells depot.new ≡ D.tells depot.old }
    ensures stored { D.tells depot.old ≡ true
        → SameRecords (files_of (D.stored depot.old)) (files_of (D.stored depot.new)) }
    ensures bad { (role : RoleId) (at : ℕ) → result ≡ Err (open_stop.BadStore role at)
        → D.tells depot.old ≡ true
        → IsFirstBad roles.now cluster.now (files_of (D.stored depot.old)) role at }

    // The first store that has a record, after all were opened.
    ensures used { (role : RoleId) → result ≡ Err (open_stop.NotFresh role)
        → (recording ≡ true)
        × (length seats.new.items ≡ length roles.now)
        × (D.tells depot.old ≡ true → IsFirstUsed roles.now (files_of (D.stored depot.old)) role) }
    ensures later { (role : RoleId) → D.faults depot.old role ≤ D.faults depot.new role }
    ensures others { (who : RoleId) → (result ≡ Err (open_stop.StoreFault who) → ⊥)
        → D.faults depot.new who ≡ D.faults depot.old who }
    ensures failed { (role : RoleId) → result ≡ Err (open_stop.StoreFault role)
        → Rises (D.faults depot.old role) (D.faults depot.new role) }
    ensures apart { (who : RoleId) → ((i : ℕ) → slice_get roles.now i ≡ Some who → ⊥)
        → StaysFor D.Depot depot.old depot.new who }
{
    match open_seats(alloc, cluster, roles, options, events, depot, seats) {
        Ok(()) => {}
        Err(stop) => return Err(stop),
    }
    if recording {
        return match first_used(seats) {
            Some(role) => Err(OpenStop::NotFresh { role }),
            None => Ok(()),
        };
    }
    Ok(())
}
