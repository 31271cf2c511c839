//! A role with its keeper, running or not.

ghost use Rattle.std.specs.Prelude.{◌≡◌, [], IfOk, IsErrOf, IsTrue, length, None, OnOk, Some, true};
ghost use Rattle.cx_base.specs.Cluster.{count_of};
ghost use Rattle.cx_model.specs.Rules.{Rules, Running, opened, outcome_of, refused};
ghost use Rattle.cx_letter.specs.declared.input.Act.TheVariants.{Give, Snap, Stop, Wake};
ghost use Rattle.cx_keep.specs.declared.keeper.KeepFault.TheVariants as fault;
ghost use Rattle.cx_keep.specs.Keeper.{all_fit};
ghost use Rattle.cx_role.specs.Role.{IsStep, MayKeep};
ghost use Rattle.cx_role.specs.Wake.{refused_behind, reopened};
ghost use Rattle.cx_world.specs.LastKeeper.{last_append_gives, list_kept, tells_nothing};
ghost use Rattle.cx_world.specs.Seat.{AreJustOpened, AreSeats, IsRoleOfRules, IsTurned, NeverSnaps, SaysFirst, is_snap, Seat, seat_turn, StandsByStore, TurnsAt, volatile_of, why_of_cut};

use crate::last_keeper::LastKeeper;
use crate::turned::Turned;
use cx_base::{Cluster, Cut, Kind, NoMemory, RoleId, Why};
use cx_letter::{Act, Input, Record, Written};
use cx_role::{Outbox, Role, Snaps, StepFault, WakeFault};
use std::alloc::Global;
use std::array::from_ref;
use std::marker::Model;

/// A role's place in the world: its keeper, and the role, which stays here while it doesn't run.
#[derive(Drop)]
pub struct Seat<R: Role> {
    alloc: Global,
    cluster: Cluster,
    me: RoleId,
    // None after it ran out of memory alone.
    role: Option<R>,
    runs: bool,
    // What it changed last, which the role may not know.
    keeper: LastKeeper,
}

impl<R: Role> Model for Seat<R> {
    ghost use Rattle.std.specs.Prelude.{if◌then◌else◌, None};
    ghost use Rattle.cx_world.specs.LastKeeper.{list_kept};
    ghost use Rattle.cx_world.specs.Seat.{Seat, Sits};

    ghost Value = { Seat R };

    ghost view = { λ seat. record {
      cluster = seat.cluster;
      me = seat.me;
      role = if seat.runs then seat.role else None;
      records = list_kept seat.keeper;
    } };

    ghost invariant = { λ seat.
        Sits R.rules R.state seat.cluster seat.me seat.keeper seat.role seat.runs };
}

fn why_of_cut(cut: Cut) -> Why
    ensures { result ≡ why_of_cut cut }
{
    match cut {
        Cut::Whole => Why::Down,
        Cut::Torn => Why::Torn,
        Cut::Kept => Why::Kept,
    }
}

fn still(why: Why) -> Turned
    ensures why { result.why ≡ why }
    ensures kept { result.kept ≡ None }
{
    Turned { why, kept: None }
}

// One step of a role, whatever it is given.
fn step<R: Role>(
    role: &mut R,
    keeper: &mut LastKeeper,
    input: &Input,
    out: &mut Outbox,
) -> Result<Why, StepFault>
    requires live { (R.state role.old).live ≡ true }
    requires empty { out.old.list ≡ [] }
    ensures step { IsStep last_append_gives tells_nothing R.rules (R.state role.old)
        (outcome_of R.rules (R.state role.old) input.now)
        result (R.state role.new) keeper.old keeper.new out.new.list }
    ensures kept { OnOk result
        (MayKeep R.rules (R.state role.old) (outcome_of R.rules (R.state role.old) input.now)) }
    ensures fits { IsErrOf result StepFault.Failed
        → MayKeep R.rules (R.state role.old) (outcome_of R.rules (R.state role.old) input.now) }
{
    match input {
        Input::Take { datagram } => role.take(keeper, datagram, out),
        Input::Order { order } => role.order(keeper, order, out),
        Input::Tick => Ok(role.tick(out)?),
    }
}

// The role as these records leave it. Only want of memory may keep it from that.
fn anew<R: Role>(
    alloc: Global,
    cluster: &Cluster,
    me: RoleId,
    records: &[Record],
) -> Result<R, NoMemory>
    requires place { IsRoleOfRules R.rules cluster.now me }
    requires fit { IsTrue (all_fit records.now) }
    requires own { refused R.rules cluster.now me records.now ≡ None }
    ensures { IfOk result (λ role. R.state role ≡ opened R.rules cluster.now me records.now) }
{
    match R::open(alloc, cluster, me, records) {
        Ok(role) => Ok(role),
        Err(WakeFault::NoMemory) => Err(NoMemory),
        Err(WakeFault::Record { .. }) => unreachable!(),
    }
}

// The role as it is opened again, with these records after what it knows. Only want of memory may keep it from that.
fn again<R: Role>(role: R, records: &[Record]) -> Result<R, NoMemory>
    requires fit { IsTrue (all_fit records.now) }
    requires own { refused_behind R.rules (R.state role) records.now ≡ None }
    ensures { IfOk result (λ opened. R.state opened ≡ reopened R.rules (R.state role) records.now) }
{
    match role.reopen(records) {
        Ok(role) => Ok(role),
        Err(WakeFault::NoMemory) => Err(NoMemory),
        Err(WakeFault::Record { .. }) => unreachable!(),
    }
}

// The role as its list leaves it: it stopped, and may not know the last change.
fn woken<R: Role + Drop>(
    alloc: Global,
    cluster: &Cluster,
    me: RoleId,
    role: R,
    keeper: &LastKeeper,
) -> Result<R, NoMemory>
    requires place { IsRoleOfRules R.rules cluster.now me }
    requires stands { StandsByStore R.rules cluster.now me keeper.now (R.state role) }
    ensures { IfOk result
        (λ woken. R.state woken ≡ opened R.rules cluster.now me (list_kept keeper.now)) }
{
    if role.live() {
        return again(role, &[]);
    }
    match keeper.last() {
        None => again(role, &[]),
        Some(Written::Record { what }) => again(role, from_ref(what)),
        Some(Written::Snap { .. }) => anew(alloc, cluster, me, &keeper.renewed()?),
    }
}

impl<R: Role + Drop> Seat<R> {
    /// A running role without records.
    pub fn opened(alloc: Global, cluster: &Cluster, me: RoleId) -> Result<Self, NoMemory>
        requires place { IsRoleOfRules R.rules cluster.now me }
        requires whole { R.rules.whole R.rules.empty ≡ true }
        ensures cluster { IfOk result (λ seat. seat.cluster ≡ cluster.now) }
        ensures me { IfOk result (λ seat. seat.me ≡ me) }
        ensures records { IfOk result (λ seat. seat.records ≡ []) }
        ensures role { IfOk result
            (λ seat. volatile_of R.state seat.role
            ≡ Some (R.rules.fresh cluster.now R.rules.empty)) }
    {
        let role = anew(alloc, cluster, me, &[])?;
        Ok(Seat {
            alloc,
            cluster: *cluster,
            me,
            role: Some(role),
            runs: true,
            keeper: LastKeeper::new(alloc),
        })
    }

    fn give(&mut self, input: &Input, cut: Cut, out: &mut Outbox) -> Result<Turned, NoMemory>
        requires { out.old.list ≡ [] }
        ensures { IfOk result (λ turned. IsTurned R.rules R.state
            (seat_turn R.rules R.state (Give input.now cut) self.old) self.old self.new turned.why
            turned.kept out.new.list) }
    {
        if !self.runs {
            return Ok(still(Why::Down));
        }
        let Some(role) = &mut self.role else {
            unreachable!();
        };
        self.keeper.cut(cut);
        match step(role, &mut self.keeper, input, out) {
            Ok(why) => {
                let kept = self.keeper.changed()?;
                Ok(Turned { why, kept })
            }
            Err(StepFault::NoMemory) => Err(NoMemory),
            Err(StepFault::Failed) => {
                self.runs = false;
                let kept = self.keeper.changed()?;
                Ok(Turned {
                    why: why_of_cut(cut),
                    kept,
                })
            }
        }
    }

    fn stop(&mut self) -> Why
        ensures { IsTurned R.rules R.state (seat_turn R.rules R.state Stop self.old) self.old
            self.new result None [] }
    {
        if !self.runs {
            return Why::Down;
        }
        self.runs = false;
        Why::Crashed
    }

    fn wake(&mut self) -> Result<Why, NoMemory>
        ensures { IfOk result (λ why. IsTurned R.rules R.state
            (seat_turn R.rules R.state Wake self.old) self.old self.new why None []) }
    {
        if self.runs {
            return Ok(Why::Up);
        }
        let Some(role) = self.role.take() else {
            return Err(NoMemory);
        };
        let role = woken(self.alloc, &self.cluster, self.me, role, &self.keeper)?;
        self.role = Some(role);
        self.runs = true;
        Ok(Why::Opened)
    }

    // A snap of a role whose list is never put anew.
    fn rest(&self, cut: Cut) -> Why
        requires { NeverSnaps R.rules }
        ensures { IsTurned R.rules R.state (seat_turn R.rules R.state (Snap cut) self.now) self.now
            self.now result None [] }
    {
        if !self.runs {
            return Why::Down;
        }
        Why::Idle
    }

    /// What is done to the role, but for a snap of one whose list may be put anew.
    pub fn act(&mut self, act: &Act, out: &mut Outbox) -> Result<Turned, NoMemory>
        requires empty { out.old.list ≡ [] }
        requires other { is_snap act.now ≡ true → NeverSnaps R.rules }
        ensures { IfOk result (λ turned. IsTurned R.rules R.state (seat_turn R.rules R.state act.now
            self.old) self.old self.new turned.why turned.kept out.new.list) }
    {
        match act {
            Act::Give { input, cut } => self.give(input, *cut, out),
            Act::Snap { cut } => Ok(still(self.rest(*cut))),
            Act::Stop => Ok(still(self.stop())),
            Act::Wake => Ok(still(self.wake()?)),
        }
    }
}

impl<R: Snaps + Drop> Seat<R> {
    /// The role's list is put anew.
    pub fn snap(&mut self, cut: Cut, out: &mut Outbox) -> Result<Turned, NoMemory>
        requires empty { out.old.list ≡ [] }
        requires says { SaysFirst R.rules }
        ensures { IfOk result (λ turned. IsTurned R.rules R.state
            (seat_turn R.rules R.state (Snap cut) self.old) self.old self.new turned.why
            turned.kept out.new.list) }
    {
        if !self.runs {
            return Ok(still(Why::Down));
        }
        let Some(role) = &mut self.role else {
            unreachable!();
        };
        self.keeper.cut(cut);
        match role.snap(&mut self.keeper, out) {
            Ok(why) => {
                let kept = self.keeper.changed()?;
                Ok(Turned { why, kept })
            }
            Err(StepFault::NoMemory) => Err(NoMemory),
            Err(StepFault::Failed) => {
                self.runs = false;
                let kept = self.keeper.changed()?;
                Ok(Turned {
                    why: why_of_cut(cut),
                    kept,
                })
            }
        }
    }
}

/// The list of the role at this place is put anew.
pub fn snap_at<R: Snaps + Drop>(
    seats: &mut Vec<Seat<R>>,
    index: u16,
    cut: Cut,
    out: &mut Outbox,
) -> Result<Turned, NoMemory>
    requires empty { out.old.list ≡ [] }
    requires says { SaysFirst R.rules }
    ensures { IfOk result (λ turned. TurnsAt R.rules R.state (Snap cut) index seats.old.items
        seats.new.items turned.why turned.kept out.new.list) }
{
    let index = index as usize;
    if index >= seats.len() {
        return Ok(still(Why::Down));
    }
    let seat = &mut seats[index];
    seat.snap(cut, out)
}

/// What is done to the role at this place, but for a snap of one whose list may be put anew.
pub fn act_at<R: Role + Drop>(
    seats: &mut Vec<Seat<R>>,
    index: u16,
    act: &Act,
    out: &mut Outbox,
) -> Result<Turned, NoMemory>
    requires empty { out.old.list ≡ [] }
    requires other { is_snap act.now ≡ true → NeverSnaps R.rules }
    ensures { IfOk result (λ turned. TurnsAt R.rules R.state act.now index seats.old.items
        seats.new.items turned.why turned.kept out.new.list) }
{
    let index = index as usize;
    if index >= seats.len() {
        return Ok(still(Why::Down));
    }
    let seat = &mut seats[index];
    seat.act(act, out)
}

/// A running role at each place below this count.
pub fn open_all<R: Role + Drop>(
    alloc: Global,
    cluster: &Cluster,
    kind: Kind,
    count: u16,
) -> Result<Vec<Seat<R>>, NoMemory>
    requires kind { kind ≡ R.rules.kind }
    requires count { count ≡ count_of cluster.now kind }
    requires whole { R.rules.whole R.rules.empty ≡ true }
    ensures count { IfOk result (λ seats. length seats.items ≡ count) }
    ensures fresh { IfOk result (λ seats. AreJustOpened R.rules R.state cluster.now seats.items) }
    ensures seats { IfOk result (λ seats. AreSeats R.rules cluster.now kind [] seats.items) }
{
    let mut seats = Vec::with_capacity(alloc, count as usize)?;
    for index in 0..count {
        seats.push(Seat::opened(alloc, cluster, RoleId { kind, index })?)?;
    }
    Ok(seats)
}
