//! A hosted role at its place in the node.

ghost use Rattle.std.specs.Prelude.{◌≡◌, ◌++◌, [], length, true, false, IfOk, IsTrue, None, OnOk, OnErr};
ghost use Rattle.std.specs.Option.{option_map};
ghost use Rattle.cx_leader.specs.Tending.{can_collect, is_new_leader};
ghost use Rattle.cx_model.specs.Rules.{outcome_of, running_after};
ghost use Rattle.cx_seat.specs.Changing.{changing};
ghost use Rattle.cx_seat.specs.Guest.{MakesRow, Performs, hosted_of, keeper_of, who};
ghost use Rattle.cx_course.specs.Course.{requests_by};
ghost use Rattle.cx_course.specs.Hosted.{ClientAt, starting_step, client_given, does, given, is_idle_leader, is_live_role, snapped};
ghost use Rattle.cx_course.specs.Run.{has_finished, is_client};
ghost use Rattle.cx_course.specs.Tending.{awaits_votes_at, completed, held_of, is_of_kind, leader_of, standing_of};
ghost use Rattle.cx_seat.specs.Opening.{holds_record};
ghost use Rattle.cx_seat.specs.Seat.{is_leader_so, unanswered};
ghost use Rattle.cx_record.specs.Numbers.{has_room};

use crate::Guest;
use crate::noting::{has_room, note_requests};
use cx_base::{Event, Kind, NoMemory, RoleId};
use cx_client::Client;
use cx_course::{Doing, Standing};
use cx_disk::Disk;
use cx_journal::RecordStore;
use cx_keep::Renew;
use cx_keeper::MemKeeper;
use cx_leader::Leader;
use cx_letter::{Datagram, Input};
use cx_record::Recorder;
use cx_role::{Outbox, Role, Snaps, StepFault};
use cx_trace::put_told;
use std::alloc::Global;
use std::marker::Model;

/// A hosted role and its name.
#[derive(Drop)]
pub struct Seat<K> {
    alloc: Global,
    me: RoleId,
    guest: Guest<K>,
}

impl<K> Model for Seat<K> {
    ghost use Rattle.cx_seat.specs.declared.guest.Guest.{Guest};
    ghost use Rattle.cx_seat.specs.Seat.{IsNamed, named};

    ghost Value = { Guest K };

    ghost view = { λ seat. named seat.me seat.guest };

    ghost invariant = { λ seat. IsNamed seat.me seat.guest };
}

// One step of a role, whatever it is given.
fn step<R: Role, K: Renew>(
    role: &mut R,
    keeper: &mut K,
    input: &Input,
    out: &mut Outbox,
) -> Result<(), StepFault>
    requires live { (R.state role.old).live ≡ true }
    requires empty { out.old.list ≡ [] }
    ensures { MakesRow (changing K.append_gives K.renew_gives)
        R.rules (R.state role.old) (outcome_of R.rules (R.state role.old) input.now)
        result (R.state role.new) keeper.old keeper.new out.new.list }
{
    match input {
        Input::Take { datagram } => {
            role.take(keeper, datagram, out)?;
        }
        Input::Order { order } => {
            role.order(keeper, order, out)?;
        }
        Input::Tick => {
            role.tick(out)?;
        }
    }
    Ok(())
}

// The same of a role that keeps no records.
fn step_alone<R: Role>(
    alloc: Global,
    role: &mut R,
    input: &Input,
    out: &mut Outbox,
) -> Result<(), NoMemory>
    requires live { (R.state role.old).live ≡ true }
    requires empty { out.old.list ≡ [] }
    ensures state { OnOk result (R.state role.new
        ≡ running_after R.rules (R.state role.old)
        (outcome_of R.rules (R.state role.old) input.now)) }
    ensures sends { OnOk result
        (out.new.list ≡ (outcome_of R.rules (R.state role.old) input.now).sends) }
    ensures name { OnErr result
        ((R.state role.new).live ≡ true → (R.state role.new).me ≡ (R.state role.old).me) }
{
    let mut keeper = MemKeeper::new(alloc);
    match step(role, &mut keeper, input, out) {
        Ok(()) => Ok(()),
        Err(StepFault::NoMemory) => Err(NoMemory),
        Err(StepFault::Failed) => unreachable!(),
    }
}

// A client takes what it is given, and prints the line of a datagram that completes its request.
#[tactic(auto, using(crate::proofs::ClientName::takes_name, crate::proofs::ClientName::ticks_name))]
fn give_client(
    client: &mut Client,
    index: u16,
    input: &Input,
    out: &mut Outbox,
    text: &mut Vec<u8>,
) -> Result<(), NoMemory>
    requires index { index ≡ client.old.me.index }
    requires empty { out.old.list ≡ [] }
    requires no_text { text.old.items ≡ [] }
    ensures state { OnOk result (ClientAt client.new ≡ (client_given client.old input.now).next) }
    ensures sends { OnOk result (out.new.list ≡ (client_given client.old input.now).sends) }
    ensures text { OnOk result (text.new.items ≡ (client_given client.old input.now).text) }
    ensures name { client.new.me ≡ client.old.me }
{
    match input {
        Input::Take { datagram } => {
            let taken = client.take(datagram, out)?;
            if taken.completes {
                put_told(text, index, datagram.msg())?;
            }
        }
        Input::Tick => {
            client.tick(out)?;
        }
        Input::Order { .. } => {}
    }
    Ok(())
}

// A client sends its outstanding requests; another role has nothing to begin with.
fn begin<K>(guest: &mut Guest<K>, out: &mut Outbox) -> Result<(), NoMemory>
    requires empty { out.old.list ≡ [] }
    ensures state { guest.new ≡ guest.old }
    ensures sends { OnOk result (out.new.list ≡ (starting_step (hosted_of guest.old)).sends) }
{
    match guest {
        Guest::Client { role } => role.start(out),
        _ => Ok(()),
    }
}

// A hosted role takes an input.
fn give<K: Renew>(
    alloc: Global,
    guest: &mut Guest<K>,
    index: u16,
    input: &Input,
    out: &mut Outbox,
    text: &mut Vec<u8>,
) -> Result<(), StepFault>
    requires index { index ≡ (who guest.old).index }
    requires live { IsTrue (is_live_role (hosted_of guest.old)) }
    requires empty { out.old.list ≡ [] }
    requires no_text { text.old.items ≡ [] }
    ensures step { Performs (changing K.append_gives K.renew_gives) (given (hosted_of guest.old)
        input.now) result guest.old guest.new out.new.list text.new.items }
    ensures name { OnOk result (who guest.new ≡ who guest.old) }
    ensures no_name { OnErr result
        (IsTrue (is_live_role (hosted_of guest.new)) → who guest.new ≡ who guest.old) }
{
    match guest {
        Guest::Client { role } => give_client(role, index, input, out, text)?,
        Guest::Batcher { role } => step_alone(alloc, role, input, out)?,
        Guest::Leader { role, keeper } => step(role, keeper, input, out)?,
        Guest::Proxy { role } => step_alone(alloc, role, input, out)?,
        Guest::Acceptor { role, keeper } => step(role, keeper, input, out)?,
        Guest::Matchmaker { role, keeper } => step(role, keeper, input, out)?,
        Guest::Replica { role, keeper } => step(role, keeper, input, out)?,
        Guest::Unbatcher { role } => step_alone(alloc, role, input, out)?,
        Guest::Reader { role, keeper } => step(role, keeper, input, out)?,
        Guest::Replacer { role, keeper } => step(role, keeper, input, out)?,
    }
    Ok(())
}

// A replica forgets values; another role has none to forget.
fn snap<K: Renew>(guest: &mut Guest<K>, out: &mut Outbox) -> Result<(), StepFault>
    requires live { IsTrue (is_live_role (hosted_of guest.old)) }
    requires empty { out.old.list ≡ [] }
    ensures step { Performs (changing K.append_gives K.renew_gives) (snapped (hosted_of guest.old))
        result guest.old guest.new out.new.list [] }
    ensures name { OnOk result (who guest.new ≡ who guest.old) }
    ensures no_name { OnErr result
        (IsTrue (is_live_role (hosted_of guest.new)) → who guest.new ≡ who guest.old) }
{
    if let Guest::Replica { role, keeper } = guest {
        role.snap(keeper, out)?;
    }
    Ok(())
}

// What a leader reports.
fn standing_in(leader: &Leader) -> Standing
    ensures { result ≡ standing_of leader.now }
{
    Standing {
        may_lead: leader.idle() && leader.has_heard(),
        cw: leader.cw(),
        has_open: leader.has_open(),
        is_spent: leader.is_spent(),
        can_collect: leader.can_collect(),
    }
}

// The number of a client's first request that isn't answered, if there is one.
fn first_left(client: &Client) -> Option<u64>
    ensures { result ≡ unanswered (ClientAt client.now) }
{
    if client.finished() {
        return None;
    }
    Some(client.floor().saturating_add(1))
}

// The keeper of a hosted role's records, where it has any.
fn keeper_in<K>(guest: Guest<K>) -> Option<K>
    ensures { result ≡ keeper_of guest }
{
    match guest {
        Guest::Leader { keeper, .. } => Some(keeper),
        Guest::Acceptor { keeper, .. } => Some(keeper),
        Guest::Matchmaker { keeper, .. } => Some(keeper),
        Guest::Replica { keeper, .. } => Some(keeper),
        Guest::Reader { keeper, .. } => Some(keeper),
        Guest::Replacer { keeper, .. } => Some(keeper),
        _ => None,
    }
}

impl<K: Renew> Seat<K> {
    /// The seat of a role of this name. It takes no memory.
    pub fn new(alloc: Global, me: RoleId, guest: Guest<K>) -> Self
        requires { me ≡ who guest }
        ensures { result ≡ guest }
    {
        Seat { alloc, me, guest }
    }

    /// The role's name.
    pub fn name(&self) -> RoleId
        ensures { result ≡ who self.now }
    {
        self.me
    }

    /// Whether it is a leader that doesn't lead, and isn't about to.
    pub fn is_idle_leader(&self) -> bool
        ensures { result ≡ is_idle_leader (hosted_of self.now) }
    {
        match &self.guest {
            Guest::Leader { role, .. } => role.idle(),
            _ => false,
        }
    }

    /// Whether it is a leader that never began a round.
    pub fn is_new(&self) -> bool
        ensures { result
            ≡ is_leader_so (λ l. is_new_leader l.durable) (leader_of (hosted_of self.now)) }
    {
        match &self.guest {
            Guest::Leader { role, .. } => role.is_new(),
            _ => false,
        }
    }

    /// Whether it is a leader that an order to collect would have begin.
    pub fn can_collect(&self) -> bool
        ensures { result
            ≡ is_leader_so (λ l. can_collect l.volatile) (leader_of (hosted_of self.now)) }
    {
        match &self.guest {
            Guest::Leader { role, .. } => role.can_collect(),
            _ => false,
        }
    }

    /// What its leader reports, if it is one.
    pub fn standing(&self) -> Option<Standing>
        ensures { result ≡ option_map standing_of (leader_of (hosted_of self.now)) }
    {
        match &self.guest {
            Guest::Leader { role, .. } => Some(standing_in(role)),
            _ => None,
        }
    }

    /// Whether it is a proxy leader that waits for votes.
    pub fn awaits_votes(&self) -> bool
        ensures { result ≡ awaits_votes_at (hosted_of self.now) }
    {
        match &self.guest {
            Guest::Proxy { role } => role.awaits_votes(),
            _ => false,
        }
    }

    /// How many slots its replica holds, 0 where it is none.
    pub fn held(&self) -> u64
        ensures { result ≡ held_of (hosted_of self.now) }
    {
        match &self.guest {
            Guest::Replica { role, .. } => role.held(),
            _ => 0,
        }
    }

    /// How many requests its client has completed, 0 where it is none.
    pub fn completed(&self) -> u64
        ensures { result ≡ completed (hosted_of self.now) }
    {
        match &self.guest {
            Guest::Client { role } => role.completed(),
            _ => 0,
        }
    }

    /// Whether it is of this kind.
    pub fn is_of(&self, kind: Kind) -> bool
        ensures { result ≡ is_of_kind kind (hosted_of self.now) }
    {
        self.me.kind == kind
    }

    /// Whether it is a client.
    pub fn is_client(&self) -> bool
        ensures { result ≡ is_client (hosted_of self.now) }
    {
        self.me.kind == Kind::Client
    }

    /// Whether it has no request that isn't answered: only a client has any.
    pub fn has_finished(&self) -> bool
        ensures { result ≡ has_finished (hosted_of self.now) }
    {
        match &self.guest {
            Guest::Client { role } => role.finished(),
            _ => true,
        }
    }

    /// The number of its client's first request that isn't answered, where it has not finished.
    pub fn unanswered(&self) -> Option<u64>
        ensures { result ≡ unanswered (hosted_of self.now) }
    {
        match &self.guest {
            Guest::Client { role } => first_left(role),
            _ => None,
        }
    }

    /// Adds the requests that its client sends by these datagrams to the events of its step, and returns whether the record has
    /// room for the lines of all. Another role sends none, and of it that is taken to be so.
    pub fn note_requests(
        &self,
        recorder: &Recorder,
        sends: &[Datagram],
        events: &mut Vec<Event>,
    ) -> Result<bool, NoMemory>
        ensures events { OnOk result
            (events.new.items ≡ events.old.items ++ requests_by (hosted_of self.now) sends.now) }
        ensures room { has_room (length events.old.items) recorder.now ≡ true
            → IfOk result (λ room. room ≡ has_room (length events.new.items) recorder.now) }
        ensures none { IfOk result (λ room. room ≡ false → keeper_of self.now ≡ None) }
        ensures client { OnErr result (keeper_of self.now ≡ None) }
    {
        match &self.guest {
            Guest::Client { role } => {
                note_requests(role.floor(), sends, events)?;
                Ok(has_room(recorder, events))
            }
            _ => Ok(true),
        }
    }

    /// The keeper of its records, where it has any.
    pub fn into_keeper(self) -> Option<K>
        ensures { result ≡ keeper_of self }
    {
        keeper_in(self.guest)
    }

    /// The role does what it is asked: its state, the change of its list, what it sends and the line that it prints are exactly
    /// those of the definition. `Failed` comes only where the change of its keeper's list failed; then, and out of
    /// memory, nothing may be sent.
    #[tactic(auto, unfolding(cx_course::specs::Hosted::does))]
    pub fn act(
        &mut self,
        what: &Doing,
        out: &mut Outbox,
        text: &mut Vec<u8>,
    ) -> Result<(), StepFault>
        requires live { IsTrue (is_live_role (hosted_of self.old)) }
        requires empty { out.old.list ≡ [] }
        requires no_text { text.old.items ≡ [] }
        ensures step { Performs (changing K.append_gives K.renew_gives) (does (hosted_of self.old)
            what.now) result self.old self.new out.new.list text.new.items }
        ensures name { who self.new ≡ who self.old }
    {
        match what {
            Doing::Begin => begin(&mut self.guest, out)?,
            Doing::Give { input, .. } => give(
                self.alloc,
                &mut self.guest,
                self.me.index,
                input,
                out,
                text,
            )?,
            Doing::Snap => snap(&mut self.guest, out)?,
        }
        Ok(())
    }
}

/// Whether the store of a role, if it has one, has a record.
pub fn holds_record<D: Disk>(seat: &Seat<RecordStore<D>>) -> bool
    ensures { result ≡ holds_record (keeper_of seat.now) }
{
    match &seat.guest {
        Guest::Leader { keeper, .. } => !keeper.is_empty(),
        Guest::Acceptor { keeper, .. } => !keeper.is_empty(),
        Guest::Matchmaker { keeper, .. } => !keeper.is_empty(),
        Guest::Replica { keeper, .. } => !keeper.is_empty(),
        Guest::Reader { keeper, .. } => !keeper.is_empty(),
        Guest::Replacer { keeper, .. } => !keeper.is_empty(),
        _ => false,
    }
}
