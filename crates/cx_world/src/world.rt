//! The world: all roles, and the histories of what happened.

ghost use Rattle.std.specs.Prelude.{◌≡◌, ◌++◌, ◌∷◌, [], true, false, IfOk, OnOk, OnErr, IsTrue, option_to_list, slice_get};
ghost use Rattle.cx_base.specs.Asked.{is_valid_event};
ghost use Rattle.cx_model.specs.Chosen.{chosen_prefix};
ghost use Rattle.cx_model.specs.World.{step, start, run, event_list};
ghost use Rattle.cx_promises.specs.Lawful.{IsLawful, IsCommandList};
ghost use Rattle.cx_world.specs.Counts.{counts_of};
ghost use Rattle.cx_world.specs.Folded.{folded_of};
ghost use Rattle.cx_history.specs.Begins.{IsPrefix};
ghost use Rattle.cx_history.specs.Kept.{all_changes_fit, changes_kept};
ghost use Rattle.cx_world.specs.World.{BeginWith, HasSeats, are_taken, effect_of, lists_of, world_of};

use crate::change::{Seats, change};
use crate::counts::{Counts, count};
use crate::folded::folded;
use crate::heard::{Heard, hear};
use crate::seat::open_all;
use crate::turned::Changed;
use cx_base::{Cluster, Event, Happened, Kind, NoMemory, Why};
use cx_choice::{Chosen, chosen_prefix};
use cx_history::{Events, Kept, Sent};
use cx_letter::{Datagram, KeptRecord};
use cx_role::Outbox;
use cx_trace::{Effect, Folded};
use std::alloc::Global;
use std::marker::Model;

/// All roles of a cluster with their keepers, and the histories: events with their results, changes of stores, and datagrams
/// that were sent, numbered from 0.
#[derive(Drop)]
pub struct World {
    alloc: Global,
    cluster: Cluster,
    seats: Seats,
    events: Events,
    kept: Kept,
    sent: Sent,
    heard: Heard,
    out: Outbox,
    spent: bool,
}

impl Model for World {
    ghost use Rattle.std.specs.Prelude.{◌≡◌, false};
    ghost use Rattle.cx_world.specs.World.{WorldState};

    ghost Value = { WorldState };

    ghost use Rattle.cx_world.specs.World.{IsUnspentWorld, seat_roles, lists_of};

    ghost view = { λ w. record {
      cluster = w.cluster;
      seats = lists_of w.seats;
      events = w.events;
      kept = w.kept;
      sent = w.sent;
      spent = w.spent;
    } };

    ghost invariant = { λ w. w.spent ≡ false
        → IsUnspentWorld (record {
          cluster = w.cluster;
          roles = seat_roles (lists_of w.seats);
          events = w.events;
          kept = w.kept;
          sent = w.sent;
        }) (lists_of w.seats) w.heard w.out.list };
}

// All roles running, with no records.
fn open_seats(alloc: Global, cluster: &Cluster) -> Result<Seats, NoMemory>
    ensures { IfOk result
        (λ seats. HasSeats cluster.now (start cluster.now).roles [] (lists_of seats)) }
{
    Ok(Seats {
        batchers: open_all(alloc, cluster, Kind::Batcher, cluster.batchers)?,
        leaders: open_all(alloc, cluster, Kind::Leader, cluster.leaders)?,
        proxies: open_all(alloc, cluster, Kind::Proxy, cluster.proxies)?,
        acceptors: open_all(alloc, cluster, Kind::Acceptor, cluster.acceptors)?,
        matchmakers: open_all(alloc, cluster, Kind::Matchmaker, cluster.pool)?,
        replicas: open_all(alloc, cluster, Kind::Replica, cluster.replicas)?,
        unbatchers: open_all(alloc, cluster, Kind::Unbatcher, cluster.unbatchers)?,
        readers: open_all(alloc, cluster, Kind::Reader, cluster.readers)?,
        replacers: open_all(alloc, cluster, Kind::Replacer, cluster.replacers)?,
    })
}

// Notes the change of a store, where there was one.
fn keep(kept: &mut Kept, what: Option<KeptRecord>) -> Result<(), NoMemory>
    requires { all_changes_fit (changes_kept (option_to_list what)) ≡ true }
    ensures ok { OnOk result (kept.new ≡ kept.old ++ option_to_list what) }
    ensures err { OnErr result (kept.new ≡ kept.old) }
{
    if let Some(one) = what {
        kept.push(one.role, &one.what)?;
    }
    Ok(())
}

// Writes what happened into the histories.
fn note(
    events: &mut Events,
    kept: &mut Kept,
    sent: &mut Sent,
    event: &Event,
    why: Why,
    what: Option<KeptRecord>,
    out: &mut Outbox,
) -> Result<(), NoMemory>
    requires { all_changes_fit (changes_kept (option_to_list what)) ≡ true }
    ensures events { OnOk result
        (events.new ≡ events.old ++ record { event = event.now; why = why } ∷ []) }
    ensures kept { OnOk result (kept.new ≡ kept.old ++ option_to_list what) }
    ensures sent { OnOk result (sent.new ≡ sent.old ++ out.old.list) }
    ensures out { OnOk result (out.new.list ≡ []) }
    ensures events_begin { OnErr result (IsPrefix events.old events.new) }
    ensures kept_begin { OnErr result (IsPrefix kept.old kept.new) }
    ensures sent_begin { OnErr result (IsPrefix sent.old sent.new) }
{
    events.push(&Happened { event: *event, why })?;
    keep(kept, what)?;
    sent.append(out.as_slice())?;
    out.clear();
    Ok(())
}

impl World {
    /// All roles run, with no records, and nothing has happened.
    pub fn new(alloc: Global, cluster: Cluster) -> Result<World, NoMemory>
        ensures world { IfOk result (λ world. world_of world ≡ start cluster) }
        ensures fresh { IfOk result (λ world. world.spent ≡ false) }
    {
        let seats = open_seats(alloc, &cluster)?;
        Ok(World {
            alloc,
            cluster,
            seats,
            events: Events::new(alloc),
            kept: Kept::new(alloc),
            sent: Sent::new(alloc),
            heard: Heard::new(),
            out: Outbox::new(alloc),
            spent: false,
        })
    }

    /// One event: the new world is the model's step of the old one, and the effect tells what the step did. What is promised of
    /// runs holds of the events so far, each of which the world took. After it ran out of memory the world is spent, and its histories begin with those from before.
    #[tactic(auto, unfolding(cx_model::specs::World::step))]
    pub fn step(&mut self, event: &Event) -> Result<Effect, NoMemory>
        requires fresh { self.old.spent ≡ false }
        requires taken { IsTrue (is_valid_event event.now) }
        ensures ok { OnOk result (world_of self.new ≡ step (world_of self.old) event.now) }
        ensures unspent { OnOk result (self.new.spent ≡ false) }
        ensures effect { IfOk result (λ effect. effect ≡ effect_of (world_of self.old) event.now) }
        ensures lawful { OnOk result (IsLawful self.new.cluster (event_list self.new.events)) }
        ensures all_taken { OnOk result (are_taken self.new.events ≡ true) }
        ensures spent { OnErr result (self.new.spent ≡ true) }
        ensures begun { OnErr result (BeginWith (world_of self.old) (world_of self.new)) }
    {
        self.spent = true;
        let first = self.sent.len();
        let Changed { who, why, kept } = change(
            &mut self.seats,
            &self.sent,
            &self.events,
            &self.heard,
            event,
            &mut self.out,
        )?;
        hear(&mut self.heard, &self.sent, event, why)?;
        note(
            &mut self.events,
            &mut self.kept,
            &mut self.sent,
            event,
            why,
            kept,
            &mut self.out,
        )?;
        self.spent = false;
        Ok(Effect {
            event: self.events.len(),
            who,
            why,
            first,
            end: self.sent.len(),
        })
    }

    /// Whether a step was cut off when out of memory.
    pub fn spent(&self) -> bool
        ensures { result ≡ self.now.spent }
    {
        self.spent
    }

    /// The cluster.
    pub fn cluster(&self) -> &Cluster
        ensures { result.now ≡ self.now.cluster }
    {
        &self.cluster
    }

    /// The datagrams that were sent, numbered from 0.
    pub fn sent(&self) -> &Sent
        ensures { result.now ≡ self.now.sent }
    {
        &self.sent
    }

    /// The datagram of this number, None exactly where it wasn't sent.
    pub fn datagram(&self, number: u64) -> Result<Option<Datagram>, NoMemory>
        ensures { IfOk result (λ datagram. datagram ≡ slice_get self.now.sent number) }
    {
        self.sent.get(number)
    }

    /// The values chosen in slot 0, 1 and so on, up to the first slot without one; from the kept votes and rounds alone. In a world
    /// that isn't spent it is the one command list.
    pub fn chosen_prefix(&self) -> Result<Chosen<'_>, NoMemory>
        ensures prefix { IfOk result (λ values. values ≡ chosen_prefix self.now.kept) }
        ensures agreed { self.now.spent ≡ false
            → IfOk result (λ values. IsCommandList self.now.cluster self.now.kept values) }
    {
        chosen_prefix(self.alloc, &self.kept)
    }

    /// How many values a replica kept, and the map that they leave.
    pub fn folded(&self, replica: u16) -> Result<Folded, NoMemory>
        ensures { IfOk result (λ folded. folded ≡ folded_of replica self.now.kept) }
    {
        folded(self.alloc, &self.kept, replica)
    }

    /// How much has happened.
    pub fn counts(&self) -> Counts
        ensures { result ≡ counts_of (world_of self.now) }
    {
        count(&self.events, &self.kept, &self.sent)
    }

    /// What is true of every world that isn't spent: it is the run of its events, each of which it took, and what is promised of runs
    /// holds of it.
    pub fn law(&self)
        requires { self.now.spent ≡ false }
        ensures run { world_of self.now ≡ run self.now.cluster (event_list self.now.events) }
        ensures lawful { IsLawful self.now.cluster (event_list self.now.events) }
        ensures all_taken { are_taken self.now.events ≡ true }
    {
        let _ = &self.spent;
    }
}
