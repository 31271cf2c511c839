//! The client.

ghost use Rattle.std.specs.Prelude.{◌≡◌, ◌≤◌, ◌<◌, ◌+◌, ◌-◌, ◌++◌, ◌∷◌, [], drop, filter, get_or, length, map, nat_lt, slice_get, take, IfOk, IfSome, OnErr, OnOk, IsTrue, false};
ghost use Rattle.cx_base.specs.declared.event.Event.{Event as Happening};
ghost use Rattle.cx_base.specs.declared.role.Kind.TheVariants as kind;
ghost use Rattle.cx_client.specs.Client.{Moves, after_completion, again, client_hears, client_opened, client_start, client_takes, client_ticks, hearing, is_finished, left};
ghost use Rattle.cx_client.specs.Asking.{shifted};
ghost use Rattle.cx_client.specs.Window.{floor_for, outstanding, request_letters};
ghost use Rattle.cx_field.specs.Fields as field;
ghost use Rattle.cx_model.specs.Names.{names_role};
ghost use Rattle.cx_script.specs.Requests.{IsScript, number_of};

use crate::asking::{ClientOptions, one_further, set_back};
use crate::sending::send_outstanding;
use crate::window::{first_of, number_of, outstanding, request_place};
use cx_base::{Cluster, Event, Kind, NoMemory, RoleId, Why};
use cx_letter::{Datagram, Msg};
use cx_role::{Outbox, is_for};
use std::marker::Model;

/// The result of a datagram, and whether it completed an outstanding request.
#[derive(Clone, Copy, Debug, PartialEq, Eq)]
pub struct ClientOutcome {
    pub why: Why,
    pub completes: bool,
}

/// A client and its script. Of its uncompleted requests the first ones are outstanding, as many as its window has room for, but none whose
/// number is more than 63 above the first (this project's own). Each is sent when it becomes so and at each tick, until an answer has its
/// number; its floor is the number just below the first uncompleted one, as of that sending. A session tells the greatest number that an
/// answer told the client, as of that sending. A client that asks others sends each first to the batcher, reader and replica of its line,
/// and at each tick since a request was last completed to those one place further.
#[derive(Drop)]
pub struct Client {
    cluster: Cluster,
    index: u16,
    // The completed requests, in the order of their completion, and then the others, in the order of their numbers.
    script: Vec<Event>,
    done: usize,
    window: u8,
    // The greatest number that an answer told it.
    heard: u64,
    // Where it asks others when it asks again, how often it has done so since a request of its was completed.
    shift: Option<u32>,
}

impl Model for Client {
    ghost use Rattle.cx_base.specs.Role.{role};
    ghost use Rattle.cx_base.specs.declared.role.Kind.TheVariants as kind;
    ghost use Rattle.cx_client.specs.Client.{ClientState, IsClient};

    ghost Value = { ClientState };

    ghost view = { λ c. record {
      cluster = c.cluster;
      me = role kind.Client c.index;
      script = c.script.items;
      done = c.done;
      window = c.window;
      heard = c.heard;
      shift = c.shift;
    } };

    ghost invariant = { λ c. IsClient
        (record {
          cluster = c.cluster;
          me = role kind.Client c.index;
          script = c.script.items;
          done = c.done;
          window = c.window;
          heard = c.heard;
          shift = c.shift;
        }) };
}

// Brings the request at a place of those that are left to their front, and those that it passes move up one place.
fn bring_forward(script: &mut Vec<Event>, done: usize, place: usize)
    requires { done + place < length script.old.items }
    ensures { (d : Happening) → script.new.items ≡ take done script.old.items
        ++ get_or script.old.items (done + place) d
        ∷ (take place (drop done script.old.items) ++ drop (done + place + 1) script.old.items) }
{
    let from = done + place;
    let event = script[from];
    script.copy_within(done..from, done + 1);
    script[done] = event;
}

// The last number of requests, 0 where there are none.
fn last_number(requests: &[Event]) -> u64
    ensures last { IfSome (slice_get requests.now (length requests.now - 1))
        (λ event. result ≡ number_of event) }
    ensures none { requests.now ≡ [] → result ≡ 0 }
{
    match requests.last() {
        Some(event) => number_of(event),
        None => 0,
    }
}

impl Client {
    /// A client of the cluster and its script, nothing sent. The script has requests of this client alone, with their names in the
    /// cluster and rising numbers from 1 on; 1 to 64 of them may be outstanding at a time.
    pub fn open(cluster: &Cluster, me: RoleId, script: Vec<Event>, options: ClientOptions) -> Self
        requires kind { me.kind ≡ kind.Client }
        requires named { IsTrue (names_role cluster.now me) }
        requires script { IsScript cluster.now me.index script.items }
        requires some_window { 1 ≤ options.window }
        requires window { options.window ≤ 64 }
        ensures { result ≡ client_opened cluster.now me script.items options }
    {
        Client {
            cluster: *cluster,
            index: me.index,
            script,
            done: 0,
            window: options.window,
            heard: 0,
            shift: if options.others { Some(0) } else { None },
        }
    }

    // The outstanding requests.
    fn outstanding(&self) -> &[Event]
        ensures { result.now ≡ outstanding self.now.window (left self.now) }
    {
        outstanding(&self.script[self.done..], self.window as usize)
    }

    // The outstanding requests whose numbers are above `sent` go out, so many places further.
    fn send_above(&self, sent: u64, shift: Option<u32>, out: &mut Outbox)
        requires room { self.now.window ≤ out.old.spare }
        ensures { out.new.list
            ≡ out.old.list ++ request_letters self.now.heard (floor_for (left self.now))
            (map (shifted self.now.cluster shift) (filter (λ (e : Happening).
            nat_lt sent (number_of e)) (outstanding self.now.window (left self.now)))) }
    {
        send_outstanding(
            &self.script[self.done..],
            self.window as usize,
            sent,
            &self.cluster,
            shift,
            self.heard,
            out,
        );
    }

    /// The outstanding requests are sent, as their lines name roles: the first ones of the script.
    pub fn start(&self, out: &mut Outbox) -> Result<(), NoMemory>
        requires empty { out.old.list ≡ [] }
        ensures sends { OnOk result (out.new.list ≡ client_start self.now) }
        ensures nothing { OnErr result (out.new.list ≡ []) }
    {
        out.room(self.window as usize)?;
        self.send_above(0, None, out);
        Ok(())
    }

    // The request at this place of those that are left is completed, and the client asks those of its lines again.
    fn complete(&mut self, place: usize)
        requires { place < length (left self.old) }
        ensures { (d : Happening)
            → self.new ≡ after_completion (number_of (get_or (left self.old) place d)) self.old }
    {
        bring_forward(&mut self.script, self.done, place);
        self.done += 1;
        self.shift = set_back(self.shift);
    }

    // An answer told it this number.
    fn raise(&mut self, at: u64)
        requires { IsTrue (field.mark.fits at) }
        ensures { self.new ≡ hearing at self.old }
    {
        self.heard = self.heard.max(at);
    }

    // It asks again.
    fn ask_again(&mut self)
        ensures { self.new ≡ again self.old }
    {
        self.shift = one_further(self.shift);
    }

    // An answer to the request of this number tells the number `at`.
    fn hear(&mut self, number: u64, at: u64, out: &mut Outbox) -> Result<ClientOutcome, NoMemory>
        requires at { IsTrue (field.mark.fits at) }
        requires empty { out.old.list ≡ [] }
        ensures ok { IfOk result
            (λ taken. Moves (client_hears (hearing at self.old) number) taken.why taken.completes
            self.new out.new.list) }
        ensures no_memory { OnErr result (self.new ≡ self.old) }
        ensures nothing { OnErr result (out.new.list ≡ []) }
    {
        let why = Why::Heard;
        let outstanding = self.outstanding();
        let Some(place) = request_place(outstanding, number) else {
            self.raise(at);
            return Ok(ClientOutcome {
                why,
                completes: false,
            });
        };
        let sent = last_number(outstanding);
        out.room(self.window as usize)?;
        self.raise(at);
        self.complete(place);
        self.send_above(sent, None, out);
        Ok(ClientOutcome {
            why,
            completes: true,
        })
    }

    /// One datagram. It is a stranger's, and nothing changes, where it isn't to this client, is no answer, or a name in it lies
    /// outside the cluster; any other is heard, and raises the number that sessions tell. An answer with the number of an
    /// outstanding request completes that one, and the requests that become outstanding are sent. Out of memory, nothing changes.
    pub fn take(&mut self, datagram: &Datagram, out: &mut Outbox) -> Result<ClientOutcome, NoMemory>
        requires empty { out.old.list ≡ [] }
        ensures ok { IfOk result
            (λ taken. Moves (client_takes self.old datagram.now) taken.why taken.completes self.new
            out.new.list) }
        ensures no_memory { OnErr result (self.new ≡ self.old) }
        ensures nothing { OnErr result (out.new.list ≡ []) }
    {
        let stranger = ClientOutcome {
            why: Why::Stranger,
            completes: false,
        };
        let me = RoleId::new(Kind::Client, self.index);
        if !is_for(&self.cluster, me, datagram) {
            return Ok(stranger);
        }
        match datagram.msg() {
            Msg::Answer { seq, at, .. } => self.hear(*seq, *at, out),
            Msg::ReadAnswer { seq, mark, .. } => self.hear(*seq, *mark, out),
            _ => Ok(stranger),
        }
    }

    /// One tick: the outstanding requests are sent again, where the client asks others one place further than the last time, or there is
    /// nothing to do where all are completed. Out of memory, nothing changes.
    pub fn tick(&mut self, out: &mut Outbox) -> Result<Why, NoMemory>
        requires empty { out.old.list ≡ [] }
        ensures ok { IfOk result
            (λ why. Moves (client_ticks self.old) why false self.new out.new.list) }
        ensures no_memory { OnErr result (self.new ≡ self.old) }
        ensures nothing { OnErr result (out.new.list ≡ []) }
    {
        if self.finished() {
            return Ok(Why::Idle);
        }
        out.room(self.window as usize)?;
        self.ask_again();
        self.send_above(0, self.shift, out);
        Ok(Why::Resent)
    }

    /// The number below which the client is done with all: that of its first uncompleted request, less 1; 0 where all are
    /// completed. A request that is sent now tells it as its floor.
    pub fn floor(&self) -> u64
        ensures { result ≡ floor_for (left self.now) }
    {
        first_of(&self.script[self.done..]).saturating_sub(1)
    }

    /// How many requests are completed.
    pub fn completed(&self) -> u64
        ensures { result ≡ self.now.done }
    {
        self.done as u64
    }

    /// Whether all requests are completed.
    pub fn finished(&self) -> bool
        ensures { result ≡ is_finished self.now }
    {
        self.done == self.script.len()
    }
}
