//! The node: its hosted roles, and how it runs.

ghost use Rattle.std.specs.Prelude.{◌≡◌, Err, IfOk, IfErr, None, Some, if◌then◌else◌};
ghost use Rattle.std.specs.List.{list_all, list_any};
ghost use Rattle.cx_base.specs.Faults.{Rises};
ghost use Rattle.cx_node.specs.declared.node.Stop.TheVariants as stop;
ghost use Rattle.cx_node.specs.Acts.{ActsLong, Blames, failed, scene_of};
ghost use Rattle.cx_seat.specs.Changing.{changing};
ghost use Rattle.cx_seat.specs.Guest.{AreReady, hosted_in, hosted_of};
ghost use Rattle.cx_node.specs.Node.{Runs, RunsPart};
ghost use Rattle.cx_course.specs.Run.{all_finished, has_finished, is_client};
ghost use Rattle.cx_course.specs.Tending.{first_care};
ghost use Rattle.cx_record.specs.Numbers.{blank};

use crate::care::Care;
use cx_base::{Cluster, Event, MAX_DATAGRAM_LENGTH, NoMemory, RoleId};
use cx_course::Doing;
use cx_edge::{Link, Sink};
use cx_keep::Renew;
use cx_record::Recorder;
use cx_role::Outbox;
use cx_seat::Seat;
use std::alloc::Global;
use std::marker::Model;

/// More bytes than a datagram has, so that a longer one can't pass for one that it begins with.
pub const BUFFER: usize = MAX_DATAGRAM_LENGTH + 1;

/// Why a run stopped before its end.
#[derive(Clone, Copy)]
pub enum Stop {
    NoMemory,
    /// The output failed.
    WriteFault,
    /// The link failed at a take.
    LinkFault,
    /// The store of a role failed.
    StoreFault { role: RoleId },
    /// The record has no room for the lines of the next step.
    RecordFull,
}

impl From<NoMemory> for Stop {
    ghost from_gives = { λ _ e. e ≡ stop.NoMemory };

    fn from(_: NoMemory) -> Self {
        Stop::NoMemory
    }
}

/// How a whole run ended.
#[derive(Clone, Copy)]
pub enum RunEnd {
    /// All hosted clients have finished; or none is hosted, and all turns were made.
    Done,
    /// All turns were made, and a hosted client has a request that isn't answered.
    Turns,
}

/// Hosted roles, in the order in which they were named.
#[derive(Drop)]
pub struct Node<K> {
    pub(crate) alloc: Global,
    pub(crate) cluster: Cluster,
    pub(crate) seats: Vec<Seat<K>>,
    // What it knows of its record, where it records.
    pub(crate) recorder: Option<Recorder>,
    pub(crate) outbox: Outbox,
    pub(crate) events: Vec<Event>,
    pub(crate) text: Vec<u8>,
    pub(crate) bytes: Vec<u8>,
    pub(crate) buffer: Vec<u8>,
}

impl<K> Model for Node<K> {
    ghost use Rattle.std.specs.Prelude.{◌≡◌, length};
    ghost use Rattle.cx_node.specs.Node.{NodeState};

    ghost Value = { NodeState K };

    ghost view = { λ node.
        record { cluster = node.cluster; guests = node.seats.items; recorded = node.recorder } };

    ghost invariant = { λ node. length node.buffer.items ≡ 32769 };
}

// A recorder that knows of nothing, where the node records.
fn recorder_of(alloc: Global, recording: bool) -> Option<Recorder>
    ensures { result ≡ (if recording then Some blank else None) }
{
    recording.then(|| Recorder::new(alloc))
}

impl<K: Renew + Drop> Node<K> {
    /// A node of these roles, which records its run or doesn't. The memory of its buffer is taken here.
    pub fn new(
        alloc: Global,
        cluster: &Cluster,
        seats: Vec<Seat<K>>,
        recording: bool,
    ) -> Result<Self, (NoMemory, Vec<Seat<K>>)>
        ensures node { IfOk result (λ node. node ≡ record {
          cluster = cluster.now;
          guests = seats.items;
          recorded = if recording then Some blank else None;
        }) }
        ensures given_back { IfErr result (λ e. e.1.items ≡ seats.items) }
    {
        match vec![in alloc; 0u8; BUFFER] {
            Ok(buffer) => Ok(Node {
                alloc,
                cluster: *cluster,
                seats,
                recorder: recorder_of(alloc, recording),
                outbox: Outbox::new(alloc),
                events: Vec::new(alloc),
                text: Vec::new(alloc),
                bytes: Vec::new(alloc),
                buffer,
            }),
            Err(_) => Err((NoMemory, seats)),
        }
    }

    /// The hosted roles, given back.
    pub fn into_seats(self) -> Vec<Seat<K>>
        ensures { result.items ≡ self.guests }
    {
        self.seats
    }

    // Whether a client is hosted.
    fn has_client(&self) -> bool
        ensures { result ≡ list_any is_client (hosted_in self.now.guests) }
    {
        any_client(&self.seats)
    }

    // Whether a client is hosted, and all hosted ones have finished.
    fn has_finished(&self) -> bool
        ensures { result ≡ all_finished (hosted_in self.now.guests) }
    {
        any_client(&self.seats) && all_finished(&self.seats)
    }

    // What is counted before the first turn.
    fn first_care(&self, tend: Option<u32>) -> Result<Care, NoMemory>
        ensures { IfOk result (λ care. care ≡ first_care tend (hosted_in self.now.guests)) }
    {
        match tend {
            Some(_) => Care::new(self.alloc, self.seats.len()),
            None => Care::new(self.alloc, 0),
        }
    }

    // Makes `turns` turns, or those until all hosted clients have finished.
    fn all_turns<L: Link, W: Sink>(
        &mut self,
        turns: u32,
        tend: Option<u32>,
        link: &mut L,
        out: &mut W,
    ) -> Result<(), Stop>
        requires ready { AreReady self.old.cluster self.old.guests }
        ensures acts { ActsLong (changing K.append_gives K.renew_gives) tend self.old.cluster
            turns result
            (scene_of L.Link W.Sink self.old link.old out.old)
            (scene_of L.Link W.Sink self.new link.new out.new) }
        ensures blames { Blames result (failed L.Link W.Sink link.old out.old)
            (failed L.Link W.Sink link.new out.new) }
        ensures cluster { self.new.cluster ≡ self.old.cluster }
    {
        let mut care = self.first_care(tend)?;
        self.all_act(&Doing::Begin, link, out)?;
        let mut made = 0;
        while made < turns {
            if self.has_finished() {
                return Ok(());
            }
            made += 1;
            self.turn(tend, &mut care, made, link, out)?;
        }
        Ok(())
    }

    /// Runs `turns` turns, or until all hosted clients have finished: clients send their first requests, and each
    /// turn has three parts. An idle leader 0 is ordered to lead (at turn 1 and at each that 4,096 divides) and replicas
    /// forget values that no other will ask them for (at each turn that 4,096 divides), one datagram is taken from the
    /// link, and all roles tick (at each turn that 64 divides). A node that tends its roles has them tick, and orders
    /// leader 0, by what it counts, with at most `tend` turns from one beat to the next. What is taken, kept, sent and
    /// printed are exactly the run's actions, or a prefix of them where something failed.
    pub fn run<L: Link, W: Sink>(
        &mut self,
        turns: u32,
        tend: Option<u32>,
        link: &mut L,
        out: &mut W,
    ) -> Result<RunEnd, Stop>
        requires ready { AreReady self.old.cluster self.old.guests }
        ensures done { IfOk result
            (λ end. Runs (changing K.append_gives K.renew_gives) tend self.old.cluster turns end
            (scene_of L.Link W.Sink self.old link.old out.old)
            (scene_of L.Link W.Sink self.new link.new out.new)) }
        ensures part { IfErr result
            (λ e. RunsPart (changing K.append_gives K.renew_gives) e tend self.old.cluster turns
            (scene_of L.Link W.Sink self.old link.old out.old)
            (scene_of L.Link W.Sink self.new link.new out.new)) }
        ensures written { result ≡ Err stop.WriteFault
            → Rises (W.faults out.old) (W.faults out.new) }
        ensures unwritten { (result ≡ Err stop.WriteFault → ⊥)
            → W.faults out.new ≡ W.faults out.old }
        ensures linked { result ≡ Err stop.LinkFault
            → Rises (L.faults link.old) (L.faults link.new) }
        ensures unlinked { (result ≡ Err stop.LinkFault → ⊥)
            → L.faults link.new ≡ L.faults link.old }
        ensures cluster { self.new.cluster ≡ self.old.cluster }
    {
        let hosts_client = self.has_client();
        self.all_turns(turns, tend, link, out)?;
        if hosts_client && !self.has_finished() {
            return Ok(RunEnd::Turns);
        }
        Ok(RunEnd::Done)
    }
}

fn any_client<K: Renew>(seats: &[Seat<K>]) -> bool
    ensures { result ≡ list_any (λ guest. is_client (hosted_of guest)) seats.now }
{
    seats.iter().any(|seat| seat.is_client())
}

fn all_finished<K: Renew>(seats: &[Seat<K>]) -> bool
    ensures { result ≡ list_all (λ guest. has_finished (hosted_of guest)) seats.now }
{
    seats.iter().all(|seat| seat.has_finished())
}
