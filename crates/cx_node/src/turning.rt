//! The parts of a turn.

ghost use Rattle.std.specs.Prelude.{◌≡◌, ◌==◌, ◌%◌, ◌||◌, Err, IfOk, None, Some};
ghost use Rattle.cx_base.specs.Faults.{Rises};
ghost use Rattle.cx_base.specs.declared.role.RoleId.{RoleId};
ghost use Rattle.cx_node.specs.declared.node.Stop.TheVariants as stop;
ghost use Rattle.cx_node.specs.Acts.{ActsPart, ActsTaking, Blames, Receives, come_of, failed, scene_of};
ghost use Rattle.cx_seat.specs.Changing.{changing};
ghost use Rattle.cx_seat.specs.Guest.{AreReady};
ghost use Rattle.cx_base.specs.Role.{role};
ghost use Rattle.cx_base.specs.declared.role.Kind.TheVariants as kind;
ghost use Rattle.cx_course.specs.Run.{comes, grid_of, lead_at, ordered, hosted_place, prepared, snaps, ticked, node_turn};
ghost use Rattle.cx_node.specs.TendedParts.{ActsTurn};
ghost use Rattle.cx_course.specs.Tending.{any_turn};

use crate::care::Care;
use crate::{Come, Node, Stop};
use cx_base::{Cluster, Grid, Kind, MEMBERS, NoMemory, Order, RoleId};
use cx_course::Doing;
use cx_edge::{Link, Sink, TakeEnd};
use cx_keep::Renew;
use cx_letter::Input;
use cx_msg::{WireFault, decode};
use cx_record::Recorder;
use std::alloc::Global;

// The first acceptors, as many as a grid can have.
const FIRST: [u16; MEMBERS] = [0, 1, 2, 3, 4, 5, 6, 7, 8, 9, 10, 11, 12, 13, 14, 15];

/// The grid that leader 0 is ordered to lead: the first acceptors, in two rows where their number is even, else in one.
pub fn first_grid(cluster: &Cluster) -> Grid
    ensures { result ≡ grid_of cluster.now }
{
    let count = cluster.acceptors.min(MEMBERS as u16);
    let members = &FIRST[..count as usize];
    if count % 2 == 0 {
        return Grid::from_parts(2, (count / 2) as u8, members);
    }
    Grid::from_parts(1, count as u8, members)
}

// Whether leader 0 is ordered to lead at this turn, whether replicas snap, and whether roles tick.
fn is_order_turn(n: u32) -> bool
    ensures { result ≡ ((n == 1) || (n % 4096 == 0)) }
{
    n == 1 || n % 4096 == 0
}

fn is_snap_turn(n: u32) -> bool
    ensures { result ≡ (n % 4096 == 0) }
{
    n % 4096 == 0
}

fn is_tick_turn(n: u32) -> bool
    ensures { result ≡ (n % 64 == 0) }
{
    n % 64 == 0
}

// The datagram that bytes spell, if they spell one.
fn spelled(alloc: Global, bytes: &[u8]) -> Result<Come, NoMemory>
    ensures { IfOk result (λ come. come ≡ come_of None (Some bytes.now)) }
{
    match decode(alloc, bytes) {
        Ok(datagram) => Ok(Come::Letter {
            number: 0,
            datagram,
        }),
        Err(fault) => match fault {
            WireFault::NoMemory => Err(NoMemory),
            _ => Ok(Come::Foreign),
        },
    }
}

// The last datagram with these bytes that the node sent, if it sent one.
fn recalled(recorder: &Recorder, bytes: &[u8]) -> Result<Come, NoMemory>
    ensures { IfOk result (λ come. come ≡ come_of (Some recorder.now) (Some bytes.now)) }
{
    match recorder.find(bytes)? {
        Some(found) => Ok(Come::Letter {
            number: found.number,
            datagram: found.datagram,
        }),
        None => Ok(Come::Foreign),
    }
}

// What bytes bring that a take gave.
fn brought(alloc: Global, recorder: &Option<Recorder>, bytes: &[u8]) -> Result<Come, NoMemory>
    ensures { IfOk result (λ come. come ≡ come_of recorder.now (Some bytes.now)) }
{
    match recorder {
        Some(recorder) => recalled(recorder, bytes),
        None => spelled(alloc, bytes),
    }
}

/// Takes what the link gives. Where the node records, bytes bring a datagram only if the node sent it.
pub fn receive<L: Link>(
    alloc: Global,
    recorder: &Option<Recorder>,
    buffer: &mut [u8],
    link: &mut L,
) -> Result<Come, Stop>
    ensures receives { Receives recorder.now (L.history link.old) (L.history link.new) result }
    ensures fault { result ≡ Err stop.LinkFault → Rises (L.faults link.old) (L.faults link.new) }
    ensures no_fault { (result ≡ Err stop.LinkFault → ⊥) → L.faults link.new ≡ L.faults link.old }
    ensures no_write { result ≡ Err stop.WriteFault → ⊥ }
    ensures no_store { (role : RoleId) → result ≡ Err (stop.StoreFault role) → ⊥ }
{
    match link.take(buffer) {
        TakeEnd::Got(count) => {
            let come = brought(alloc, recorder, &buffer[..count])?;
            Ok(come)
        }
        TakeEnd::Nothing => Ok(Come::Nothing),
        TakeEnd::Failed => Err(Stop::LinkFault),
    }
}

impl<K: Renew + Drop> Node<K> {
    // Orders leader 0 to lead, if it is hosted and idle.
    fn lead<L: Link, W: Sink>(&mut self, link: &mut L, out: &mut W) -> Result<(), Stop>
        requires ready { AreReady self.old.cluster self.old.guests }
        ensures acts { ActsPart (changing K.append_gives K.renew_gives) self.old.cluster
            (λ s. lead_at self.old.cluster (hosted_place (role kind.Leader 0) s.hosted) s) result
            (scene_of L.Link W.Sink self.old link.old out.old)
            (scene_of L.Link W.Sink self.new link.new out.new) }
        ensures blames { Blames result (failed L.Link W.Sink link.old out.old)
            (failed L.Link W.Sink link.new out.new) }
        ensures cluster { self.new.cluster ≡ self.old.cluster }
    {
        let Some(place) = self.find(RoleId::new(Kind::Leader, 0)) else {
            return Ok(());
        };
        if !self.seats[place].is_idle_leader() {
            return Ok(());
        }
        let order = Order::Lead(first_grid(&self.cluster));
        self.act(
            place,
            &Doing::Give {
                number: 0,
                input: Input::Order { order },
            },
            link,
            out,
        )
    }

    // An idle leader 0 is ordered to lead.
    pub fn order<L: Link, W: Sink>(&mut self, n: u32, link: &mut L, out: &mut W) -> Result<(), Stop>
        requires ready { AreReady self.old.cluster self.old.guests }
        ensures acts { ActsPart (changing K.append_gives K.renew_gives) self.old.cluster
            (ordered self.old.cluster n) result
            (scene_of L.Link W.Sink self.old link.old out.old)
            (scene_of L.Link W.Sink self.new link.new out.new) }
        ensures blames { Blames result (failed L.Link W.Sink link.old out.old)
            (failed L.Link W.Sink link.new out.new) }
        ensures cluster { self.new.cluster ≡ self.old.cluster }
    {
        if is_order_turn(n) {
            return self.lead(link, out);
        }
        Ok(())
    }

    // Replicas forget values that no other will ask them for.
    pub fn snap<L: Link, W: Sink>(&mut self, n: u32, link: &mut L, out: &mut W) -> Result<(), Stop>
        requires ready { AreReady self.old.cluster self.old.guests }
        ensures acts { ActsPart (changing K.append_gives K.renew_gives) self.old.cluster
            (snaps n) result
            (scene_of L.Link W.Sink self.old link.old out.old)
            (scene_of L.Link W.Sink self.new link.new out.new) }
        ensures blames { Blames result (failed L.Link W.Sink link.old out.old)
            (failed L.Link W.Sink link.new out.new) }
        ensures cluster { self.new.cluster ≡ self.old.cluster }
    {
        if is_snap_turn(n) {
            return self.all_act(&Doing::Snap, link, out);
        }
        Ok(())
    }

    // The first part of the n-th turn.
    fn prepare<L: Link, W: Sink>(&mut self, n: u32, link: &mut L, out: &mut W) -> Result<(), Stop>
        requires ready { AreReady self.old.cluster self.old.guests }
        ensures acts { ActsPart (changing K.append_gives K.renew_gives) self.old.cluster
            (prepared self.old.cluster n) result
            (scene_of L.Link W.Sink self.old link.old out.old)
            (scene_of L.Link W.Sink self.new link.new out.new) }
        ensures blames { Blames result (failed L.Link W.Sink link.old out.old)
            (failed L.Link W.Sink link.new out.new) }
        ensures cluster { self.new.cluster ≡ self.old.cluster }
    {
        self.order(n, link, out)?;
        self.snap(n, link, out)
    }

    // The second part of a turn: one take of the link.
    fn take<L: Link, W: Sink>(&mut self, link: &mut L, out: &mut W) -> Result<(), Stop>
        requires ready { AreReady self.old.cluster self.old.guests }
        ensures acts { ActsTaking (changing K.append_gives K.renew_gives) self.old.cluster
            comes result
            (scene_of L.Link W.Sink self.old link.old out.old)
            (scene_of L.Link W.Sink self.new link.new out.new) }
        ensures blames { Blames result (failed L.Link W.Sink link.old out.old)
            (failed L.Link W.Sink link.new out.new) }
        ensures cluster { self.new.cluster ≡ self.old.cluster }
    {
        let come = receive(self.alloc, &self.recorder, &mut self.buffer, link)?;
        match come {
            Come::Letter { number, datagram } => {
                let to = datagram.to();
                self.act_named(
                    to,
                    &Doing::Give {
                        number,
                        input: Input::Take { datagram },
                    },
                    link,
                    out,
                )
            }
            Come::Nothing => Ok(()),
            Come::Foreign => Ok(()),
        }
    }

    // The third part of the n-th turn.
    fn tick<L: Link, W: Sink>(&mut self, n: u32, link: &mut L, out: &mut W) -> Result<(), Stop>
        requires ready { AreReady self.old.cluster self.old.guests }
        ensures acts { ActsPart (changing K.append_gives K.renew_gives) self.old.cluster
            (ticked n) result
            (scene_of L.Link W.Sink self.old link.old out.old)
            (scene_of L.Link W.Sink self.new link.new out.new) }
        ensures blames { Blames result (failed L.Link W.Sink link.old out.old)
            (failed L.Link W.Sink link.new out.new) }
        ensures cluster { self.new.cluster ≡ self.old.cluster }
    {
        if is_tick_turn(n) {
            let tick = Doing::Give {
                number: 0,
                input: Input::Tick,
            };
            return self.all_act(&tick, link, out);
        }
        Ok(())
    }

    // The n-th turn of a node that doesn't tend its roles.
    fn untended_turn<L: Link, W: Sink>(
        &mut self,
        n: u32,
        link: &mut L,
        out: &mut W,
    ) -> Result<(), Stop>
        requires ready { AreReady self.old.cluster self.old.guests }
        ensures acts { ActsTaking (changing K.append_gives K.renew_gives) self.old.cluster
            (node_turn self.old.cluster n) result
            (scene_of L.Link W.Sink self.old link.old out.old)
            (scene_of L.Link W.Sink self.new link.new out.new) }
        ensures blames { Blames result (failed L.Link W.Sink link.old out.old)
            (failed L.Link W.Sink link.new out.new) }
        ensures cluster { self.new.cluster ≡ self.old.cluster }
    {
        self.prepare(n, link, out)?;
        self.take(link, out)?;
        self.tick(n, link, out)
    }

    // The n-th turn, tended with a limit of turns from beat to beat, or not tended.
    pub fn turn<L: Link, W: Sink>(
        &mut self,
        tend: Option<u32>,
        care: &mut Care,
        n: u32,
        link: &mut L,
        out: &mut W,
    ) -> Result<(), Stop>
        requires ready { AreReady self.old.cluster self.old.guests }
        ensures acts { ActsTurn (changing K.append_gives K.renew_gives) self.old.cluster
            (any_turn tend self.old.cluster n) result care.old care.new
            (scene_of L.Link W.Sink self.old link.old out.old)
            (scene_of L.Link W.Sink self.new link.new out.new) }
        ensures blames { Blames result (failed L.Link W.Sink link.old out.old)
            (failed L.Link W.Sink link.new out.new) }
        ensures cluster { self.new.cluster ≡ self.old.cluster }
    {
        match tend {
            Some(most) => self.tended_turn(care, most, n, link, out),
            None => self.untended_turn(n, link, out),
        }
    }
}
