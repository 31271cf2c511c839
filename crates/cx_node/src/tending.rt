//! The turns of a node that tends its roles.

ghost use Rattle.std.specs.Prelude.{◌≡◌, ◌/◌, ◌==◌, ◌&&◌, ℕ, [], ◌∷◌, List, length, filter, map, min};
ghost use Rattle.std.specs.Prelude.{sum_by, Option, is_some, IfOk, if◌then◌else◌};
ghost use Rattle.cx_base.specs.Role.{role};
ghost use Rattle.cx_leader.specs.Tending.{can_collect};
ghost use Rattle.cx_node.specs.Acts.{Acts, ActsPart, Blames, failed, scene_of};
ghost use Rattle.cx_seat.specs.Changing.{changing};
ghost use Rattle.cx_seat.specs.Guest.{AreReady, hosted_of};
ghost use Rattle.cx_node.specs.Node.{course_at};
ghost use Rattle.cx_record.specs.Numbers.{numbered};
ghost use Rattle.cx_course.specs.Run.{is_client};
ghost use Rattle.cx_course.specs.Tending.{beat, clients_tended, completed, gets, paused};
ghost use Rattle.cx_course.specs.Tending.{heeded, leader_asked, leader_cared, next_pass};
ghost use Rattle.cx_course.specs.Tending.{tend_comes, tended_turn, turn_ended};
ghost use Rattle.cx_node.specs.TendedParts.{ActsTended, ActsTurn, IsCareAfter, leader_part};
ghost use Rattle.cx_node.specs.Tends.{done_of};

use crate::care::Care;
use crate::remarking::remark_silence;
use crate::turning::{first_grid, receive};
use crate::{Come, Node, Stop, Whom};
use cx_base::{Cluster, Kind, NoMemory, Order};
use cx_course::{Doing, Standing};
use cx_edge::{Link, Sink};
use cx_keep::Renew;
use cx_letter::{Datagram, Input};
use cx_seat::Seat;
use std::alloc::Global;

// How many clients there are.
fn count_clients<K: Renew>(seats: &[Seat<K>]) -> usize
    ensures { result ≡ length (filter (λ guest. is_client (hosted_of guest)) seats.now) }
{
    seats.iter().filter(|seat| seat.is_client()).count()
}

// How many requests the clients have completed, as far as the number fits.
fn all_completed<K: Renew>(seats: &[Seat<K>]) -> u64
    ensures { result
        ≡ min (sum_by (λ guest. completed (hosted_of guest)) seats.now) 18446744073709551615 }
{
    let mut total = 0u64;
    for seat in seats {
        total = total.saturating_add(seat.completed());
    }
    total
}

// How many requests each role has completed.
fn completed_by<K: Renew>(alloc: Global, seats: &[Seat<K>]) -> Result<Vec<u64>, NoMemory>
    ensures { IfOk result
        (λ counts. counts.items ≡ map (λ guest. completed (hosted_of guest)) seats.now) }
{
    let counts = seats
        .iter()
        .map(|seat| seat.completed())
        .collect::<Vec<u64>>(alloc)?;
    Ok(counts)
}

// The order that the leader gets. What it reports is noted.
#[tactic(auto, unfolding(cx_course::specs::Tending::leader_asked))]
fn leader_order(cluster: &Cluster, standing: Standing, care: &mut Care) -> Option<Order>
    ensures care { care.new ≡ leader_cared standing care.old }
    ensures order { result ≡ leader_asked cluster.now standing (leader_cared standing care.old) }
{
    if standing.may_lead {
        return Some(Order::Lead(first_grid(cluster)));
    }
    care.note_leader(standing.cw, standing.has_open);
    if care.is_time() && standing.is_spent {
        return Some(Order::Change(first_grid(cluster)));
    }
    if standing.can_collect {
        return Some(Order::Collect);
    }
    None
}

impl<K: Renew + Drop> Node<K> {
    // A role takes a datagram; a replica may then tick, and leader 0 collect.
    fn heed<L: Link, W: Sink>(
        &mut self,
        number: u64,
        datagram: Datagram,
        link: &mut L,
        out: &mut W,
    ) -> Result<(), Stop>
        requires ready { AreReady self.old.cluster self.old.guests }
        ensures acts { ActsPart (changing K.append_gives K.renew_gives) self.old.cluster
            (heeded (numbered number datagram)) result
            (scene_of L.Link W.Sink self.old link.old out.old)
            (scene_of L.Link W.Sink self.new link.new out.new) }
        ensures blames { Blames result (failed L.Link W.Sink link.old out.old)
            (failed L.Link W.Sink link.new out.new) }
        ensures cluster { self.new.cluster ≡ self.old.cluster }
    {
        let from = datagram.from();
        let to = datagram.to();
        let before = self.held_by(to);
        self.act_named(
            to,
            &Doing::Give {
                number,
                input: Input::Take { datagram },
            },
            link,
            out,
        )?;
        self.report(from, to, before, link, out)?;
        self.collect_for(to, link, out)
    }

    // One take of the link, and what is done with what it gave. It says whether something came.
    fn tend_take<L: Link, W: Sink>(&mut self, link: &mut L, out: &mut W) -> Result<bool, Stop>
        requires ready { AreReady self.old.cluster self.old.guests }
        ensures acts { (what : Option (List ℕ))
            × Acts (changing K.append_gives K.renew_gives) self.old.cluster (what ∷ [])
            (tend_comes what (course_at self.old)) (done_of result)
            (scene_of L.Link W.Sink self.old link.old out.old)
            (scene_of L.Link W.Sink self.new link.new out.new)
            × IfOk result (λ came. came ≡ is_some what) }
        ensures blames { Blames (done_of result)
            (failed L.Link W.Sink link.old out.old) (failed L.Link W.Sink link.new out.new) }
        ensures cluster { self.new.cluster ≡ self.old.cluster }
    {
        let come = receive(self.alloc, &self.recorder, &mut self.buffer, link)?;
        match come {
            Come::Letter { number, datagram } => {
                self.heed(number, datagram, link, out)?;
                Ok(true)
            }
            Come::Foreign => Ok(true),
            Come::Nothing => Ok(false),
        }
    }

    // What is done in a pause: batchers tick where something came before and nothing now, proxy leaders that wait for votes after some takes more.
    fn pause<L: Link, W: Sink>(
        &mut self,
        care: &Care,
        came: bool,
        link: &mut L,
        out: &mut W,
    ) -> Result<(), Stop>
        requires ready { AreReady self.old.cluster self.old.guests }
        ensures acts { ActsPart (changing K.append_gives K.renew_gives) self.old.cluster
            (paused care.now came) result
            (scene_of L.Link W.Sink self.old link.old out.old)
            (scene_of L.Link W.Sink self.new link.new out.new) }
        ensures blames { Blames result (failed L.Link W.Sink link.old out.old)
            (failed L.Link W.Sink link.new out.new) }
        ensures cluster { self.new.cluster ≡ self.old.cluster }
    {
        if care.has_paused(came) {
            return self.tick_those(
                Whom::Kind {
                    kind: Kind::Batcher,
                },
                care,
                link,
                out,
            );
        }
        if care.has_waited(came) {
            return self.tick_those(Whom::Awaiting, care, link, out);
        }
        Ok(())
    }

    // The leader's part of a beat.
    fn tend_leader<L: Link, W: Sink>(
        &mut self,
        care: &mut Care,
        link: &mut L,
        out: &mut W,
    ) -> Result<(), Stop>
        requires ready { AreReady self.old.cluster self.old.guests }
        ensures acts { ActsTended (changing K.append_gives K.renew_gives) self.old.cluster
            (leader_part self.old.cluster) result care.old
            (scene_of L.Link W.Sink self.old link.old out.old)
            (scene_of L.Link W.Sink self.new link.new out.new) }
        ensures care { IsCareAfter (leader_part self.old.cluster) result care.old care.new
            (course_at self.old) }
        ensures blames { Blames result (failed L.Link W.Sink link.old out.old)
            (failed L.Link W.Sink link.new out.new) }
        ensures cluster { self.new.cluster ≡ self.old.cluster }
    {
        match self.standing() {
            Some(standing) => {
                let order = leader_order(&self.cluster, standing, care);
                self.command(order, link, out)
            }
            None => Ok(()),
        }
    }

    // Who was overtaken asks again, in the order of the queue, and the next pass begins.
    fn end_pass<L: Link, W: Sink>(
        &mut self,
        care: &mut Care,
        link: &mut L,
        out: &mut W,
    ) -> Result<(), Stop>
        requires ready { AreReady self.old.cluster self.old.guests }
        ensures acts { ActsTended (changing K.append_gives K.renew_gives) self.old.cluster
            next_pass result care.old
            (scene_of L.Link W.Sink self.old link.old out.old)
            (scene_of L.Link W.Sink self.new link.new out.new) }
        ensures care { IsCareAfter next_pass result care.old care.new (course_at self.old) }
        ensures blames { Blames result (failed L.Link W.Sink link.old out.old)
            (failed L.Link W.Sink link.new out.new) }
        ensures cluster { self.new.cluster ≡ self.old.cluster }
    {
        self.tick_in_turn(Whom::Overtaken, care, care.queue(), link, out)?;
        let counts = completed_by(self.alloc, &self.seats)?;
        care.begin_pass(self.alloc, counts)?;
        Ok(())
    }

    // All clients ask again where none was answered for some beats; else, where a pass ends, those that were overtaken.
    fn ask_clients<L: Link, W: Sink>(
        &mut self,
        care: &mut Care,
        link: &mut L,
        out: &mut W,
    ) -> Result<(), Stop>
        requires ready { AreReady self.old.cluster self.old.guests }
        ensures acts { ActsTended (changing K.append_gives K.renew_gives) self.old.cluster
            clients_tended result care.old
            (scene_of L.Link W.Sink self.old link.old out.old)
            (scene_of L.Link W.Sink self.new link.new out.new) }
        ensures care { IsCareAfter clients_tended result care.old care.new (course_at self.old) }
        ensures blames { Blames result (failed L.Link W.Sink link.old out.old)
            (failed L.Link W.Sink link.new out.new) }
        ensures cluster { self.new.cluster ≡ self.old.cluster }
    {
        let done = all_completed(&self.seats);
        care.note_clients(done);
        if care.asks_again() {
            return self.tick_those(Whom::Kind { kind: Kind::Client }, care, link, out);
        }
        let clients = count_clients(&self.seats);
        if care.passes(clients, done) {
            return self.end_pass(care, link, out);
        }
        Ok(())
    }

    // The clients' part of a beat. Whoever watches is told where they were told nothing for long.
    fn tend_clients<L: Link, W: Sink>(
        &mut self,
        care: &mut Care,
        link: &mut L,
        out: &mut W,
    ) -> Result<(), Stop>
        requires ready { AreReady self.old.cluster self.old.guests }
        ensures acts { ActsTended (changing K.append_gives K.renew_gives) self.old.cluster
            clients_tended result care.old
            (scene_of L.Link W.Sink self.old link.old out.old)
            (scene_of L.Link W.Sink self.new link.new out.new) }
        ensures care { IsCareAfter clients_tended result care.old care.new (course_at self.old) }
        ensures blames { Blames result (failed L.Link W.Sink link.old out.old)
            (failed L.Link W.Sink link.new out.new) }
        ensures cluster { self.new.cluster ≡ self.old.cluster }
    {
        self.ask_clients(care, link, out)?;
        remark_silence(&self.seats, care, out);
        Ok(())
    }

    // A beat: all roles but clients tick, the leader is tended, and then the clients.
    fn beat<L: Link, W: Sink>(
        &mut self,
        care: &mut Care,
        link: &mut L,
        out: &mut W,
    ) -> Result<(), Stop>
        requires ready { AreReady self.old.cluster self.old.guests }
        ensures acts { ActsTended (changing K.append_gives K.renew_gives) self.old.cluster
            (beat self.old.cluster) result care.old
            (scene_of L.Link W.Sink self.old link.old out.old)
            (scene_of L.Link W.Sink self.new link.new out.new) }
        ensures care { IsCareAfter (beat self.old.cluster) result care.old care.new
            (course_at self.old) }
        ensures blames { Blames result (failed L.Link W.Sink link.old out.old)
            (failed L.Link W.Sink link.new out.new) }
        ensures cluster { self.new.cluster ≡ self.old.cluster }
    {
        self.tick_those(Whom::Others, care, link, out)?;
        self.tend_leader(care, link, out)?;
        self.tend_clients(care, link, out)
    }

    // Counts a turn, which may end with a beat.
    fn end_turn<L: Link, W: Sink>(
        &mut self,
        care: &mut Care,
        most: u32,
        came: bool,
        link: &mut L,
        out: &mut W,
    ) -> Result<(), Stop>
        requires ready { AreReady self.old.cluster self.old.guests }
        ensures acts { ActsTended (changing K.append_gives K.renew_gives) self.old.cluster
            (turn_ended self.old.cluster most came) result care.old
            (scene_of L.Link W.Sink self.old link.old out.old)
            (scene_of L.Link W.Sink self.new link.new out.new) }
        ensures care { IsCareAfter
            (turn_ended self.old.cluster most came) result care.old care.new (course_at self.old) }
        ensures blames { Blames result (failed L.Link W.Sink link.old out.old)
            (failed L.Link W.Sink link.new out.new) }
        ensures cluster { self.new.cluster ≡ self.old.cluster }
    {
        care.count(came);
        if care.is_beat(most) {
            care.begin_beat();
            return self.beat(care, link, out);
        }
        Ok(())
    }

    /// The n-th turn of a node that tends its roles, with a limit of turns from beat to beat.
    pub fn tended_turn<L: Link, W: Sink>(
        &mut self,
        care: &mut Care,
        most: u32,
        n: u32,
        link: &mut L,
        out: &mut W,
    ) -> Result<(), Stop>
        requires ready { AreReady self.old.cluster self.old.guests }
        ensures acts { ActsTurn (changing K.append_gives K.renew_gives) self.old.cluster
            (tended_turn self.old.cluster most n) result care.old care.new
            (scene_of L.Link W.Sink self.old link.old out.old)
            (scene_of L.Link W.Sink self.new link.new out.new) }
        ensures blames { Blames result (failed L.Link W.Sink link.old out.old)
            (failed L.Link W.Sink link.new out.new) }
        ensures cluster { self.new.cluster ≡ self.old.cluster }
    {
        self.tend_prepare(n, link, out)?;
        let came = self.tend_take(link, out)?;
        self.pause(care, came, link, out)?;
        self.end_turn(care, most, came, link, out)
    }
}
