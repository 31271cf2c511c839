//! What a node that tends its roles has them do in a turn: whom it ticks, what it orders leader 0, and when replicas report.

ghost use Rattle.std.specs.Prelude.{◌≡◌, ◌/◌, ◌==◌, ◌&&◌, nat_lt, [], ◌∷◌, not};
ghost use Rattle.std.specs.Prelude.{Option, slice_get, if◌then◌else◌};
ghost use Rattle.std.specs.Option.{option_map};
ghost use Rattle.cx_base.specs.Role.{role, same_role};
ghost use Rattle.cx_base.specs.declared.role.Kind.TheVariants as kind;
ghost use Rattle.cx_leader.specs.Tending.{can_collect, is_new_leader};
ghost use Rattle.cx_node.specs.Acts.{ActsPart, Blames, failed, scene_of};
ghost use Rattle.cx_seat.specs.Changing.{changing};
ghost use Rattle.cx_seat.specs.Guest.{AreReady, hosted_in, hosted_of};
ghost use Rattle.cx_course.specs.Course.{stays};
ghost use Rattle.cx_course.specs.Run.{is_client};
ghost use Rattle.cx_course.specs.Tending.{collected, completed, first_leader, gets};
ghost use Rattle.cx_course.specs.Tending.{held_by_role, in_turn, is_so, reported, standing_of};
ghost use Rattle.cx_course.specs.Tending.{tend_ordered, tend_prepared, those_tick, ticks_behind, ticks_if};
ghost use Rattle.cx_seat.specs.Seat.{is_leader_so};
ghost use Rattle.cx_node.specs.Tends.{is_meant};

use crate::care::Care;
use crate::{Node, Stop, Whom};
use cx_base::{Kind, Order, RoleId};
use cx_course::{Doing, Standing};
use cx_edge::{Link, Sink};
use cx_keep::Renew;
use cx_letter::Input;
use cx_seat::Seat;

// A replica ticks when its log comes to a further multiple of this number of slots.
const REPORTED: u64 = 8;

// The leader that is ordered.
fn first_name() -> RoleId
    ensures { result ≡ role kind.Leader 0 }
{
    RoleId::new(Kind::Leader, 0)
}

// Whether the role at a place is meant to tick.
fn is_meant<K: Renew>(whom: Whom, care: &Care, place: usize, seat: &Seat<K>) -> bool
    ensures { result ≡ is_meant whom care.now.counts place (hosted_of seat.now) }
{
    match whom {
        Whom::Kind { kind } => seat.is_of(kind),
        Whom::Others => !seat.is_client(),
        Whom::Awaiting => seat.awaits_votes(),
        Whom::Overtaken => seat.is_client() && care.had_completed(place, seat.completed()),
    }
}

// Whether there is a role at this place, and it is meant to tick.
fn is_meant_at<K: Renew>(whom: Whom, care: &Care, place: usize, seats: &[Seat<K>]) -> bool
    ensures { result
        ≡ is_so (is_meant whom care.now.counts place)
        (option_map hosted_of (slice_get seats.now place)) }
{
    match seats.get(place) {
        Some(seat) => is_meant(whom, care, place, seat),
        None => false,
    }
}

impl<K: Renew + Drop> Node<K> {
    // How many slots a replica of this name holds.
    pub(crate) fn held_by(&self, role: RoleId) -> u64
        ensures { result ≡ held_by_role role (hosted_in self.now.guests) }
    {
        let Some(place) = self.find(role) else {
            return 0;
        };
        self.seats[place].held()
    }

    // Whether a replica that held this many slots ticks behind a datagram: it holds a further multiple of 8, or got what it lacked
    // from another replica.
    fn reports(&self, from: RoleId, role: RoleId, before: u64) -> bool
        ensures { result
            ≡ ticks_behind from before (held_by_role role (hosted_in self.now.guests)) }
    {
        let held = self.held_by(role);
        before / REPORTED < held / REPORTED || from.kind == Kind::Replica && before < held
    }

    // Whether leader 0 is hosted, and never began a round.
    fn has_new_leader(&self) -> bool
        ensures { result ≡ is_leader_so (λ l. is_new_leader l.durable)
            (first_leader (hosted_in self.now.guests)) }
    {
        let Some(place) = self.find(first_name()) else {
            return false;
        };
        self.seats[place].is_new()
    }

    // Whether leader 0 is hosted, and an order to collect would begin.
    fn can_collect(&self) -> bool
        ensures { result ≡ is_leader_so (λ l. can_collect l.volatile)
            (first_leader (hosted_in self.now.guests)) }
    {
        let Some(place) = self.find(first_name()) else {
            return false;
        };
        self.seats[place].can_collect()
    }

    // What leader 0 reports, where it is hosted.
    pub(crate) fn standing(&self) -> Option<Standing>
        ensures { result ≡ option_map standing_of (first_leader (hosted_in self.now.guests)) }
    {
        let Some(place) = self.find(first_name()) else {
            return None;
        };
        self.seats[place].standing()
    }

    // Whether leader 0 isn't ordered at this turn, since it has had a round.
    fn has_begun(&self, n: u32) -> bool
        ensures { result
            ≡ ((n == 1) && not (is_leader_so (λ l. is_new_leader l.durable)
            (first_leader (hosted_in self.now.guests)))) }
    {
        n == 1 && !self.has_new_leader()
    }

    // Gives leader 0 this order, if there is one.
    pub(crate) fn command<L: Link, W: Sink>(
        &mut self,
        order: Option<Order>,
        link: &mut L,
        out: &mut W,
    ) -> Result<(), Stop>
        requires ready { AreReady self.old.cluster self.old.guests }
        ensures acts { ActsPart (changing K.append_gives K.renew_gives) self.old.cluster
            (gets order) result
            (scene_of L.Link W.Sink self.old link.old out.old)
            (scene_of L.Link W.Sink self.new link.new out.new) }
        ensures blames { Blames result (failed L.Link W.Sink link.old out.old)
            (failed L.Link W.Sink link.new out.new) }
        ensures cluster { self.new.cluster ≡ self.old.cluster }
    {
        match order {
            Some(order) => self.act_named(
                first_name(),
                &Doing::Give {
                    number: 0,
                    input: Input::Order { order },
                },
                link,
                out,
            ),
            None => Ok(()),
        }
    }

    // The role at a place ticks, if there is one that is meant to.
    fn tick_at<L: Link, W: Sink>(
        &mut self,
        whom: Whom,
        care: &Care,
        place: usize,
        link: &mut L,
        out: &mut W,
    ) -> Result<(), Stop>
        requires ready { AreReady self.old.cluster self.old.guests }
        ensures acts { ActsPart (changing K.append_gives K.renew_gives) self.old.cluster
            (ticks_if (is_meant whom care.now.counts) place) result
            (scene_of L.Link W.Sink self.old link.old out.old)
            (scene_of L.Link W.Sink self.new link.new out.new) }
        ensures blames { Blames result (failed L.Link W.Sink link.old out.old)
            (failed L.Link W.Sink link.new out.new) }
        ensures cluster { self.new.cluster ≡ self.old.cluster }
    {
        if is_meant_at(whom, care, place, &self.seats) {
            let tick = Doing::Give {
                number: 0,
                input: Input::Tick,
            };
            return self.act(place, &tick, link, out);
        }
        Ok(())
    }

    // Those at these places that are meant to tick, one after the other.
    pub(crate) fn tick_in_turn<L: Link, W: Sink>(
        &mut self,
        whom: Whom,
        care: &Care,
        places: &[usize],
        link: &mut L,
        out: &mut W,
    ) -> Result<(), Stop>
        requires ready { AreReady self.old.cluster self.old.guests }
        ensures acts { ActsPart (changing K.append_gives K.renew_gives) self.old.cluster
            (in_turn (is_meant whom care.now.counts) places.now) result
            (scene_of L.Link W.Sink self.old link.old out.old)
            (scene_of L.Link W.Sink self.new link.new out.new) }
        ensures blames { Blames result (failed L.Link W.Sink link.old out.old)
            (failed L.Link W.Sink link.new out.new) }
        ensures cluster { self.new.cluster ≡ self.old.cluster }
    {
        for place in places {
            self.tick_at(whom, care, *place, link, out)?;
        }
        Ok(())
    }

    // Those that are meant to tick, in order.
    pub(crate) fn tick_those<L: Link, W: Sink>(
        &mut self,
        whom: Whom,
        care: &Care,
        link: &mut L,
        out: &mut W,
    ) -> Result<(), Stop>
        requires ready { AreReady self.old.cluster self.old.guests }
        ensures acts { ActsPart (changing K.append_gives K.renew_gives) self.old.cluster
            (those_tick (is_meant whom care.now.counts)) result
            (scene_of L.Link W.Sink self.old link.old out.old)
            (scene_of L.Link W.Sink self.new link.new out.new) }
        ensures blames { Blames result (failed L.Link W.Sink link.old out.old)
            (failed L.Link W.Sink link.new out.new) }
        ensures cluster { self.new.cluster ≡ self.old.cluster }
    {
        let count = self.seats.len();
        for place in 0..count {
            self.tick_at(whom, care, place, link, out)?;
        }
        Ok(())
    }

    // Leader 0 is ordered to lead, unless it is turn 1 and it has had a round.
    fn tend_order<L: Link, W: Sink>(
        &mut self,
        n: u32,
        link: &mut L,
        out: &mut W,
    ) -> Result<(), Stop>
        requires ready { AreReady self.old.cluster self.old.guests }
        ensures acts { ActsPart (changing K.append_gives K.renew_gives) self.old.cluster
            (tend_ordered self.old.cluster n) result
            (scene_of L.Link W.Sink self.old link.old out.old)
            (scene_of L.Link W.Sink self.new link.new out.new) }
        ensures blames { Blames result (failed L.Link W.Sink link.old out.old)
            (failed L.Link W.Sink link.new out.new) }
        ensures cluster { self.new.cluster ≡ self.old.cluster }
    {
        if self.has_begun(n) {
            return Ok(());
        }
        self.order(n, link, out)
    }

    // The first part of the n-th turn.
    pub(crate) fn tend_prepare<L: Link, W: Sink>(
        &mut self,
        n: u32,
        link: &mut L,
        out: &mut W,
    ) -> Result<(), Stop>
        requires ready { AreReady self.old.cluster self.old.guests }
        ensures acts { ActsPart (changing K.append_gives K.renew_gives) self.old.cluster
            (tend_prepared self.old.cluster n) result
            (scene_of L.Link W.Sink self.old link.old out.old)
            (scene_of L.Link W.Sink self.new link.new out.new) }
        ensures blames { Blames result (failed L.Link W.Sink link.old out.old)
            (failed L.Link W.Sink link.new out.new) }
        ensures cluster { self.new.cluster ≡ self.old.cluster }
    {
        self.tend_order(n, link, out)?;
        self.snap(n, link, out)
    }

    // A role ticks behind a datagram, if its log has come to a further multiple of 8 slots, or got what it lacked from a replica.
    pub(crate) fn report<L: Link, W: Sink>(
        &mut self,
        from: RoleId,
        role: RoleId,
        before: u64,
        link: &mut L,
        out: &mut W,
    ) -> Result<(), Stop>
        requires ready { AreReady self.old.cluster self.old.guests }
        ensures acts { ActsPart (changing K.append_gives K.renew_gives) self.old.cluster
            (reported from role before) result
            (scene_of L.Link W.Sink self.old link.old out.old)
            (scene_of L.Link W.Sink self.new link.new out.new) }
        ensures blames { Blames result (failed L.Link W.Sink link.old out.old)
            (failed L.Link W.Sink link.new out.new) }
        ensures cluster { self.new.cluster ≡ self.old.cluster }
    {
        if self.reports(from, role, before) {
            let tick = Doing::Give {
                number: 0,
                input: Input::Tick,
            };
            return self.act_named(role, &tick, link, out);
        }
        Ok(())
    }

    // Leader 0 is ordered to collect, where that would begin.
    fn collect<L: Link, W: Sink>(&mut self, link: &mut L, out: &mut W) -> Result<(), Stop>
        requires ready { AreReady self.old.cluster self.old.guests }
        ensures acts { ActsPart (changing K.append_gives K.renew_gives) self.old.cluster
            collected result
            (scene_of L.Link W.Sink self.old link.old out.old)
            (scene_of L.Link W.Sink self.new link.new out.new) }
        ensures blames { Blames result (failed L.Link W.Sink link.old out.old)
            (failed L.Link W.Sink link.new out.new) }
        ensures cluster { self.new.cluster ≡ self.old.cluster }
    {
        if self.can_collect() {
            return self.command(Some(Order::Collect), link, out);
        }
        Ok(())
    }

    // Where leader 0 took something, it is ordered to collect.
    pub(crate) fn collect_for<L: Link, W: Sink>(
        &mut self,
        to: RoleId,
        link: &mut L,
        out: &mut W,
    ) -> Result<(), Stop>
        requires ready { AreReady self.old.cluster self.old.guests }
        ensures acts { ActsPart (changing K.append_gives K.renew_gives) self.old.cluster
            (λ s. if same_role to (role kind.Leader 0) then collected s else stays s) result
            (scene_of L.Link W.Sink self.old link.old out.old)
            (scene_of L.Link W.Sink self.new link.new out.new) }
        ensures blames { Blames result (failed L.Link W.Sink link.old out.old)
            (failed L.Link W.Sink link.new out.new) }
        ensures cluster { self.new.cluster ≡ self.old.cluster }
    {
        if to.is(first_name()) {
            return self.collect(link, out);
        }
        Ok(())
    }
}
