//! How hosted roles do what they are asked.

ghost use Rattle.std.specs.Prelude.{◌≡◌, ◌<◌, true, false, length, IfSome, OnOk, IsTrue, Err, Some};
ghost use Rattle.std.specs.List.{position};
ghost use Rattle.cx_base.specs.declared.role.RoleId.{RoleId};
ghost use Rattle.cx_base.specs.Role.{same_role};
ghost use Rattle.cx_node.specs.declared.node.Stop.TheVariants as stop;
ghost use Rattle.cx_node.specs.Acts.{ActsPart, Blames, failed, scene_of};
ghost use Rattle.cx_seat.specs.Changing.{changing};
ghost use Rattle.cx_seat.specs.Guest.{AreReady, GuestGrows, KeeperFails, KeeperRests, hosted_in, hosted_of, who};
ghost use Rattle.cx_course.specs.Hosted.{does, is_live_role};
ghost use Rattle.cx_course.specs.Course.{does_at, has_room_for, step_events};
ghost use Rattle.cx_course.specs.Run.{all_do, at_place, hosted_place};

use crate::sending::send_all;
use crate::{Node, Stop};
use cx_base::{Event, RoleId};
use cx_course::Doing;
use cx_edge::{Link, Sink, write_all};
use cx_keep::Renew;
use cx_record::Recorder;
use cx_role::{Outbox, StepFault};
use cx_seat::{Seat, has_room, note_own, take_down};

// A role does what it is asked. Where its store failed, the stop names it.
fn ask<K: Renew>(
    seat: &mut Seat<K>,
    what: &Doing,
    outbox: &mut Outbox,
    text: &mut Vec<u8>,
) -> Result<(), Stop>
    requires live { IsTrue (is_live_role (hosted_of seat.old)) }
    ensures role { OnOk result (hosted_of seat.new ≡ (does (hosted_of seat.old) what.now).next) }
    ensures kept { OnOk result (GuestGrows (changing K.append_gives K.renew_gives)
        (does (hosted_of seat.old) what.now).kept seat.old seat.new) }
    ensures sends { OnOk result (outbox.new.list ≡ (does (hosted_of seat.old) what.now).sends) }
    ensures text { OnOk result (text.new.items ≡ (does (hosted_of seat.old) what.now).text) }
    ensures rests { result ≡ Err stop.NoMemory
        → KeeperRests (changing K.append_gives K.renew_gives) seat.old seat.new }
    ensures failed { (role : RoleId) → result ≡ Err (stop.StoreFault role)
        → (who seat.old ≡ role)
        × KeeperFails (changing K.append_gives K.renew_gives)
        (does (hosted_of seat.old) what.now).kept seat.old seat.new }
    ensures no_write { result ≡ Err stop.WriteFault → ⊥ }
    ensures no_link { result ≡ Err stop.LinkFault → ⊥ }
    ensures no_full { result ≡ Err stop.RecordFull → ⊥ }
    ensures name { who seat.new ≡ who seat.old }
    ensures live { OnOk result (IsTrue (is_live_role (hosted_of seat.new))) }
{
    outbox.clear();
    text.clear();
    match seat.act(what, outbox, text) {
        Ok(()) => Ok(()),
        Err(StepFault::Failed) => Err(Stop::StoreFault { role: seat.name() }),
        Err(StepFault::NoMemory) => Err(Stop::NoMemory),
    }
}

// The same where the node records, if the record has room for the lines of the step: those of its own event, and then those of the
// requests that a client sends.
#[tactic(auto, using(crate::proofs::Done::rests_itself))]
fn ask_noting<K: Renew>(
    recorder: &Recorder,
    seat: &mut Seat<K>,
    what: &Doing,
    outbox: &mut Outbox,
    text: &mut Vec<u8>,
    events: &mut Vec<Event>,
) -> Result<(), Stop>
    requires live { IsTrue (is_live_role (hosted_of seat.old)) }
    ensures role { OnOk result (hosted_of seat.new ≡ (does (hosted_of seat.old) what.now).next) }
    ensures kept { OnOk result (GuestGrows (changing K.append_gives K.renew_gives)
        (does (hosted_of seat.old) what.now).kept seat.old seat.new) }
    ensures sends { OnOk result (outbox.new.list ≡ (does (hosted_of seat.old) what.now).sends) }
    ensures text { OnOk result (text.new.items ≡ (does (hosted_of seat.old) what.now).text) }
    ensures rests { result ≡ Err stop.NoMemory
        → KeeperRests (changing K.append_gives K.renew_gives) seat.old seat.new }
    ensures full { result ≡ Err stop.RecordFull
        → (has_room_for (Some recorder.now) (step_events (hosted_of seat.old) what.now) ≡ false)
        × KeeperRests (changing K.append_gives K.renew_gives) seat.old seat.new }
    ensures room { (role : RoleId) → result ≡ Err (stop.StoreFault role)
        → has_room_for (Some recorder.now) (step_events (hosted_of seat.old) what.now) ≡ true }
    ensures events { OnOk result (events.new.items ≡ step_events (hosted_of seat.old) what.now) }
    ensures fits { OnOk result (has_room_for (Some recorder.now) events.new.items ≡ true) }
    ensures failed { (role : RoleId) → result ≡ Err (stop.StoreFault role)
        → (who seat.old ≡ role)
        × KeeperFails (changing K.append_gives K.renew_gives)
        (does (hosted_of seat.old) what.now).kept seat.old seat.new }
    ensures no_write { result ≡ Err stop.WriteFault → ⊥ }
    ensures no_link { result ≡ Err stop.LinkFault → ⊥ }
    ensures name { who seat.new ≡ who seat.old }
    ensures live { OnOk result (IsTrue (is_live_role (hosted_of seat.new))) }
{
    note_own(seat.name(), what, events)?;
    if !has_room(recorder, events) {
        return Err(Stop::RecordFull);
    }
    ask(seat, what, outbox, text)?;
    let fit = seat.note_requests(recorder, outbox.as_slice(), events)?;
    if !fit {
        return Err(Stop::RecordFull);
    }
    Ok(())
}

// A role does what it is asked, if a record has room for the lines of the step, which are left with its events.
fn ask_if<K: Renew>(
    recorder: &Option<Recorder>,
    seat: &mut Seat<K>,
    what: &Doing,
    outbox: &mut Outbox,
    text: &mut Vec<u8>,
    events: &mut Vec<Event>,
) -> Result<(), Stop>
    requires live { IsTrue (is_live_role (hosted_of seat.old)) }
    ensures role { OnOk result (hosted_of seat.new ≡ (does (hosted_of seat.old) what.now).next) }
    ensures kept { OnOk result (GuestGrows (changing K.append_gives K.renew_gives)
        (does (hosted_of seat.old) what.now).kept seat.old seat.new) }
    ensures sends { OnOk result (outbox.new.list ≡ (does (hosted_of seat.old) what.now).sends) }
    ensures text { OnOk result (text.new.items ≡ (does (hosted_of seat.old) what.now).text) }
    ensures rests { result ≡ Err stop.NoMemory
        → KeeperRests (changing K.append_gives K.renew_gives) seat.old seat.new }
    ensures full { result ≡ Err stop.RecordFull
        → (has_room_for recorder.now (step_events (hosted_of seat.old) what.now) ≡ false)
        × KeeperRests (changing K.append_gives K.renew_gives) seat.old seat.new }
    ensures room { (role : RoleId) → result ≡ Err (stop.StoreFault role)
        → has_room_for recorder.now (step_events (hosted_of seat.old) what.now) ≡ true }
    ensures events { OnOk result (IfSome recorder.now
        (λ r. events.new.items ≡ step_events (hosted_of seat.old) what.now)) }
    ensures fits { OnOk result (has_room_for recorder.now events.new.items ≡ true) }
    ensures failed { (role : RoleId) → result ≡ Err (stop.StoreFault role)
        → (who seat.old ≡ role)
        × KeeperFails (changing K.append_gives K.renew_gives)
        (does (hosted_of seat.old) what.now).kept seat.old seat.new }
    ensures no_write { result ≡ Err stop.WriteFault → ⊥ }
    ensures no_link { result ≡ Err stop.LinkFault → ⊥ }
    ensures name { who seat.new ≡ who seat.old }
    ensures live { OnOk result (IsTrue (is_live_role (hosted_of seat.new))) }
{
    match recorder {
        Some(recorder) => ask_noting(recorder, seat, what, outbox, text, events),
        None => ask(seat, what, outbox, text),
    }
}

// The place of a role.
fn place_in<K: Renew>(seats: &[Seat<K>], role: RoleId) -> Option<usize>
    ensures { result ≡ position (λ guest. same_role role (who guest)) seats.now }
{
    seats.iter().position(|seat| role.is(seat.name()))
}

impl<K: Renew + Drop> Node<K> {
    // The role at a place does what it is asked; what it sends is sent, and what it prints is printed, or in a record the lines of
    // the step.
    pub fn act<L: Link, W: Sink>(
        &mut self,
        place: usize,
        what: &Doing,
        link: &mut L,
        out: &mut W,
    ) -> Result<(), Stop>
        requires place { place < length self.old.guests }
        requires ready { AreReady self.old.cluster self.old.guests }
        ensures acts { ActsPart (changing K.append_gives K.renew_gives) self.old.cluster
            (does_at place what.now) result
            (scene_of L.Link W.Sink self.old link.old out.old)
            (scene_of L.Link W.Sink self.new link.new out.new) }
        ensures blames { Blames result (failed L.Link W.Sink link.old out.old)
            (failed L.Link W.Sink link.new out.new) }
        ensures cluster { self.new.cluster ≡ self.old.cluster }
    {
        ask_if(
            &self.recorder,
            &mut self.seats[place],
            what,
            &mut self.outbox,
            &mut self.text,
            &mut self.events,
        )?;
        send_all(
            self.alloc,
            &self.cluster,
            self.outbox.as_slice(),
            &mut self.recorder,
            &mut self.bytes,
            link,
        )?;
        take_down(&mut self.recorder, &self.events, &mut self.text)?;
        if !write_all(out, &self.text) {
            return Err(Stop::WriteFault);
        }
        Ok(())
    }

    // All roles do it, in order.
    pub fn all_act<L: Link, W: Sink>(
        &mut self,
        what: &Doing,
        link: &mut L,
        out: &mut W,
    ) -> Result<(), Stop>
        requires ready { AreReady self.old.cluster self.old.guests }
        ensures acts { ActsPart (changing K.append_gives K.renew_gives) self.old.cluster
            (all_do what.now) result
            (scene_of L.Link W.Sink self.old link.old out.old)
            (scene_of L.Link W.Sink self.new link.new out.new) }
        ensures blames { Blames result (failed L.Link W.Sink link.old out.old)
            (failed L.Link W.Sink link.new out.new) }
        ensures cluster { self.new.cluster ≡ self.old.cluster }
    {
        let count = self.seats.len();
        for place in 0..count {
            self.act(place, what, link, out)?;
        }
        Ok(())
    }

    // The place of a hosted role.
    pub fn find(&self, role: RoleId) -> Option<usize>
        ensures { result ≡ hosted_place role (hosted_in self.now.guests) }
    {
        place_in(&self.seats, role)
    }

    // The hosted role of this name does it, if there is one.
    pub fn act_named<L: Link, W: Sink>(
        &mut self,
        role: RoleId,
        what: &Doing,
        link: &mut L,
        out: &mut W,
    ) -> Result<(), Stop>
        requires ready { AreReady self.old.cluster self.old.guests }
        ensures acts { ActsPart (changing K.append_gives K.renew_gives) self.old.cluster
            (λ s. at_place (hosted_place role s.hosted) what.now s) result
            (scene_of L.Link W.Sink self.old link.old out.old)
            (scene_of L.Link W.Sink self.new link.new out.new) }
        ensures blames { Blames result (failed L.Link W.Sink link.old out.old)
            (failed L.Link W.Sink link.new out.new) }
        ensures cluster { self.new.cluster ≡ self.old.cluster }
    {
        match self.find(role) {
            Some(place) => self.act(place, what, link, out),
            None => Ok(()),
        }
    }
}
