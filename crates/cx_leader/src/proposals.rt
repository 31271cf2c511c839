//! What a leader proposed, and what it knows to be chosen.

ghost use Rattle.std.specs.Prelude.{◌≡◌, ◌≤◌, ◌<◌, ◌+◌, ◌^◌, ◌++◌};
ghost use Rattle.cx_role.specs.Prelude.{true, length, IsTrue, IfOk, OnOk, OnErr, is_in};
ghost use Rattle.cx_field.specs.Fields as field;
ghost use Rattle.cx_model.specs.Leader.{are_known, without_known};
ghost use Rattle.cx_model.specs.Plan.{placed_from};
ghost use Rattle.cx_phase1.specs.Planned.{IsPlan};
ghost use Rattle.cx_leader.specs.Proposing.{Adds, nothing_from, planned, led_on, with_chosen, raise_proposing, is_settled};
ghost use Rattle.cx_leader.specs.Proposing.{placed_list, propose_sends};
ghost use Rattle.cx_ring.specs.Ring.{value_at};

use crate::known::KnownSlots;
use crate::sending::proposal;
use cx_base::{Cluster, Duplicate, Kind, NoMemory, Placed, Value};
use cx_field::Entry;
use cx_model::Plan;
use cx_phase1::Slots;
use cx_ring::{Ring, Slotted};
use cx_role::Outbox;
use std::alloc::Global;
use std::marker::Model;

/// The values that a leader proposed from the chosen watermark on, one a slot, and which of these slots it knows to be
/// chosen in its round. While it goes on to the next round these are the values of the round before.
#[derive(Drop)]
pub struct Proposals {
    // The chosen watermark and the next free slot.
    slots: Slots,
    // The slot behind the last one that it proposed when it began to lead; those from here on came as batches.
    end: u64,
    list: Ring<Placed, BySlot>,
    chosen: KnownSlots,
}

impl Model for Proposals {
    ghost use Rattle.cx_leader.specs.Proposing.{ProposalsState, IsHolding};

    ghost Value = { ProposalsState };

    ghost view = { λ p. record {
      cw = p.slots.cw;
      next = p.slots.next;
      end = p.end;
      proposed = p.list.items;
      chosen = p.chosen.list;
    } };

    ghost invariant = { λ p. IsHolding p.slots.cw p.slots.next p.list p.chosen.first };
}

// A proposed value stands in the ring at its slot.
struct BySlot;

impl Slotted<Placed> for BySlot {
    ghost at = { λ p. p.slot };

    fn slot(one: &Placed) -> u64 {
        one.slot
    }
}

// Values at the slots from the first on, at most one for each of the window.
fn placed(alloc: Global, first: u64, values: &[Value]) -> Result<Ring<Placed, BySlot>, NoMemory>
    requires first { first ≤ 2 ^ 40 }
    requires count { length values.now ≤ 32 }
    ensures { IfOk result (λ list.
        list ≡ record { first = first; items = placed_from first values.now; room = true }) }
{
    let mut list = Ring::new(alloc, first);
    list.make_room(alloc)?;
    let mut slot = first;
    for value in values {
        let value = value.copy(alloc)?;
        list.put(Placed { slot, value });
        slot += 1;
    }
    Ok(list)
}

impl Proposals {
    /// Nothing proposed from the first slot on.
    pub fn new(alloc: Global) -> Self
        ensures { result ≡ nothing_from 0 }
    {
        Proposals {
            slots: Slots::new(0, 0),
            end: 0,
            list: Ring::new(alloc, 0),
            chosen: KnownSlots::new(alloc, 0),
        }
    }

    /// The values that a first phase found for its slots, and no-ops in the others.
    pub fn planned(alloc: Global, plan: &Plan) -> Result<Self, NoMemory>
        requires { IsPlan plan.now }
        ensures { IfOk result (λ proposals. proposals ≡ planned plan.now) }
    {
        Ok(Proposals {
            slots: Slots::new(plan.cw, plan.end),
            end: plan.end,
            list: placed(alloc, plan.cw, plan.values.as_slice())?,
            chosen: KnownSlots::new(alloc, plan.cw),
        })
    }

    /// Forgets all that was proposed from the chosen watermark on.
    pub fn clear(&mut self)
        ensures { self.new ≡ nothing_from self.old.cw }
    {
        let cw = self.slots.cw();
        self.slots = Slots::new(cw, cw);
        self.end = cw;
        self.list.clear();
        self.chosen.clear();
    }

    /// Lets the next round begin with all that was proposed, where nothing is known to be chosen yet.
    pub fn lead_on(&mut self)
        ensures { self.new ≡ led_on self.old }
    {
        self.end = self.slots.next();
        self.chosen.clear();
    }

    /// Gives a value the next slot, or answers None where no slot is free.
    #[tactic(auto, using(crate::proofs::Proposed::adding))]
    pub fn add(&mut self, alloc: Global, value: &Value) -> Result<Option<u64>, NoMemory>
        requires { IsTrue (field.value.fits value.now) }
        ensures ok { IfOk result (λ slot. Adds value.now self.old slot self.new) }
        ensures no_memory { OnErr result (self.new ≡ self.old) }
    {
        let mut slots = self.slots;
        let Some(slot) = slots.next_slot() else {
            return Ok(None);
        };
        let value = value.copy(alloc)?;
        self.list.make_room(alloc)?;
        self.list.put(Placed { slot, value });
        self.slots = slots;
        Ok(Some(slot))
    }

    /// Notes that a slot below the next free one is chosen. Out of memory, it changes nothing.
    pub fn note(&mut self, alloc: Global, slot: u64) -> Result<(), NoMemory>
        requires low { self.old.cw ≤ slot }
        requires high { slot < self.old.next }
        ensures ok { OnOk result (self.new ≡ with_chosen slot self.old) }
        ensures no_memory { OnErr result (self.new ≡ self.old) }
    {
        self.chosen.note(alloc, slot)?;
        Ok(())
    }

    /// Raises the chosen watermark, a number of slots of at most 2^40, or leaves a greater one: the slots below it are
    /// forgotten, and none of them is free.
    pub fn raise(&mut self, cw: u64)
        requires { cw ≤ 2 ^ 40 }
        ensures { self.new ≡ raise_proposing cw self.old }
    {
        self.slots.raise(cw);
        // This may be the greater one that it left.
        let cw = self.slots.cw();
        self.list.raise(cw);
        self.chosen.raise(cw);
    }

    // Proposes the value of a slot, if it has one, unless the slot is in `known`.
    #[tactic(auto, using(crate::proofs::Proposed::found_slot))]
    fn propose(
        &self,
        known: &KnownSlots,
        alloc: Global,
        cluster: &Cluster,
        leader: u16,
        own: &Entry,
        slot: u64,
        out: &mut Outbox,
    ) -> Result<(), NoMemory>
        requires leader { leader < cluster.now.leaders }
        requires spare { 0 < out.old.spare }
        requires round { IsTrue (field.round.fits own.now.round) }
        ensures list { let p = self.now in OnOk result (out.new.list ≡ out.old.list
            ++ propose_sends cluster.now leader own.now p.cw
            (without_known known.now.list (placed_list (value_at (λ x. x.slot) slot p.proposed)))) }
        ensures spare { OnOk result (out.old.spare ≤ out.new.spare + 1) }
    {
        let Some(placed) = self.list.get(slot) else {
            return Ok(());
        };
        if known.contains(placed.slot) {
            return Ok(());
        }
        let value = placed.value.copy(alloc)?;
        let cw = self.slots.cw();
        out.push(proposal(cluster, leader, own, cw, placed.slot, value));
        Ok(())
    }

    // Proposes each value whose slot is not in `known`. Each slot from `cw` to the next free one has a value.
    fn propose_each(
        &self,
        known: &KnownSlots,
        alloc: Global,
        cluster: &Cluster,
        leader: u16,
        own: &Entry,
        out: &mut Outbox,
    ) -> Result<(), NoMemory>
        requires leader { leader < cluster.now.leaders }
        requires spare { 32 ≤ out.old.spare }
        requires round { IsTrue (field.round.fits own.now.round) }
        ensures list { let p = self.now in OnOk result (out.new.list ≡ out.old.list
            ++ propose_sends cluster.now leader own.now p.cw
            (without_known known.now.list p.proposed)) }
        ensures spare { OnOk result (out.old.spare ≤ out.new.spare + 32) }
    {
        for slot in self.slots.cw()..self.slots.next() {
            self.propose(known, alloc, cluster, leader, own, slot, out)?;
        }
        Ok(())
    }

    /// Proposes each value, at most 32 of them, also where it was chosen in the round before, which this one can retire only
    /// once the slot is chosen again, or held by enough replicas. Out of memory, it may leave some sent.
    #[tactic(auto, using(crate::proofs::Proposed::none_known))]
    pub fn propose_all(
        &self,
        alloc: Global,
        cluster: &Cluster,
        leader: u16,
        own: &Entry,
        out: &mut Outbox,
    ) -> Result<(), NoMemory>
        requires leader { leader < cluster.now.leaders }
        requires spare { 32 ≤ out.old.spare }
        requires round { IsTrue (field.round.fits own.now.round) }
        ensures list { let p = self.now in
            OnOk result (out.new.list
            ≡ out.old.list ++ propose_sends cluster.now leader own.now p.cw p.proposed) }
        ensures spare { OnOk result (out.old.spare ≤ out.new.spare + 32) }
    {
        let none = KnownSlots::new(alloc, 0);
        self.propose_each(&none, alloc, cluster, leader, own, out)?;
        Ok(())
    }

    /// Proposes each value that is not known to be chosen, at most 32 of them; out of memory, it may leave some sent.
    pub fn propose_open(
        &self,
        alloc: Global,
        cluster: &Cluster,
        leader: u16,
        own: &Entry,
        out: &mut Outbox,
    ) -> Result<(), NoMemory>
        requires leader { leader < cluster.now.leaders }
        requires spare { 32 ≤ out.old.spare }
        requires round { IsTrue (field.round.fits own.now.round) }
        ensures list { let p = self.now in OnOk result (out.new.list ≡ out.old.list
            ++ propose_sends cluster.now leader own.now p.cw (without_known p.chosen p.proposed)) }
        ensures spare { OnOk result (out.old.spare ≤ out.new.spare + 32) }
    {
        self.propose_each(&self.chosen, alloc, cluster, leader, own, out)?;
        Ok(())
    }

    /// The chosen watermark, a number of slots.
    pub fn cw(&self) -> u64
        ensures cw { result ≡ self.now.cw }
        ensures range { self.now.cw ≤ 2 ^ 40 }
    {
        self.slots.cw()
    }

    /// The next free slot.
    pub fn next(&self) -> u64
        ensures { result ≡ self.now.next }
    {
        self.slots.next()
    }

    /// Whether a proxy has reported that a slot is chosen in this round.
    pub fn is_chosen(&self, slot: u64) -> bool
        ensures { result ≡ is_in slot self.now.chosen }
    {
        self.chosen.contains(slot)
    }

    /// Whether each slot from the chosen watermark to the next free one is known to be chosen.
    pub fn all_chosen(&self) -> bool
        ensures { result ≡ are_known self.now.chosen self.now.cw self.now.next }
    {
        let cw = self.slots.cw();
        self.chosen
            .contains_all(cw, self.slots.next().saturating_sub(cw))
    }

    /// Whether all that it proposed when it began to lead is known to be chosen, or held by enough replicas.
    pub fn is_settled(&self) -> bool
        ensures { result ≡ is_settled self.now }
    {
        let cw = self.slots.cw();
        // Of none where the chosen watermark is at the end or past it: replicas hold them all.
        self.chosen.contains_all(cw, self.end.saturating_sub(cw))
    }
}
