//! The ring of pending values, at most one a slot.

ghost use Rattle.std.specs.Prelude.{◌≡◌, ◌+◌, ◌<◌, ◌≤◌};
ghost use Rattle.cx_role.specs.Prelude.{true, None, Some, option_copied, Pending};
ghost use Rattle.cx_model.specs.Proxy.{pending_at};
ghost use Rattle.cx_proxy.specs.Declined.{declined, uncounted};
ghost use Rattle.cx_proxy.specs.Slots.{ring_with, slot_of};

use cx_base::{Round, Value, Why};
use cx_grid::{Marks, is_member};
use cx_model::Pending;
use cx_ring::{Ring, Slotted};

/// Which slot a pending value has.
pub struct BySlot;

impl Slotted<Pending> for BySlot {
    ghost at = { slot_of };

    fn slot(one: &Pending) -> u64 {
        one.slot
    }
}

/// The pending values, from the known chosen watermark on.
pub type Pendings = Ring<Pending, BySlot>;

/// The value that is pending at a slot.
#[tactic(auto, using(crate::proofs::Same::pending_at_value))]
pub fn find(pendings: &Pendings, slot: u64) -> Option<&Pending>
    ensures { option_copied result ≡ pending_at slot pendings.now.items }
{
    pendings.get(slot)
}

/// Puts a value into the place of the earlier one of its slot, which it answers, or at the end.
#[tactic(auto, using(crate::proofs::Same::pending_at_value, crate::proofs::Same::with_pending_value))]
pub fn put_pending(pendings: &mut Pendings, one: Pending) -> Option<Pending>
    requires room { pendings.old.room ≡ true }
    requires low { pendings.old.first ≤ one.slot }
    requires high { one.slot < pendings.old.first + 32 }
    ensures items { pendings.new ≡ ring_with one pendings.old }
    ensures earlier { result ≡ pending_at one.slot pendings.old.items }
{
    pendings.put(one)
}

/// Notes who voted for the value that is pending at a slot, and whether all is done.
#[tactic(auto, using(crate::proofs::Holding::found_slot))]
pub fn update_pending(pendings: &mut Pendings, slot: u64, marks: Marks, done: bool)
    requires room { pendings.old.room ≡ true }
    requires low { pendings.old.first ≤ slot }
    requires high { slot < pendings.old.first + 32 }
    ensures none { pending_at slot pendings.old.items ≡ None → pendings.new ≡ pendings.old }
    ensures some { (p : Pending) → pending_at slot pendings.old.items ≡ Some p
        → pendings.new ≡ ring_with (record p { marks = marks; done = done }) pendings.old }
{
    let Some(pending) = find(pendings, slot) else {
        return;
    };
    let hollow = hollow(pending);
    // A value is not changed in its place: it is taken out and put there anew.
    if let Some(mut noted) = put_pending(pendings, hollow) {
        noted.marks = marks;
        noted.done = done;
        put_pending(pendings, noted);
    }
}

/// Why a value is not asked for, where it is not.
pub fn declined(pendings: &Pendings, one: &Pending) -> Option<Why>
    ensures { result ≡ declined pendings.now one.now }
{
    if one.slot < pendings.first().max(one.cw) {
        return Some(Why::Past);
    }
    let old = find(pendings, one.slot)?.round;
    if one.round.is_before(&old) {
        Some(Why::Old)
    } else if old == one.round {
        Some(Why::Same)
    } else {
        None
    }
}

/// Why a vote for a pending value does not count, where it does not.
pub fn uncounted(pending: &Pending, acceptor: u16, round: Round) -> Option<Why>
    ensures { result ≡ uncounted acceptor round pending.now }
{
    if pending.round != round || !is_member(&pending.grid, acceptor) {
        return Some(Why::Unasked);
    }
    if pending.done {
        return Some(Why::Done);
    }
    if pending.marks.contains(acceptor) {
        return Some(Why::Same);
    }
    None
}

// What is in the place of a value while that is out.
fn hollow(pending: &Pending) -> Pending
    ensures { result.slot ≡ pending.now.slot }
{
    Pending {
        slot: pending.slot,
        round: pending.round,
        grid: pending.grid,
        cw: pending.cw,
        value: Value::Noop,
        marks: Marks::new(),
        done: false,
    }
}
