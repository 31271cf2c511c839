//! Values that came before their turn.

ghost use Rattle.std.specs.Prelude.{◌≡◌, ◌+◌, ◌<◌, ◌≤◌, ◌^◌, max, vec_len, OnErr, OnOk, IfOk};
ghost use Rattle.std.specs.Option.{option_copied};
ghost use Rattle.cx_base.specs.Log.{ready_values, still_early, value_for};
ghost use Rattle.cx_ring.specs.Ring.{IsNear};
ghost use Rattle.cx_rlog.specs.Taken.{waiting_with};

use cx_base::{Duplicate, NoMemory, Placed, SLOTS, Value, WINDOW};
use cx_ring::{Ring, Slotted};
use std::alloc::Global;

/// The most values that may follow the next one at once.
const FOLLOWING: u64 = WINDOW - 1;

/// A value that waits is at its slot.
pub struct Waiting;

impl Slotted<Placed> for Waiting {
    ghost at = { λ p. p.slot };

    fn slot(one: &Placed) -> u64 {
        one.slot
    }
}

/// The values that wait, in a window from the slots held on.
pub type Early = Ring<Placed, Waiting>;

/// The value that waits for a slot.
pub fn value_for(early: &Early, slot: u64) -> Option<&Value>
    ensures { option_copied result ≡ value_for slot early.now.items }
{
    match early.get(slot) {
        Some(placed) => Some(&placed.value),
        None => None,
    }
}

/// Lets a value wait, where none waits for its slot.
pub fn wait(alloc: Global, early: &mut Early, slot: u64, value: &Value) -> Result<(), NoMemory>
    requires { IsNear early.old.first slot }
    ensures ok { OnOk result (early.new.items
        ≡ waiting_with (value_for slot early.old.items) slot value.now early.old.items) }
    ensures err { OnErr result (early.new.items ≡ early.old.items) }
    ensures first { early.new.first ≡ early.old.first }
{
    if value_for(early, slot).is_some() {
        return Ok(());
    }
    let value = value.copy(alloc)?;
    early.make_room(alloc)?;
    early.put(Placed { slot, value });
    Ok(())
}

/// A value for the slot held, and the waiting ones that follow it.
pub fn ready(alloc: Global, early: &Early, held: u64, value: &Value) -> Result<Vec<Value>, NoMemory>
    requires { held < 2 ^ 40 }
    ensures values { IfOk result
        (λ values. values.items ≡ ready_values held early.now.items value.now) }
    ensures some { IfOk result (λ values. 1 ≤ vec_len values) }
    ensures few { IfOk result (λ values. vec_len values ≤ 32) }
    ensures short { IfOk result (λ values. held + vec_len values ≤ 2 ^ 40) }
{
    let mut values = Vec::with_capacity(alloc, 1)?;
    values.push(value.copy(alloc)?)?;
    let first = held + 1;
    for later in 0..FOLLOWING.min(SLOTS - first) {
        let Some(value) = value_for(early, first + later) else {
            return Ok(values);
        };
        values.push(value.copy(alloc)?)?;
    }
    Ok(values)
}
