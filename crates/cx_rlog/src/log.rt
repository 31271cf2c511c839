//! The log of a replica.

ghost use Rattle.std.specs.Prelude.{◌≡◌, ◌+◌, ◌-◌, ◌++◌, ◌<◌, ◌≤◌, ◌^◌, [], length, IfOk, OnErr, OnOk};
ghost use Rattle.cx_base.specs.Log.{ready_values, still_early};
ghost use Rattle.cx_rlog.specs.State.{AreReadyValues, LogState, from_slot, held, value_in};
ghost use Rattle.cx_rlog.specs.Taken.{early_after, taken_at};
ghost use Rattle.cx_rlog.specs.declared.taken.Taken.TheVariants.{Early};

use crate::early::{self, Early};
use crate::packed::{Packed, hold_all, hold_copies};
use crate::taken::Taken;
use cx_base::{Duplicate, Few, NoMemory, Value, WINDOW, WINDOW_LENGTH, copy_all};
use cx_ring::Ring;
use std::alloc::Global;
use std::marker::Model;

/// The chosen values in slot order, from a first slot on, and those that came before their turn (VLDB 2021: replicas
/// execute in slot order; forgetting values is this project's own).
/// Slots are below 2^40, and a value waits at most 31 slots ahead (this project's own limits).
#[derive(Drop)]
pub struct Log {
    first: u64,
    // A batch of one short command is held in place here.
    list: Vec<Packed>,
    // Its window begins at the slots held.
    early: Early,
    spare: usize,
}

impl Model for Log {
    ghost use Rattle.std.specs.Prelude.{vec_capacity, vec_len};
    ghost use Rattle.cx_rlog.specs.State.{IsLog, LogState};

    ghost Value = { LogState };

    ghost view = { λ log. record {
      first = log.first;
      list = log.list.items;
      early = log.early.items;
      spare = log.spare;
    } };

    ghost invariant = { λ log.
        IsLog log.first (vec_len log.list) (vec_capacity log.list) log.spare log.early.first
        log.early.items };
}

impl Log {
    /// The empty log.
    pub fn new(alloc: Global) -> Result<Self, NoMemory>
        ensures { IfOk result
            (λ log. log ≡ record { first = 0; list = []; early = []; spare = 0 }) }
    {
        Ok(Log {
            first: 0,
            list: Vec::new(alloc),
            early: Ring::new(alloc, 0),
            spare: 0,
        })
    }

    /// How many slots are held: all below it.
    pub fn held(&self) -> u64
        ensures held { result ≡ held self.now }
        ensures short { result ≤ 2 ^ 40 }
    {
        self.first + self.list.len() as u64
    }

    /// The first slot whose value it has, or the number of slots held where it has none.
    pub fn first(&self) -> u64
        ensures { result ≡ self.now.first }
    {
        self.first
    }

    /// The value of a slot, where it has one.
    pub fn value(&self, alloc: Global, slot: u64) -> Result<Option<Value>, NoMemory>
        ensures { IfOk result (λ value. value ≡ value_in self.now slot) }
    {
        if slot < self.first {
            return Ok(None);
        }
        match self.list.get((slot - self.first) as usize) {
            Some(packed) => Ok(Some(packed.value(alloc)?)),
            None => Ok(None),
        }
    }

    /// Takes note of a chosen value for a slot: one that is held already is past, one 32 or more above the slots held
    /// finds no room, one above the next slot waits where none waits for its slot, and the next one changes nothing
    /// yet. Only a value that waits takes memory.
    pub fn take(&mut self, alloc: Global, slot: u64, value: &Value) -> Result<Taken, NoMemory>
        requires { slot < 2 ^ 40 }
        ensures answer { IfOk result (λ taken. taken ≡ taken_at (held self.old) slot) }
        ensures early { IfOk result (λ taken.
            self.new
            ≡ record self.old { early = early_after taken slot value.now self.old.early }) }
        ensures err { OnErr result (self.new ≡ self.old) }
        ensures spared { OnErr result (taken_at (held self.old) slot ≡ Early) }
    {
        let held = self.first + self.list.len() as u64;
        if slot < held {
            return Ok(Taken::Past);
        }
        if slot >= held + WINDOW {
            return Ok(Taken::Full);
        }
        if slot == held {
            return Ok(Taken::Next);
        }
        early::wait(alloc, &mut self.early, slot, value)?;
        Ok(Taken::Early)
    }

    /// All that can be held once there is a value for the next slot: the value, and those waiting that follow it. The
    /// log has room for them then, as `put` asks; it holds no more yet.
    pub fn ready(
        &mut self,
        alloc: Global,
        value: &Value,
    ) -> Result<Few<Value, 1, WINDOW_LENGTH>, NoMemory>
        requires { held self.old < 2 ^ 40 }
        ensures values { IfOk result
            (λ values. values ≡ ready_values (held self.old) self.old.early value.now) }
        ensures ready { IfOk result (AreReadyValues self.new) }
        ensures room { IfOk result (λ values. length values ≤ self.new.spare) }
        ensures short { IfOk result (λ values. held self.new + length values ≤ 2 ^ 40) }
        ensures first { self.new.first ≡ self.old.first }
        ensures list { self.new.list ≡ self.old.list }
        ensures early { self.new.early ≡ self.old.early }
    {
        let held = self.held();
        let values = early::ready(alloc, &self.early, held, value)?;
        if self.spare < values.len() {
            self.list.reserve(values.len())?;
            self.spare = values.len();
        }
        Ok(Few::from_vec(values))
    }

    /// Holds the values that are ready, and drops those that wait no longer.
    pub fn put(&mut self, values: Few<Value, 1, WINDOW_LENGTH>)
        requires ready { AreReadyValues self.old values }
        requires room { length values ≤ self.old.spare }
        requires short { held self.old + length values ≤ 2 ^ 40 }
        ensures first { self.new.first ≡ self.old.first }
        ensures list { self.new.list ≡ self.old.list ++ values }
        ensures early { self.new.early ≡ still_early (held self.new) self.old.early }
        ensures spare { self.new.spare ≡ self.old.spare - length values }
    {
        let values = values.into_vec();
        self.spare -= values.len();
        hold_all(&mut self.list, values);
        let held = self.first + self.list.len() as u64;
        self.early.raise(held);
    }

    /// Drops the values that wait.
    pub fn forget_early(&mut self)
        ensures { self.new ≡ record self.old { early = [] } }
    {
        self.early.clear();
    }

    /// Holds more values, while none waits: for a log that is opened from its records.
    pub fn restore(&mut self, alloc: Global, values: &[Value]) -> Result<(), NoMemory>
        requires none_early { self.old.early ≡ [] }
        requires short { held self.old + length values.now ≤ 2 ^ 40 }
        ensures ok { OnOk result (self.new
            ≡ record self.old { list = self.old.list ++ values.now; early = []; spare = 0 }) }
        ensures err { OnErr result (self.new ≡ self.old) }
    {
        let mut more = hold_copies(alloc, values)?;
        self.list.append(&mut more)?;
        self.early.raise(self.first + self.list.len() as u64);
        self.spare = 0;
        Ok(())
    }

    /// Begins at a slot, before it has a value: for a log that is opened from its records.
    pub fn restore_at(&mut self, first: u64)
        requires none { self.old.list ≡ [] }
        requires none_early { self.old.early ≡ [] }
        requires later { self.old.first ≤ first }
        requires short { first ≤ 2 ^ 40 }
        ensures { self.new ≡ record self.old { first = first } }
    {
        self.first = first;
        self.early.raise(first);
    }

    /// A copy without the values below a slot, which takes no more memory than its values need.
    pub fn copy_from(&self, alloc: Global, first: u64) -> Result<Self, NoMemory>
        requires later { self.now.first ≤ first }
        requires within { first ≤ held self.now }
        ensures { IfOk result (λ log. log ≡ from_slot first self.now) }
    {
        let values = &self.list[(first - self.first) as usize..];
        let list = copy_all(alloc, values)?;
        let early = self.early.copy(alloc)?;
        Ok(Log {
            first,
            list,
            early,
            spare: 0,
        })
    }
}

impl Duplicate for Log {
    fn copy(&self, alloc: Global) -> Result<Self, NoMemory> {
        let mut list = copy_all(alloc, self.list.as_slice())?;
        list.reserve(self.spare)?;
        let early = self.early.copy(alloc)?;
        Ok(Log {
            first: self.first,
            list,
            early,
            spare: self.spare,
        })
    }
}
