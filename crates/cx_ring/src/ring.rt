//! Values of the slots of a window.

ghost use Rattle.std.specs.Prelude.{◌≡◌, ◌==◌, ◌<◌, ◌≤◌, ◌+◌, ◌%◌, ◌^◌, [], true, false, length, replicate, get_or, slice_set, None, IfOk, OnOk, OnErr};
ghost use Rattle.std.specs.Option.{option_copied};
ghost use Rattle.cx_ring.specs.Ring.{value_at, with_value, raise_ring};
ghost use Rattle.cx_ring.specs.Places.{emptied};

use crate::ghost_list::GhostList;
use crate::order::{Slotted, from, none, same_values, with};
use cx_base::{Duplicate, NoMemory, WINDOW};
use std::alloc::Global;
use std::marker::{Model, PhantomData};

/// Values of the slots of a window of 32, at most one a slot: looked up at once, where contracts see the list of them in the
/// order in which their slots came. The window moves up only.
#[derive(Drop)]
pub struct Ring<T: Drop, S: Slotted<T>> {
    first: u64,
    // The value of a slot is at the place of its number modulo 32.
    places: Vec<Option<T>>,
    values: GhostList<T>,
    by: PhantomData<S>,
}

impl<T: Drop, S: Slotted<T>> Model for Ring<T, S> {
    ghost use Rattle.std.specs.Prelude.{◌==◌, vec_len};
    ghost use Rattle.cx_ring.specs.Ring.{RingState, IsRing};

    ghost Value = { RingState T };

    ghost view = { λ r.
        record { first = r.first; items = r.values.items; room = vec_len r.places == 32 } };

    ghost invariant = { λ r. IsRing S.at r.first r.places.items r.values.items };
}

// The place of a slot.
fn place_of(slot: u64) -> usize
    ensures { result ≡ slot % 32 }
{
    (slot % WINDOW) as usize
}

fn no_places<T: Drop>(alloc: Global) -> Result<Vec<Option<T>>, NoMemory>
    ensures { IfOk result (λ places. places.items ≡ replicate 32 None) }
{
    let mut places = Vec::with_capacity(alloc, WINDOW as usize)?;
    for _ in 0..WINDOW {
        places.push(None)?;
    }
    Ok(places)
}

fn value_of<T>(places: &[Option<T>], place: usize) -> Option<&T>
    ensures { option_copied result ≡ get_or places.now place None }
{
    match places.get(place) {
        Some(one) => one.as_ref(),
        None => None,
    }
}

fn empty_place<T: Drop>(places: &mut Vec<Option<T>>, place: usize)
    ensures { places.new.items ≡ slice_set places.old.items place None }
{
    if place < places.len() {
        places[place] = None;
    }
}

// Empties the places of `count` slots from the first on.
fn empty<T: Drop>(places: &mut Vec<Option<T>>, first: u64, count: u64)
    requires { first + count < 2 ^ 64 }
    ensures { places.new.items ≡ emptied first count places.old.items }
{
    for slot in first..first + count {
        empty_place(places, place_of(slot));
    }
}

impl<T: Drop, S: Slotted<T>> Ring<T, S> {
    /// No values, of the window that begins at a slot. It takes no memory.
    pub fn new(alloc: Global, first: u64) -> Self
        requires { first ≤ 2 ^ 40 }
        ensures { result ≡ record { first = first; items = []; room = false } }
    {
        Ring {
            first,
            places: Vec::new(alloc),
            values: none(),
            by: PhantomData,
        }
    }

    /// Makes room for a value of each slot.
    pub fn make_room(&mut self, alloc: Global) -> Result<(), NoMemory>
        ensures ok { OnOk result (self.new ≡ record self.old { room = true }) }
        ensures err { OnErr result (self.new ≡ self.old) }
    {
        if self.places.is_empty() {
            self.places = no_places(alloc)?;
        }
        Ok(())
    }

    /// The slot at which the window begins.
    pub fn first(&self) -> u64
        ensures first { result ≡ self.now.first }
        ensures limit { self.now.first ≤ 2 ^ 40 }
    {
        self.first
    }

    /// The value of a slot.
    pub fn get(&self, slot: u64) -> Option<&T>
        ensures { option_copied result ≡ value_at S.at slot self.now.items }
    {
        if slot < self.first || slot - self.first >= WINDOW {
            return None;
        }
        value_of(&self.places, place_of(slot))
    }

    /// Whether it has no value.
    pub fn is_empty(&self) -> bool
        ensures { result ≡ (length self.now.items == 0) }
    {
        for slot in self.first..self.first + WINDOW {
            if self.get(slot).is_some() {
                return false;
            }
        }
        true
    }

    /// Puts a value of a slot of the window into the place of the earlier one of its slot, which it answers.
    pub fn put(&mut self, one: T) -> Option<T>
        requires room { self.old.room ≡ true }
        requires low { self.old.first ≤ S.at one }
        requires high { S.at one < self.old.first + 32 }
        ensures items { self.new ≡ record self.old { items = with_value S.at one self.old.items } }
        ensures earlier { result ≡ value_at S.at (S.at one) self.old.items }
    {
        self.values = with::<T, S>(&self.values, &one);
        let place = place_of(S::slot(&one));
        self.places[place].replace(one)
    }

    /// Lets the window begin at a slot, or leaves a later beginning; the values below it are dropped.
    pub fn raise(&mut self, first: u64)
        requires { first ≤ 2 ^ 40 }
        ensures { self.new ≡ raise_ring S.at first self.old }
    {
        let first = self.first.max(first);
        let count = (first - self.first).min(WINDOW);
        empty(&mut self.places, self.first, count);
        self.values = from::<T, S>(first, &self.values);
        self.first = first;
    }

    /// Drops all values.
    pub fn clear(&mut self)
        ensures { self.new ≡ record self.old { items = [] } }
    {
        empty(&mut self.places, self.first, WINDOW);
        self.values = none();
    }
}

fn copy_places<T: Duplicate>(
    alloc: Global,
    places: &[Option<T>],
) -> Result<Vec<Option<T>>, NoMemory>
    ensures { IfOk result (λ copied. copied.items ≡ places.now) }
{
    let mut copied = Vec::with_capacity(alloc, places.len())?;
    for place in places {
        let one = match place {
            None => None,
            Some(one) => Some(one.copy(alloc)?),
        };
        copied.push(one)?;
    }
    Ok(copied)
}

impl<T: Duplicate, S: Slotted<T>> Duplicate for Ring<T, S> {
    fn copy(&self, alloc: Global) -> Result<Self, NoMemory> {
        Ok(Ring {
            first: self.first,
            places: copy_places(alloc, &self.places)?,
            values: same_values(&self.values),
            by: PhantomData,
        })
    }
}
