//! The map as pairs, with the order of their keys, and room for more keys.

ghost use Rattle.std.specs.Prelude.{◌≡◌, ◌+◌, ◌++◌, ◌∷◌, ◌^◌, ◌<◌, ◌≤◌, [], true, OnErr, OnOk};
ghost use Rattle.std.specs.Prelude.{length, map, slice_index_or, slice_set, vec_capacity, vec_len};
ghost use Rattle.std.specs.List.{insert, remove};
ghost use Rattle.std.specs.Option.{option_copied};
ghost use Rattle.cx_base.specs.declared.command.Pair.{Pair};
ghost use Rattle.cx_base.specs.Fold.{text_at, with_text, without_key};
ghost use Rattle.cx_base.specs.Lists.{rises};
ghost use Rattle.cx_kv.specs.Picked.{AreBelow, IsKeyOrder, picked, renamed};
ghost use Rattle.cx_kv.specs.Rising.{IsRising, has_lower_key};
ghost use Rattle.cx_kv.specs.State.{MapState};

use crate::order::{index_at, look_up, pair_at};
use cx_base::{KEYS, Key, NoMemory, Pair, Text};
use std::alloc::Global;
use std::marker::Model;

/// How many pairs there can be.
const MOST: usize = KEYS as usize;

/// A map from keys to texts, with room that was taken beforehand. Contracts see the list of its pairs in the rising
/// order of their keys, and for how many more keys there is room.
#[derive(Drop)]
pub struct PairMap {
    // The pairs as they came.
    list: Vec<Pair>,
    // Their places there, in the rising order of their keys: so a new key moves four bytes for each one after it, and
    // no pair.
    order: Vec<u32>,
    spare: usize,
}

impl Model for PairMap {
    ghost use Rattle.std.specs.Prelude.{vec_capacity, vec_len};
    ghost use Rattle.cx_kv.specs.Picked.{IsKeyOrder, picked};
    ghost use Rattle.cx_kv.specs.State.{HasRoomForPairs, MapState};

    ghost Value = { MapState };

    ghost view = { λ p. record { pairs = picked p.list.items p.order.items; spare = p.spare } };

    ghost invariant = { λ p. IsKeyOrder p.list.items p.order.items
        × HasRoomForPairs (vec_len p.list) (vec_capacity p.list) (vec_len p.order)
        (vec_capacity p.order) p.spare };
}

impl PairMap {
    /// The empty map, without room. It takes no memory.
    pub fn new(alloc: Global) -> Self
        ensures { result ≡ record { pairs = []; spare = 0 } }
    {
        PairMap {
            list: Vec::new(alloc),
            order: Vec::new(alloc),
            spare: 0,
        }
    }

    /// Makes room for `count` more keys. Out of memory, or past 2^32 keys, nothing changes.
    pub fn make_room(&mut self, count: usize) -> Result<(), NoMemory>
        ensures pairs { self.new.pairs ≡ self.old.pairs }
        ensures room { OnOk result (count ≤ self.new.spare) }
        ensures grows { self.old.spare ≤ self.new.spare }
    {
        if count > self.spare {
            if count > MOST - self.list.len() {
                return Err(NoMemory);
            }
            self.list.reserve(count)?;
            self.order.reserve(count)?;
            self.spare = count;
        }
        Ok(())
    }

    /// The text of a key.
    pub fn get(&self, key: &Key) -> Option<&Text>
        ensures text { option_copied result ≡ text_at key.now self.now.pairs }
        ensures rising { IsRising self.now.pairs }
    {
        text_in(self.list.as_slice(), self.order.as_slice(), key)
    }

    /// How many keys it has.
    pub fn len(&self) -> usize
        ensures len { result ≡ length self.now.pairs }
        ensures rises { rises has_lower_key self.now.pairs ≡ true }
    {
        self.order.len()
    }

    /// The pair at a place in the rising order of the keys.
    pub fn at(&self, place: usize) -> &Pair
        requires { place < length self.now.pairs }
        ensures { (d : Pair) → slice_index_or self.now.pairs place d ≡ result.now }
    {
        pair_at(self.list.as_slice(), self.order.as_slice(), place)
    }

    /// Sets the text of a key.
    pub fn put(&mut self, key: &Key, text: &Text)
        requires { 0 < self.old.spare }
        ensures pairs { self.new.pairs ≡ with_text key.now text.now self.old.pairs }
        ensures spare { self.old.spare ≤ self.new.spare + 1 }
    {
        set_in(&mut self.list, &mut self.order, key, text);
        self.spare -= 1;
    }

    /// Puts pairs behind all others, their keys rising: for a map that is opened from records. Out of memory, or past
    /// 2^32 keys, nothing changes.
    pub fn push_all(&mut self, pairs: &[Pair]) -> Result<(), NoMemory>
        requires { rises has_lower_key (self.old.pairs ++ pairs.now) ≡ true }
        ensures ok { OnOk result (self.new.pairs ≡ self.old.pairs ++ pairs.now) }
        ensures err { OnErr result (self.new.pairs ≡ self.old.pairs) }
    {
        self.make_room(pairs.len())?;
        for pair in pairs {
            self.put(&pair.key, &pair.text);
        }
        Ok(())
    }

    /// Removes a key, and gives the text that it had.
    pub fn remove(&mut self, key: &Key) -> Option<Text>
        ensures text { result ≡ text_at key.now self.old.pairs }
        ensures pairs { self.new.pairs ≡ without_key key.now self.old.pairs }
        ensures spare { self.new.spare ≡ self.old.spare }
    {
        remove_from(&mut self.list, &mut self.order, key)
    }
}

fn text_in<'a>(list: &'a [Pair], order: &[u32], key: &Key) -> Option<&'a Text>
    requires { IsKeyOrder list.now order.now }
    ensures { option_copied result ≡ text_at key.now (picked list.now order.now) }
{
    match look_up(list, order, key) {
        Ok(place) => Some(&pair_at(list, order, place).text),
        Err(_) => None,
    }
}

// Another pair at a place of the order.
fn set_at(list: &mut Vec<Pair>, order: &[u32], place: usize, pair: &Pair)
    requires ordered { IsKeyOrder list.old.items order.now }
    requires inside { place < length order.now }
    ensures items { list.new.items
        ≡ slice_set list.old.items (slice_index_or order.now place 0) pair.now }
    ensures len { vec_len list.new ≡ vec_len list.old }
    ensures capacity { vec_capacity list.new ≡ vec_capacity list.old }
{
    let index = index_at(order, place);
    list[index] = *pair;
}

// One pair more, at a place of the order.
fn insert_at(list: &mut Vec<Pair>, order: &mut Vec<u32>, place: usize, pair: &Pair)
    requires inside { place ≤ vec_len order.old }
    requires list { vec_len list.old < vec_capacity list.old }
    requires order { vec_len order.old < vec_capacity order.old }
    requires short { vec_len list.old < 2 ^ 32 }
    ensures list { list.new.items ≡ list.old.items ++ pair.now ∷ [] }
    ensures order { order.new.items ≡ insert order.old.items place (vec_len list.old) }
    ensures list_len { vec_len list.new ≡ vec_len list.old + 1 }
    ensures order_len { vec_len order.new ≡ vec_len order.old + 1 }
    ensures list_room { vec_capacity list.new ≡ vec_capacity list.old }
    ensures order_room { vec_capacity order.old ≤ vec_capacity order.new }
{
    let index = list.len() as u32;
    list.push_reserved(*pair);
    match order.insert(place, index) {
        Ok(()) => {}
        // There is room.
        Err(_) => unreachable!(),
    }
}

fn set_in(list: &mut Vec<Pair>, order: &mut Vec<u32>, key: &Key, text: &Text)
    requires ordered { IsKeyOrder list.old.items order.old.items }
    requires list { vec_len list.old < vec_capacity list.old }
    requires order { vec_len order.old < vec_capacity order.old }
    requires short { vec_len list.old < 2 ^ 32 }
    ensures pairs { picked list.new.items order.new.items
        ≡ with_text key.now text.now (picked list.old.items order.old.items) }
    ensures below { AreBelow (length list.new.items) order.new.items }
    ensures list_len { vec_len list.new ≤ vec_len list.old + 1 }
    ensures order_len { vec_len order.new ≤ vec_len order.old + 1 }
    ensures list_room { vec_capacity list.old ≤ vec_capacity list.new }
    ensures order_room { vec_capacity order.old ≤ vec_capacity order.new }
{
    let pair = Pair {
        key: *key,
        text: *text,
    };
    match look_up(list, order, key) {
        Ok(place) => set_at(list, order, place, &pair),
        Err(place) => insert_at(list, order, place, &pair),
    }
}

// A place, once the last pair has moved to the gap.
fn renamed(place: u32, last: u32, gap: u32) -> u32
    ensures { result ≡ renamed last gap place }
{
    if place == last { gap } else { place }
}

// The last pair has moved to the gap that a removed one left.
fn rename(order: &mut [u32], last: u32, gap: u32)
    ensures { order.new ≡ map (renamed last gap) order.old }
{
    for place in order.iter_mut() {
        *place = renamed(*place, last, gap);
    }
}

fn remove_at(list: &mut Vec<Pair>, order: &mut Vec<u32>, place: usize) -> Text
    requires ordered { IsKeyOrder list.old.items order.old.items }
    requires inside { place < vec_len order.old }
    requires short { vec_len list.old ≤ 2 ^ 32 }
    ensures text { (d : Pair)
        → (slice_index_or (picked list.old.items order.old.items) place d).text ≡ result }
    ensures pairs { picked list.new.items order.new.items
        ≡ remove (picked list.old.items order.old.items) place }
    ensures below { AreBelow (length list.new.items) order.new.items }
    ensures list_len { vec_len list.new ≤ vec_len list.old }
    ensures order_len { vec_len order.new ≤ vec_len order.old }
    ensures list_room { vec_capacity list.new ≡ vec_capacity list.old }
    ensures order_room { vec_capacity order.new ≡ vec_capacity order.old }
{
    let gap = order.remove(place);
    let last = list.len() - 1;
    rename(order, last as u32, gap);
    list.swap_remove(gap as usize).text
}

fn remove_from(list: &mut Vec<Pair>, order: &mut Vec<u32>, key: &Key) -> Option<Text>
    requires ordered { IsKeyOrder list.old.items order.old.items }
    requires short { vec_len list.old ≤ 2 ^ 32 }
    ensures text { result ≡ text_at key.now (picked list.old.items order.old.items) }
    ensures pairs { picked list.new.items order.new.items
        ≡ without_key key.now (picked list.old.items order.old.items) }
    ensures below { AreBelow (length list.new.items) order.new.items }
    ensures list_len { vec_len list.new ≤ vec_len list.old }
    ensures order_len { vec_len order.new ≤ vec_len order.old }
    ensures list_room { vec_capacity list.new ≡ vec_capacity list.old }
    ensures order_room { vec_capacity order.new ≡ vec_capacity order.old }
{
    match look_up(list, order, key) {
        Ok(place) => Some(remove_at(list, order, place)),
        Err(_) => None,
    }
}
