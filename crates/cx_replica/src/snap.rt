//! A replica forgets the values that no other will ask it for, and puts its list anew: a snapshot, and log compaction.

ghost use Rattle.std.specs.Prelude.{◌≡◌, ◌≤◌, ◌<◌, ◌-◌, ◌^◌, ◌++◌, ℕ, [], true, drop, length, map, take};
ghost use Rattle.std.specs.Prelude.{IfOk, IsTrue, None, OnOk, Some, slice_get, vec_len};
ghost use Rattle.cx_base.specs.Noted.{floor_of};
ghost use Rattle.cx_field.specs.Fields as field;
ghost use Rattle.cx_keep.specs.Keeper.{all_fit};
ghost use Rattle.cx_model.specs.Renewed.{IsOrdered};
ghost use Rattle.cx_model.specs.Replica.{held, note_of, notes_of, pieces, replica_renewed, replica_rules, replica_snap};
ghost use Rattle.cx_model.specs.Rules.{refused};
ghost use Rattle.cx_letter.specs.Records.{fits as record_fits};
ghost use Rattle.cx_letter.specs.declared.kept.Record.TheVariants as kept;
ghost use Rattle.cx_replica.specs.Sound.{IsTableOfCluster, are_pairs, are_values};
ghost use Rattle.cx_rlog.specs.State.{held as held_in};
ghost use Rattle.cx_role.specs.Snap.{IsSnap};

use crate::machine::Machine;
use crate::replica::Replica;
use crate::wanted::Wanted;
use cx_base::{Answered, Cluster, Few, KEYS, NoMemory, Note, PAIRS, Pair, Value, WINDOW, Why};
use cx_field::name_fits;
use cx_keep::Renew;
use cx_letter::Record;
use cx_rlog::Log;
use cx_role::{Outbox, Snaps, StepFault, renew};
use std::alloc::Global;

// Each pair has a spelling, its bytes in a record. It does nothing when it runs.
#[tactic(auto, unfolding(cx_field::specs::Fields::pair))]
fn pair_fits(pair: &Pair)
    ensures { IsTrue (field.pair.fits pair.now) }
{
    name_fits(&pair.key);
    name_fits(&pair.text);
}

// Pairs of the map in the order of their keys, from one place up to another.
fn pairs_between(
    alloc: Global,
    machine: &Machine,
    from: usize,
    end: usize,
) -> Result<Vec<Pair>, NoMemory>
    requires order { from ≤ end }
    requires within { end ≤ length machine.now.left.map }
    ensures items { IfOk result
        (λ pairs. pairs.items ≡ take (end - from) (drop from machine.now.left.map)) }
    ensures len { IfOk result (λ pairs. vec_len pairs ≡ end - from) }
    ensures fit { IfOk result (λ pairs. IsTrue (are_pairs pairs.items)) }
{
    let mut pairs = Vec::new(alloc);
    for place in from..end {
        let pair = machine.pair_at(place);
        pair_fits(pair);
        pairs.push(*pair)?;
    }
    Ok(pairs)
}

// A record of the next pairs from a place on.
fn pairs_record(alloc: Global, machine: &Machine, from: usize) -> Result<Record, NoMemory>
    requires { from < length machine.now.left.map }
    ensures is { IfOk result
        (λ what. what ≡ kept.Pairs (take 255 (drop from machine.now.left.map))) }
    ensures fits { IfOk result (λ what. IsTrue (record_fits what)) }
{
    let end = from + PAIRS.min(machine.keys() - from);
    let pairs = pairs_between(alloc, machine, from, end)?;
    Ok(Record::Pairs {
        pairs: Few::from_vec(pairs),
    })
}

// The records of the map.
fn push_pairs(alloc: Global, machine: &Machine, records: &mut Vec<Record>) -> Result<(), NoMemory>
    requires { IsTrue (all_fit records.old.items) }
    ensures items { OnOk result (records.new.items
        ≡ records.old.items ++ map (λ ps. kept.Pairs ps) (pieces 255 machine.now.left.map)) }
    ensures fit { OnOk result (IsTrue (all_fit records.new.items)) }
{
    let count = machine.keys();
    let mut left = count;
    while 0 < left {
        let what = pairs_record(alloc, machine, count - left)?;
        records.push(what)?;
        // The last record may have fewer.
        left = left.saturating_sub(PAIRS);
    }
    Ok(())
}

fn note_of(answer: &Answered) -> Note
    ensures { result ≡ note_of answer.now }
{
    Note {
        seq: answer.seq,
        at: answer.at,
        reply: answer.reply,
    }
}

fn notes_from(alloc: Global, answers: &[Answered]) -> Result<Vec<Note>, NoMemory>
    ensures items { IfOk result (λ notes. notes.items ≡ map note_of answers.now) }
    ensures len { IfOk result (λ notes. vec_len notes ≡ length answers.now) }
{
    let mut notes = Vec::new(alloc);
    for answer in answers {
        notes.push(note_of(answer))?;
    }
    Ok(notes)
}

// The record of a client, which told this floor.
fn notes_record(
    alloc: Global,
    cluster: &Cluster,
    machine: &Machine,
    client: u16,
    floor: u64,
) -> Result<Record, NoMemory>
    requires told { floor_of client machine.now.left.table.floors ≡ Some floor }
    requires ordered { IsOrdered machine.now.left.table }
    requires noted { IsTableOfCluster cluster.now machine.now.left.table }
    ensures is { IfOk result (λ what. what
        ≡ notes_of machine.now.left.table (record { client = client; floor = floor })) }
    ensures fits { IfOk result (λ what. IsTrue (record_fits what)) }
{
    let notes = notes_from(alloc, machine.notes(client))?;
    Ok(Record::Notes {
        client,
        floor,
        notes: Few::from_vec(notes),
    })
}

// The records of the client table, one for each client that told a floor.
fn all_notes(alloc: Global, cluster: &Cluster, machine: &Machine) -> Result<Vec<Record>, NoMemory>
    requires ordered { IsOrdered machine.now.left.table }
    requires noted { IsTableOfCluster cluster.now machine.now.left.table }
    ensures items { IfOk result (λ records. records.items
        ≡ map (notes_of machine.now.left.table) machine.now.left.table.floors) }
    ensures few { IfOk result (λ records. vec_len records ≤ 64) }
    ensures fit { IfOk result (λ records. IsTrue (all_fit records.items)) }
{
    let mut records = Vec::new(alloc);
    for client in 0..cluster.clients {
        if let Some(floor) = machine.floor(client) {
            let what = notes_record(alloc, cluster, machine, client, floor)?;
            records.push(what)?;
        }
    }
    Ok(records)
}

// The value of a slot that a log has.
fn value_at(alloc: Global, log: &Log, slot: u64) -> Result<Value, NoMemory>
    requires first { log.now.first ≤ slot }
    requires within { slot < held_in log.now }
    ensures { IfOk result (λ value. slice_get log.now.list (slot - log.now.first) ≡ Some value) }
{
    match log.value(alloc, slot)? {
        Some(value) => Ok(value),
        None => unreachable!(),
    }
}

// Values of a log, from one slot up to another.
fn values_between(alloc: Global, log: &Log, slot: u64, end: u64) -> Result<Vec<Value>, NoMemory>
    requires first { log.now.first ≤ slot }
    requires order { slot ≤ end }
    requires within { end ≤ held_in log.now }
    ensures items { IfOk result (λ values. values.items
        ≡ take (end - slot) (drop (slot - log.now.first) log.now.list)) }
    ensures len { IfOk result (λ values. vec_len values ≡ end - slot) }
{
    let mut values = Vec::new(alloc);
    for at in slot..end {
        values.push(value_at(alloc, log, at)?)?;
    }
    Ok(values)
}

// A record of the next values from a slot on.
fn tail_record(alloc: Global, log: &Log, slot: u64) -> Result<Record, NoMemory>
    requires first { log.now.first ≤ slot }
    requires within { slot < held_in log.now }
    requires fit { IsTrue (are_values log.now.list) }
    ensures is { IfOk result
        (λ what. what ≡ kept.Tail (take 32 (drop (slot - log.now.first) log.now.list))) }
    ensures fits { IfOk result (λ what. IsTrue (record_fits what)) }
{
    let end = slot + WINDOW.min(log.held() - slot);
    let values = values_between(alloc, log, slot, end)?;
    Ok(Record::Tail {
        values: Few::from_vec(values),
    })
}

// The records of all values of a log.
fn push_tail(alloc: Global, log: &Log, records: &mut Vec<Record>) -> Result<(), NoMemory>
    requires values { IsTrue (are_values log.now.list) }
    requires fit { IsTrue (all_fit records.old.items) }
    ensures items { OnOk result (records.new.items
        ≡ records.old.items ++ map (λ vs. kept.Tail vs) (pieces 32 log.now.list)) }
    ensures fit { OnOk result (IsTrue (all_fit records.new.items)) }
{
    let held = log.held();
    let mut left = held - log.first();
    while 0 < left {
        let what = tail_record(alloc, log, held - left)?;
        records.push(what)?;
        // The last record may have fewer.
        left = left.saturating_sub(WINDOW);
    }
    Ok(())
}

impl Replica {
    // The list without the values below the first slot of the tail, which has all others.
    fn renewed(&self, tail: &Log) -> Result<Vec<Record>, NoMemory>
        requires first { self.now.durable.first ≤ tail.now.first }
        requires list { tail.now.list
            ≡ drop (tail.now.first - self.now.durable.first) self.now.durable.log }
        requires held { held_in tail.now ≡ held self.now.durable }
        requires short { length self.now.durable.machine.map < 2 ^ 32 }
        ensures items { IfOk result
            (λ records. records.items ≡ replica_renewed self.now.durable tail.now.first) }
        ensures fit { IfOk result (λ records. IsTrue (all_fit records.items)) }
    {
        // Made before the base, which says how many they are.
        let mut notes = all_notes(self.alloc, &self.cluster, &self.machine)?;
        let mut records = Vec::new(self.alloc);
        records.push(Record::Base {
            first: tail.first(),
            held: tail.held(),
            pairs: self.machine.keys() as u32,
            clients: notes.len() as u8,
        })?;
        push_pairs(self.alloc, &self.machine, &mut records)?;
        records.append(&mut notes)?;
        push_tail(self.alloc, tail, &mut records)?;
        Ok(records)
    }

    // Below which slot it may forget values, if it may: a base counts the map's pairs in four bytes, so not of more pairs.
    fn snap_slot(&self) -> Option<u64>
        ensures slot { result
            ≡ replica_snap self.now.cluster self.now.me self.now.durable self.now.volatile }
        ensures later { (first : ℕ) → result ≡ Some first → self.now.durable.first ≤ first }
        ensures within { (first : ℕ) → result ≡ Some first → first ≤ held self.now.durable }
        ensures short { (first : ℕ) → result ≡ Some first
            → length self.now.durable.machine.map < 2 ^ 32 }
        ensures fits { (first : ℕ) → result ≡ Some first
            → refused replica_rules self.now.cluster self.now.me
            (replica_renewed self.now.durable first) ≡ None }
    {
        let held = self.log.held();
        // Only the replica before this one asks it for values, from `fetched` on; nobody asks the only one.
        let slot = if self.cluster.replicas == 1 {
            held
        } else {
            held.min(self.fetched)
        };
        if slot <= self.log.first() || KEYS <= self.machine.keys() as u64 {
            return None;
        }
        Some(slot)
    }

    // Forgets the values below a slot: memory first, then the renewal, then the state.
    fn forget_below<K: Renew>(&mut self, keeper: &mut K, first: u64) -> Result<Why, StepFault>
        requires later { self.old.durable.first ≤ first }
        requires within { first ≤ held self.old.durable }
        requires short { length self.old.durable.machine.map < 2 ^ 32 }
        requires live { self.old.live ≡ true }
        ensures { IsSnap K.renew_gives K.tells replica_rules self.old (Some first)
            result self.new keeper.old keeper.new [] }
    {
        let tail = self.log.copy_from(self.alloc, first)?;
        let records = self.renewed(&tail)?;
        renew(keeper, &mut self.live, &records)?;
        self.log = tail;
        self.wanted = Wanted::nothing();
        Ok(Why::Snapped)
    }
}

impl Snaps for Replica {
    /// It forgets the values that no other replica will ask it for, where there are some, and its list is put anew
    /// without them, with the map and the client table that all values leave (this project's own).
    fn snap<K: Renew>(&mut self, keeper: &mut K, _out: &mut Outbox) -> Result<Why, StepFault> {
        match self.snap_slot() {
            Some(first) => self.forget_below(keeper, first),
            None => Ok(Why::Idle),
        }
    }
}
