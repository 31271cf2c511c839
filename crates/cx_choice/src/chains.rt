//! The votes of each slot, held as chains of their records' numbers.

ghost use Rattle.std.specs.Prelude.{◌≡◌, ◌+◌, ◌<◌, ℕ, IfOk, OnOk, Some, get_or, length, map, slice_get};
ghost use Rattle.cx_choice.specs.Chains.{HaveVotes, Puts};
ghost use Rattle.cx_choice.specs.Sorted.{slot_voted, votes_of};

use cx_base::NoMemory;
use cx_history::Kept;
use cx_letter::{KeptRecord, Record, Written};
use std::alloc::Global;

/// Of each slot the number of the first record with a vote in it, and of each record the number of the next one with a vote in
/// the same slot. A number is held as one more than it is, and 0 where there is none.
#[derive(Drop)]
pub struct VoteChains {
    first: Vec<u32>,
    next: Vec<u32>,
}

/// The votes of a slot, and the numbers of their records.
#[derive(Drop)]
pub struct SlotVotes {
    pub numbers: Vec<u32>,
    pub votes: Vec<KeptRecord>,
}

// Makes a place for a slot, where no vote is known.
fn make_room(first: &mut Vec<u32>, slot: usize) -> Result<(), NoMemory>
    ensures room { OnOk result (slot < length first.new.items) }
    ensures same { OnOk result ((s : ℕ) → get_or first.new.items s 0 ≡ get_or first.old.items s 0) }
{
    while first.len() <= slot {
        first.push(0)?;
    }
    Ok(())
}

// The slot of a vote; of another change none.
fn slot_voted(what: &Written) -> Option<u64>
    ensures { result ≡ slot_voted what.now }
{
    match what {
        Written::Record {
            what: Record::Vote { slot, .. },
        } => Some(*slot),
        _ => None,
    }
}

// Puts a change before the later votes in its slot, if it is a vote in a slot below the number of changes.
fn put(votes: &mut VoteChains, number: u32, one: KeptRecord) -> Result<(), NoMemory>
    requires room { number < length votes.old.next.items }
    requires fits { number + 1 < 4294967296 }
    ensures { OnOk result (Puts votes.old votes.new number one.what) }
{
    let Some(slot) = slot_voted(&one.what) else {
        return Ok(());
    };
    if slot >= votes.next.len() as u64 {
        return Ok(());
    }
    let slot = slot as usize;
    make_room(&mut votes.first, slot)?;
    votes.next[number as usize] = votes.first[slot];
    votes.first[slot] = number + 1;
    Ok(())
}

// No vote is known of `count` records.
fn no_votes(alloc: Global, count: usize) -> Result<VoteChains, NoMemory>
    ensures first { IfOk result (λ votes. (s : ℕ) → get_or votes.first.items s 0 ≡ 0) }
    ensures count { IfOk result (λ votes. length votes.next.items ≡ count) }
{
    let mut next = Vec::with_capacity(alloc, count)?;
    for _ in 0..count {
        next.push(0)?;
    }
    Ok(VoteChains {
        first: Vec::new(alloc),
        next,
    })
}

/// The votes of each slot below the number of records. It is out of memory also where a record's number has more than four bytes.
pub fn votes_by_slot(alloc: Global, kept: &Kept) -> Result<VoteChains, NoMemory>
    ensures { IfOk result (λ votes. HaveVotes votes kept.now 0) }
{
    if kept.len() >= u32::MAX as usize {
        return Err(NoMemory);
    }
    let mut votes = no_votes(alloc, kept.len())?;
    let mut number = kept.len();
    while number > 0 {
        number -= 1;
        put(&mut votes, number as u32, kept.at(number)?)?;
    }
    Ok(votes)
}

fn first_in(votes: &VoteChains, slot: usize) -> u32
    ensures { result ≡ get_or votes.now.first.items slot 0 }
{
    if slot < votes.first.len() {
        votes.first[slot]
    } else {
        0
    }
}

/// The votes of a slot in order, which are read.
pub fn votes_in(
    alloc: Global,
    kept: &Kept,
    votes: &VoteChains,
    slot: usize,
) -> Result<SlotVotes, NoMemory>
    requires have { HaveVotes votes.now kept.now 0 }
    requires slot { slot < length kept.now }
    ensures votes { IfOk result (λ found. found.votes.items ≡ votes_of slot kept.now) }
    ensures numbers { IfOk result (λ found. map (slice_get kept.now) found.numbers.items
        ≡ map (λ vote. Some vote) found.votes.items) }
{
    let mut numbers = Vec::new(alloc);
    let mut found = Vec::new(alloc);
    let mut here = first_in(votes, slot);
    while here > 0 {
        let number = here - 1;
        found.push(kept.at(number as usize)?)?;
        numbers.push(number)?;
        here = votes.next[number as usize];
    }
    Ok(SlotVotes {
        numbers,
        votes: found,
    })
}
