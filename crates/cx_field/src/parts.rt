//! What is in messages and records, beside the types of cx_base.

use cx_base::{
    Answered, BATCH, Duplicate, ENTRIES, Few, Grid, NOTES, NoMemory, Note, PAIRS, Pair, Round,
    Value, WINDOW_LENGTH,
};
use std::alloc::Global;

/// A round that a matchmaker recorded, and its grid (JSys 2021).
#[derive(Clone, Copy)]
pub struct Entry {
    pub round: Round,
    pub grid: Grid,
}

impl Duplicate for Entry {
    fn copy(&self, _alloc: Global) -> Result<Self, NoMemory> {
        Ok(*self)
    }
}

/// A value that an acceptor voted for in a round and a slot. Slots are below 2^40.
#[derive(Drop)]
pub struct Vote {
    pub round: Round,
    pub slot: u64,
    pub value: Value,
}

impl Duplicate for Vote {
    fn copy(&self, alloc: Global) -> Result<Self, NoMemory> {
        Ok(Vote {
            round: self.round,
            slot: self.slot,
            value: self.value.copy(alloc)?,
        })
    }
}

/// A request of a client: the client, and its number, which is 1 or more.
#[derive(Clone, Copy, PartialEq, Eq)]
pub struct Token {
    pub client: u16,
    pub seq: u64,
}

impl Duplicate for Token {
    fn copy(&self, _alloc: Global) -> Result<Self, NoMemory> {
        Ok(*self)
    }
}

/// An asking of a reader: the reader, and its turn, which is 1 or more. All reads of a batch are asked for under one turn.
#[derive(Clone, Copy, PartialEq, Eq)]
pub struct Asking {
    pub reader: u16,
    pub turn: u64,
}

impl Duplicate for Asking {
    fn copy(&self, _alloc: Global) -> Result<Self, NoMemory> {
        Ok(*self)
    }
}

/// Why a matchmaker does not record a round.
#[derive(Clone, Copy, PartialEq, Eq)]
pub enum NackReason {
    /// The round is below the watermark.
    Collected,
    /// A later round is recorded.
    Later,
    /// There is no room for another round.
    Full,
}

/// Entries of a matchmaker, at most 255, of strictly rising rounds.
pub type Entries = Few<Entry, 0, ENTRIES>;

/// Votes of an acceptor, at most 32, of strictly rising slots.
pub type Votes = Few<Vote, 0, WINDOW_LENGTH>;

/// Answers to the commands of one slot, one to eight.
pub type Answers = Few<Answered, 1, BATCH>;

/// Values of slots that follow one another, one to 32.
pub type LogValues = Few<Value, 1, WINDOW_LENGTH>;

/// Pairs of a map, one to 255.
pub type Pairs = Few<Pair, 1, PAIRS>;

/// What is noted of a client's numbers, one to 64 of them.
pub type Notes = Few<Note, 1, NOTES>;
