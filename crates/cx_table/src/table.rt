//! The client table of a replica.

ghost use Rattle.std.specs.Prelude.{◌≡◌, ◌+◌, ◌++◌, ◌∷◌, ◌<◌, ◌≤◌, [], false, true, length, map};
ghost use Rattle.std.specs.Prelude.{IsOk, IsSome, OnErr, OnOk};
ghost use Rattle.cx_base.specs.declared.command.Floor.{Floor as FloorOf};
ghost use Rattle.cx_base.specs.Lists.{rises};
ghost use Rattle.cx_base.specs.Noted.{are_rising, comes_before, floor_of, new_table, with_answer, with_told};
ghost use Rattle.cx_table.specs.Entries.{answer_of, are_above, are_notes_above, has_lower, of_client};
ghost use Rattle.cx_table.specs.Judged.{is_new, judge_of};
ghost use Rattle.cx_table.specs.State.{KeepsRoom, TakesRoom, room_for};
ghost use Rattle.cx_table.specs.declared.judge.Judge.TheVariants as judge;

use crate::entries::{place_of, room_at};
use crate::entry::{self, ClientEntry};
use crate::judge::Judge;
use crate::shown;
use cx_base::{Answered, Floor, NoMemory, Note, Reply};
use cx_ring::GhostList;
use indexmap::IndexMap;
use std::alloc::Global;
use std::marker::Model;

/// The floor of each client that told one, and the answers noted for its numbers above that: at most 64 for a client
/// whose commands' floors fit. Contracts see the rising lists of both, and for how many more answers of each client
/// there is room.
#[derive(Drop)]
pub struct Table {
    alloc: Global,
    entries: IndexMap<u16, ClientEntry>,
    // The table that contracts see.
    floors: GhostList<Floor>,
    notes: GhostList<Answered>,
}

impl Model for Table {
    ghost use Rattle.cx_table.specs.Entries.{rooms_in, AreClientEntries};
    ghost use Rattle.cx_table.specs.State.{TableState};

    ghost Value = { TableState };

    ghost view = { λ t. record {
      table = record { floors = t.floors.items; notes = t.notes.items };
      rooms = rooms_in t.entries.entries;
    } };

    ghost invariant = { λ t. AreClientEntries
        (record { floors = t.floors.items; notes = t.notes.items }) t.entries.entries };
}

impl Table {
    /// The empty table. It takes no memory.
    pub fn new(alloc: Global) -> Self
        ensures { result ≡ record { table = new_table; rooms = [] } }
    {
        Table {
            alloc,
            entries: IndexMap::new(alloc),
            floors: shown::none(),
            notes: shown::none(),
        }
    }

    /// Makes room for `count` more answers of a client. Out of memory, the table stays as it is.
    pub fn make_room(&mut self, client: u16, count: usize) -> Result<(), NoMemory>
        ensures table { self.new.table ≡ self.old.table }
        ensures room { OnOk result (count ≤ room_for client self.new.rooms) }
        ensures grows { KeepsRoom self.old.rooms self.new.rooms }
    {
        room_at(&mut self.entries, self.alloc, client, count)?;
        Ok(())
    }

    /// Whether a client's number is new, has an answer or is past (VLDB 2021: a replica executes no command twice;
    /// floors are this project's own).
    pub fn judge(&self, client: u16, seq: u64) -> Judge
        ensures judge { result ≡ judge_of self.now.table client seq }
        ensures told { is_new result ≡ false → IsSome (floor_of client self.now.table.floors) }
    {
        match self.entries.get(&client) {
            Some(entry) => entry::judge(entry, client, seq),
            None => Judge::New,
        }
    }

    /// The greatest floor that a client told, if it told one.
    pub fn floor(&self, client: u16) -> Option<u64>
        ensures { result ≡ floor_of client self.now.table.floors }
    {
        match self.entries.get(&client) {
            Some(entry) => entry.floor,
            None => None,
        }
    }

    /// The answers to a client's numbers above its floor, by rising number. The clients of floors rise, the answers
    /// stand by their clients and numbers, and each is above its client's floor.
    pub fn notes(&self, client: u16) -> &[Answered]
        ensures notes { result.now ≡ of_client client self.now.table.notes }
        ensures floors_rise { are_rising 0 self.now.table.floors ≡ true }
        ensures notes_rise { rises comes_before self.now.table.notes ≡ true }
        ensures above { are_above self.now.table ≡ true }
    {
        match self.entries.get(&client) {
            Some(entry) => entry.notes.as_slice(),
            None => &[],
        }
    }

    /// Notes what is known of one more client, whose number is above all others': the greatest floor that it told, and
    /// the answers to numbers above that. It is for a table that is opened from records. Out of memory, some of it may
    /// be noted.
    pub fn push(&mut self, client: u16, floor: u64, notes: &[Note]) -> Result<(), NoMemory>
        requires some { 1 ≤ length notes.now }
        requires behind { are_rising 0
            (self.old.table.floors ++ record { client = client; floor = floor } ∷ []) ≡ true }
        requires rise { rises has_lower notes.now ≡ true }
        requires above { are_notes_above floor notes.now ≡ true }
        ensures floors { OnOk result (self.new.table.floors
            ≡ self.old.table.floors ++ record { client = client; floor = floor } ∷ []) }
        ensures notes { OnOk result
            (self.new.table.notes ≡ self.old.table.notes ++ map (answer_of client) notes.now) }
    {
        let _rising = self.notes(client);
        for note in notes {
            self.note(client, note.seq, floor, note.at, &note.reply)?;
        }
        Ok(())
    }

    /// Notes the answer of a client's new number, one more than its slot and the reply, and that the client told a
    /// floor with it. Out of memory, which it can't be where there is room for an answer of the client, the table stays
    /// as it is.
    pub fn note(
        &mut self,
        client: u16,
        seq: u64,
        floor: u64,
        at: u64,
        reply: &Reply,
    ) -> Result<(), NoMemory>
        requires new { judge_of self.old.table client seq ≡ judge.New }
        ensures ok { OnOk result (self.new.table
            ≡ with_answer (record { client = client; seq = seq; at = at; reply = reply.now }) floor
            self.old.table) }
        ensures err { OnErr result (self.new.table ≡ self.old.table) }
        ensures succeeds { 0 < room_for client self.old.rooms → IsOk result }
        ensures room { TakesRoom client self.old.rooms self.new.rooms }
    {
        let place = room_at(&mut self.entries, self.alloc, client, 1)?;
        let answer = Answered {
            client,
            seq,
            at,
            reply: *reply,
        };
        entry::note(&mut self.entries[place], &answer, floor);
        self.floors = shown::with_floor(&self.floors, client, floor);
        self.notes = shown::with_answer(&self.notes, &answer, floor);
        Ok(())
    }

    /// Notes that a client, which told one before, told a floor.
    pub fn tell(&mut self, client: u16, floor: u64)
        requires told { IsSome (floor_of client self.old.table.floors) }
        ensures table { self.new.table ≡ with_told client floor self.old.table }
        ensures room { KeepsRoom self.old.rooms self.new.rooms }
    {
        match place_of(&self.entries, client) {
            Some(place) => entry::tell(&mut self.entries[place], floor),
            // It has an entry.
            None => unreachable!(),
        }
        self.floors = shown::with_floor(&self.floors, client, floor);
        self.notes = shown::still_noted(&self.notes, client, floor);
    }
}
