//! What is in the lists of messages and records.

ghost use Rattle.std.specs.Prelude.{◌≡◌};
ghost use Rattle.cx_base.specs.Grid.{is_in};
ghost use Rattle.cx_field.specs.Fields as field;

use crate::command_fields::{command_from, name_from, reply_from, value_from};
use crate::fault::ReadFault;
use crate::fields::{at_from, grid_from, round_from, seq_from, slot_from};
use crate::items::Items;
use crate::parts::{Entry, Vote};
use crate::put::{
    put_at, put_command, put_grid, put_name, put_reply, put_round, put_seq, put_slot, put_value,
};
use crate::reader::ByteReader;
use cx_base::{Answered, Command, NoMemory, Note, Pair, Value, WINDOW};
use cx_wire::put_u16;
use std::alloc::Global;

/// Commands, one like the other, which may tell their floors where `floors` says so.
#[derive(Clone, Copy)]
pub struct CommandItems {
    pub floors: bool,
}

impl Items for CommandItems {
    type Item = Command;

    ghost format = { λ items _. field.command_with items.floors };

    ghost most = { 117 };

    fn next_from(
        &self,
        _alloc: Global,
        _before: &[Command],
        reader: &mut ByteReader<'_>,
    ) -> Result<Command, ReadFault> {
        command_from(self.floors, reader)
    }

    #[tactic(auto, using(crate::proofs::Floors::command_spells))]
    fn put_next(&self, command: &Command, out: &mut Vec<u8>) -> Result<(), NoMemory> {
        put_command(out, command)
    }
}

// Whether a number is in a list.
fn is_in(id: u16, before: &[u16]) -> bool
    ensures { result ≡ is_in id before.now }
{
    before.iter().any(|other| *other == id)
}

/// Members of a grid, none of them twice.
pub struct MemberItems;

impl Items for MemberItems {
    type Item = u16;

    ghost format = { λ _ before. field.member before };

    ghost most = { 2 };

    #[tactic(auto, unfolding(crate::specs::Fields::member))]
    fn next_from(
        &self,
        _alloc: Global,
        before: &[u16],
        reader: &mut ByteReader<'_>,
    ) -> Result<u16, ReadFault> {
        let left = reader.left();
        let id = reader.u16()?;
        if is_in(id, before) {
            return Err(ReadFault::Bad { left });
        }
        Ok(id)
    }

    #[tactic(auto, unfolding(crate::specs::Fields::member, cx_wire::specs::Format::u16))]
    fn put_next(&self, id: &u16, out: &mut Vec<u8>) -> Result<(), NoMemory> {
        put_u16(out, *id)
    }
}

/// Matchmakers of a set, by rising id.
pub struct SetItems;

impl Items for SetItems {
    type Item = u16;

    ghost format = { λ _ before. field.set_member before };

    ghost most = { 2 };

    #[tactic(auto, unfolding(crate::specs::Fields::set_member))]
    fn next_from(
        &self,
        _alloc: Global,
        before: &[u16],
        reader: &mut ByteReader<'_>,
    ) -> Result<u16, ReadFault> {
        let left = reader.left();
        let id = reader.u16()?;
        let rises = before.last().map_or(true, |last| *last < id);
        if !rises {
            return Err(ReadFault::Bad { left });
        }
        Ok(id)
    }

    #[tactic(auto, unfolding(crate::specs::Fields::set_member, cx_wire::specs::Format::u16))]
    fn put_next(&self, id: &u16, out: &mut Vec<u8>) -> Result<(), NoMemory> {
        put_u16(out, *id)
    }
}

/// Entries of a matchmaker, of rising rounds.
pub struct EntryItems;

impl Items for EntryItems {
    type Item = Entry;

    ghost format = { λ _ before. field.entry before };

    ghost most = { 44 };

    #[tactic(auto, unfolding(crate::specs::Fields::entry))]
    fn next_from(
        &self,
        alloc: Global,
        before: &[Entry],
        reader: &mut ByteReader<'_>,
    ) -> Result<Entry, ReadFault> {
        let left = reader.left();
        let round = round_from(reader)?;
        let rises = before
            .last()
            .map_or(true, |last| last.round.is_before(&round));
        if !rises {
            return Err(ReadFault::Bad { left });
        }
        let grid = grid_from(alloc, reader)?;
        Ok(Entry { round, grid })
    }

    #[tactic(auto, unfolding(crate::specs::Fields::entry))]
    fn put_next(&self, entry: &Entry, out: &mut Vec<u8>) -> Result<(), NoMemory> {
        put_round(out, &entry.round)?;
        put_grid(out, &entry.grid)
    }
}

/// Votes of an acceptor, of rising slots of the window that begins at `cw`, whose commands may tell their floors where
/// `floors` says so.
#[derive(Clone, Copy)]
pub struct VoteItems {
    pub floors: bool,
    pub cw: u64,
}

impl Items for VoteItems {
    type Item = Vote;

    ghost format = { λ items before. field.vote_with items.floors items.cw before };

    ghost most = { 956 };

    #[tactic(auto, unfolding(crate::specs::Fields::vote_with))]
    fn next_from(
        &self,
        alloc: Global,
        before: &[Vote],
        reader: &mut ByteReader<'_>,
    ) -> Result<Vote, ReadFault> {
        let round = round_from(reader)?;
        let left = reader.left();
        let slot = slot_from(reader)?;
        let rises = before.last().map_or(true, |last| last.slot < slot);
        if slot < self.cw || slot - self.cw >= WINDOW || !rises {
            return Err(ReadFault::Bad { left });
        }
        let value = value_from(alloc, self.floors, reader)?;
        Ok(Vote { round, slot, value })
    }

    #[tactic(auto, unfolding(crate::specs::Fields::vote_with))]
    fn put_next(&self, vote: &Vote, out: &mut Vec<u8>) -> Result<(), NoMemory> {
        put_round(out, &vote.round)?;
        put_slot(out, vote.slot)?;
        put_value(out, &vote.value)
    }
}

/// Answers, one like the other.
pub struct AnsweredItems;

impl Items for AnsweredItems {
    type Item = Answered;

    ghost format = { λ _ _. field.answered };

    ghost most = { 84 };

    #[tactic(auto, unfolding(crate::specs::Fields::answered))]
    fn next_from(
        &self,
        _alloc: Global,
        _before: &[Answered],
        reader: &mut ByteReader<'_>,
    ) -> Result<Answered, ReadFault> {
        let client = reader.u16()?;
        let seq = seq_from(reader)?;
        let at = at_from(reader)?;
        let reply = reply_from(reader)?;
        Ok(Answered {
            client,
            seq,
            at,
            reply,
        })
    }

    #[tactic(auto, unfolding(crate::specs::Fields::answered, cx_wire::specs::Format::u16))]
    fn put_next(&self, answered: &Answered, out: &mut Vec<u8>) -> Result<(), NoMemory> {
        put_u16(out, answered.client)?;
        put_seq(out, answered.seq)?;
        put_at(out, answered.at)?;
        put_reply(out, &answered.reply)
    }
}

/// Pairs of a map, one like the other.
pub struct PairItems;

impl Items for PairItems {
    type Item = Pair;

    ghost format = { λ _ _. field.pair };

    ghost most = { 98 };

    #[tactic(auto, unfolding(crate::specs::Fields::pair))]
    fn next_from(
        &self,
        _alloc: Global,
        _before: &[Pair],
        reader: &mut ByteReader<'_>,
    ) -> Result<Pair, ReadFault> {
        let key = name_from(reader)?;
        let text = name_from(reader)?;
        Ok(Pair { key, text })
    }

    #[tactic(auto, unfolding(crate::specs::Fields::pair))]
    fn put_next(&self, pair: &Pair, out: &mut Vec<u8>) -> Result<(), NoMemory> {
        put_name(out, &pair.key)?;
        put_name(out, &pair.text)
    }
}

/// Notes of a client, one like the other.
pub struct NoteItems;

impl Items for NoteItems {
    type Item = Note;

    ghost format = { λ _ _. field.note };

    ghost most = { 82 };

    #[tactic(auto, unfolding(crate::specs::Fields::note))]
    fn next_from(
        &self,
        _alloc: Global,
        _before: &[Note],
        reader: &mut ByteReader<'_>,
    ) -> Result<Note, ReadFault> {
        let seq = seq_from(reader)?;
        let at = at_from(reader)?;
        let reply = reply_from(reader)?;
        Ok(Note { seq, at, reply })
    }

    #[tactic(auto, unfolding(crate::specs::Fields::note))]
    fn put_next(&self, note: &Note, out: &mut Vec<u8>) -> Result<(), NoMemory> {
        put_seq(out, note.seq)?;
        put_at(out, note.at)?;
        put_reply(out, &note.reply)
    }
}

/// Values, one like the other, whose commands may tell their floors.
pub struct ValueItems;

impl Items for ValueItems {
    type Item = Value;

    ghost format = { λ _ _. field.value };

    ghost most = { 938 };

    #[tactic(auto, unfolding(crate::specs::Fields::value))]
    fn next_from(
        &self,
        alloc: Global,
        _before: &[Value],
        reader: &mut ByteReader<'_>,
    ) -> Result<Value, ReadFault> {
        value_from(alloc, true, reader)
    }

    fn put_next(&self, value: &Value, out: &mut Vec<u8>) -> Result<(), NoMemory> {
        put_value(out, value)
    }
}
