//! The fields of messages and records, read from the start of bytes. Each call takes its field's bytes off the reader, or answers
//! how many bytes are left from the first bad field on: `Bad` where a value is out of its range, `Cut` where a number or a round
//! takes more bytes than there are. The formats are this project's own.

ghost use Rattle.std.specs.Prelude.{◌≡◌, [], ◌∷◌, ◌≤◌, ◌<◌, IfOk};
ghost use Rattle.cx_wire.specs.Format.{◌▷◌};
ghost use Rattle.cx_field.specs.Fields as field;
ghost use Rattle.cx_field.specs.Reading.{Reads};

use crate::command_fields::name_from;
use crate::fault::ReadFault;
use crate::items::{items_from, list_from};
use crate::lists::{
    AnsweredItems, EntryItems, MemberItems, NoteItems, PairItems, SetItems, ValueItems, VoteItems,
};
use crate::parts::{Answers, Asking, Entries, LogValues, NackReason, Notes, Pairs, Token, Votes};
use crate::reader::ByteReader;
use cx_base::{Few, Grid, MEMBERS, Round, SET_LENGTH, SLOTS, Set, Text};
use std::alloc::Global;

/// A slot, below 2^40, in eight bytes.
#[tactic(auto, unfolding(crate::specs::Fields::slot))]
pub fn slot_from(reader: &mut ByteReader<'_>) -> Result<u64, ReadFault>
    ensures { Reads field.slot reader.old result reader.new }
{
    let left = reader.left();
    let slot = reader.u64()?;
    if slot >= SLOTS {
        return Err(ReadFault::Bad { left });
    }
    Ok(slot)
}

/// A watermark, a number of slots, at most 2^40, in eight bytes.
#[tactic(auto, unfolding(crate::specs::Fields::mark))]
pub fn mark_from(reader: &mut ByteReader<'_>) -> Result<u64, ReadFault>
    ensures { Reads field.mark reader.old result reader.new }
{
    let left = reader.left();
    let mark = reader.u64()?;
    if mark > SLOTS {
        return Err(ReadFault::Bad { left });
    }
    Ok(mark)
}

/// One more than a slot: 1 to 2^40, in eight bytes.
#[tactic(auto, unfolding(crate::specs::Fields::at))]
pub fn at_from(reader: &mut ByteReader<'_>) -> Result<u64, ReadFault>
    ensures { Reads field.at reader.old result reader.new }
{
    let left = reader.left();
    let at = reader.u64()?;
    if at < 1 || at > SLOTS {
        return Err(ReadFault::Bad { left });
    }
    Ok(at)
}

/// A client's number of a request, or a reader's turn: 1 or more, in eight bytes.
#[tactic(auto, unfolding(crate::specs::Fields::seq))]
pub fn seq_from(reader: &mut ByteReader<'_>) -> Result<u64, ReadFault>
    ensures read { Reads field.seq reader.old result reader.new }
    ensures some { IfOk result (λ n. 1 ≤ n) }
{
    let left = reader.left();
    let seq = reader.u64()?;
    if seq < 1 {
        return Err(ReadFault::Bad { left });
    }
    Ok(seq)
}

fn round_fields_from(reader: &mut ByteReader<'_>) -> Result<Round, ReadFault>
    ensures { Reads field.round_fields reader.old result reader.new }
{
    let r = reader.u32()?;
    let id = reader.u16()?;
    let s = reader.u32()?;
    Ok(Round { r, id, s })
}

/// A round, whose first number is 1 or more, in ten bytes; a fault is at its first byte.
#[tactic(auto, unfolding(crate::specs::Fields::round))]
pub fn round_from(reader: &mut ByteReader<'_>) -> Result<Round, ReadFault>
    ensures { Reads field.round reader.old result reader.new }
{
    let left = reader.left();
    match round_fields_from(reader) {
        Ok(round) if round.r >= 1 => Ok(round),
        Ok(_) => Err(ReadFault::Bad { left }),
        Err(ReadFault::NoMemory) => Err(ReadFault::NoMemory),
        Err(_) => Err(ReadFault::Cut { left, need: 10 }),
    }
}

/// A round, or none, which is ten zeros; a fault is at its first byte.
#[tactic(auto, unfolding(crate::specs::Fields::round0))]
pub fn round0_from(reader: &mut ByteReader<'_>) -> Result<Round, ReadFault>
    ensures { Reads field.round0 reader.old result reader.new }
{
    let left = reader.left();
    match round_fields_from(reader) {
        Ok(round) if round.r >= 1 || round == Round::ZERO => Ok(round),
        Ok(_) => Err(ReadFault::Bad { left }),
        Err(ReadFault::NoMemory) => Err(ReadFault::NoMemory),
        Err(_) => Err(ReadFault::Cut { left, need: 10 }),
    }
}

// Whether a set of this many goes with the round in which it was accepted.
fn goes_with(accepted: &Round, count: usize) -> bool
    ensures { result ≡ field.goes_with accepted.now count }
{
    if accepted.r >= 1 {
        count >= 1
    } else {
        count == 0
    }
}

/// A grid: its rows and columns in a byte each, 1 or more and at most 16 members, and its members row by row, none
/// twice.
#[tactic(auto, unfolding(crate::specs::Fields::grid))]
pub fn grid_from(alloc: Global, reader: &mut ByteReader<'_>) -> Result<Grid, ReadFault>
    ensures { Reads field.grid reader.old result reader.new }
{
    let left = reader.left();
    let rows = reader.u8()?;
    if rows < 1 {
        return Err(ReadFault::Bad { left });
    }
    let left = reader.left();
    let cols = reader.u8()?;
    let count = rows as usize * cols as usize;
    if cols < 1 || count > MEMBERS {
        return Err(ReadFault::Bad { left });
    }
    let members = items_from(alloc, &MemberItems, count, reader)?;
    Ok(Grid::from_parts(rows, cols, &members))
}

/// A client's read: the client in two bytes, and its number.
#[tactic(auto, unfolding(crate::specs::Fields::token))]
pub fn token_from(reader: &mut ByteReader<'_>) -> Result<Token, ReadFault>
    ensures { Reads field.token reader.old result reader.new }
{
    let client = reader.u16()?;
    let seq = seq_from(reader)?;
    Ok(Token { client, seq })
}

/// An asking of a reader: the reader in two bytes, and its turn.
#[tactic(auto, unfolding(crate::specs::Fields::asking))]
pub fn asking_from(reader: &mut ByteReader<'_>) -> Result<Asking, ReadFault>
    ensures { Reads field.asking reader.old result reader.new }
{
    let who = reader.u16()?;
    let turn = seq_from(reader)?;
    Ok(Asking { reader: who, turn })
}

/// Why a matchmaker refuses a round: a byte, 0 it is collected, 1 a later one is recorded, 2 there is no room.
#[tactic(auto, unfolding(crate::specs::Fields::reason))]
pub fn reason_from(reader: &mut ByteReader<'_>) -> Result<NackReason, ReadFault>
    ensures { Reads field.reason reader.old result reader.new }
{
    let left = reader.left();
    match reader.u8()? {
        0 => Ok(NackReason::Collected),
        1 => Ok(NackReason::Later),
        2 => Ok(NackReason::Full),
        _ => Err(ReadFault::Bad { left }),
    }
}

/// What a read found: a byte, 0 for nothing or 1 before a text.
#[tactic(auto, unfolding(crate::specs::Fields::found))]
pub fn found_from(reader: &mut ByteReader<'_>) -> Result<Option<Text>, ReadFault>
    ensures { Reads field.found reader.old result reader.new }
{
    let left = reader.left();
    match reader.u8()? {
        0 => Ok(None),
        1 => Ok(Some(name_from(reader)?)),
        _ => Err(ReadFault::Bad { left }),
    }
}

/// Entries of a matchmaker: how many in a byte, and each, a round above the one before and its grid.
#[tactic(auto, unfolding(crate::specs::Fields::entries))]
pub fn entries_from(alloc: Global, reader: &mut ByteReader<'_>) -> Result<Entries, ReadFault>
    ensures { Reads field.entries reader.old result reader.new }
{
    let list = list_from(alloc, &EntryItems, 0, 255, reader)?;
    Ok(Few::from_vec(list))
}

/// Entries with which a matchmaker begins: how many in a byte, at most 254, and each, a round above the one before and its
/// grid.
#[tactic(auto, unfolding(crate::specs::Fields::joined))]
pub fn joined_from(alloc: Global, reader: &mut ByteReader<'_>) -> Result<Entries, ReadFault>
    ensures { Reads field.joined reader.old result reader.new }
{
    let list = list_from(alloc, &EntryItems, 0, 254, reader)?;
    Ok(Few::from_vec(list))
}

/// A set of matchmakers: how many in a byte, at most 7, and the id of each in two bytes, above the one before.
#[tactic(auto, unfolding(crate::specs::Fields::set))]
pub fn set_from(alloc: Global, reader: &mut ByteReader<'_>) -> Result<Set, ReadFault>
    ensures { Reads field.set reader.old result reader.new }
{
    let left = reader.left();
    let count = reader.u8()? as usize;
    if count > SET_LENGTH {
        return Err(ReadFault::Bad { left });
    }
    let ids = items_from(alloc, &SetItems, count, reader)?;
    Ok(Set::new(&ids))
}

/// The set that was accepted in a round, or in none: how many in a byte, 0 exactly where there is no round, and at most 7; and
/// the id of each in two bytes, above the one before.
#[tactic(auto, unfolding(crate::specs::Fields::accepted_set))]
pub fn accepted_set_from(
    alloc: Global,
    accepted: &Round,
    reader: &mut ByteReader<'_>,
) -> Result<Set, ReadFault>
    ensures { Reads (field.accepted_set accepted.now) reader.old result reader.new }
{
    let left = reader.left();
    let count = reader.u8()? as usize;
    if count > SET_LENGTH || !goes_with(accepted, count) {
        return Err(ReadFault::Bad { left });
    }
    let ids = items_from(alloc, &SetItems, count, reader)?;
    Ok(Set::new(&ids))
}

/// Votes of an acceptor: how many in a byte, at most 32, and each: a round, a slot above the one before, at `cw` to
/// `cw` + 31, and a value, whose commands may tell their floors where `floors` says so.
#[tactic(auto, unfolding(crate::specs::Fields::votes_with))]
pub fn votes_from(
    alloc: Global,
    floors: bool,
    cw: u64,
    reader: &mut ByteReader<'_>,
) -> Result<Votes, ReadFault>
    ensures { Reads (field.votes_with floors cw) reader.old result reader.new }
{
    let list = list_from(alloc, &VoteItems { floors, cw }, 0, 32, reader)?;
    Ok(Few::from_vec(list))
}

/// Answers: how many in a byte, 1 to 8, and each: a client, its number, one more than its slot, and the reply.
#[tactic(auto, unfolding(crate::specs::Fields::answers))]
pub fn answers_from(alloc: Global, reader: &mut ByteReader<'_>) -> Result<Answers, ReadFault>
    ensures { Reads field.answers reader.old result reader.new }
{
    let list = list_from(alloc, &AnsweredItems, 1, 8, reader)?;
    Ok(Few::from_vec(list))
}

/// Values: how many in a byte, 1 to 32, and each, whose commands may tell their floors.
#[tactic(auto, unfolding(crate::specs::Fields::values))]
pub fn values_from(alloc: Global, reader: &mut ByteReader<'_>) -> Result<LogValues, ReadFault>
    ensures { Reads field.values reader.old result reader.new }
{
    let list = list_from(alloc, &ValueItems, 1, 32, reader)?;
    Ok(Few::from_vec(list))
}

/// Pairs of a map: how many in a byte, 1 to 255, and each, a key and a text.
#[tactic(auto, unfolding(crate::specs::Fields::pairs))]
pub fn pairs_from(alloc: Global, reader: &mut ByteReader<'_>) -> Result<Pairs, ReadFault>
    ensures { Reads field.pairs reader.old result reader.new }
{
    let list = list_from(alloc, &PairItems, 1, 255, reader)?;
    Ok(Few::from_vec(list))
}

/// Notes of a client: how many in a byte, 1 to 64, and each: a number, one more than its command's slot, and the reply.
#[tactic(auto, unfolding(crate::specs::Fields::notes))]
pub fn notes_from(alloc: Global, reader: &mut ByteReader<'_>) -> Result<Notes, ReadFault>
    ensures { Reads field.notes reader.old result reader.new }
{
    let list = list_from(alloc, &NoteItems, 1, 64, reader)?;
    Ok(Few::from_vec(list))
}
