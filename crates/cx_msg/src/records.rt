//! Records as bytes, both ways.

ghost use Rattle.std.specs.Prelude.{◌≡◌, ◌≤◌, ◌+◌, ◌++◌, IfOk, IfErr, IsTrue, OnOk, OnErr, length};
ghost use Rattle.cx_wire.specs.Format as wire;
ghost use Rattle.cx_wire.specs.Format.{Appends, then_by};
ghost use Rattle.cx_field.specs.Fields as field;
ghost use Rattle.cx_msg.specs.Places.{LiesIn};
ghost use Rattle.cx_msg.specs.Decodes.{Decodes};
ghost use Rattle.cx_msg.specs.RecordBytes.{is_tag, record_of_bytes, spelling};
ghost use Rattle.cx_letter.specs.Records as records;
ghost use Rattle.cx_field.specs.Reading.{Gives};
ghost use Rattle.cx_letter.specs.declared.kept.Record.{Record as Kept};

use crate::fault::WireFault;
use crate::put_set_bodies::put_boot;
use cx_base::{NoMemory, Round, Value};
use cx_field::{
    ByteReader, Notes, ReadFault, Votes, grid_from, joined_from, mark_from, notes_from, pairs_from,
    put_grid, put_mark, put_notes, put_pairs, put_round, put_seq, put_set, put_slot, put_value,
    put_values, put_votes, round_from, round0_from, seq_from, set_from, slot_from, value_from,
    values_from, votes_from,
};
use cx_letter::Record;
use cx_wire::{put_u8, put_u16, put_u32, put_u64};
use std::alloc::Global;

/// Whether records have this tag.
pub(crate) fn is_tag(tag: u8) -> bool
    ensures { result ≡ is_tag tag }
{
    tag >= 1 && tag <= 18
}

#[tactic(auto, unfolding(cx_letter::specs::Records::record_cases, cx_field::specs::Fields::value, cx_field::specs::Fields::votes))]
pub(crate) fn fields_from(
    tag: u8,
    alloc: Global,
    reader: &mut ByteReader<'_>,
) -> Result<Record, ReadFault>
    ensures { Gives (λ r. r) result
        (wire.by_tag records.record_cases tag (length reader.old) reader.old) reader.new }
{
    match tag {
        1 => Ok(Record::Promise {
            round: round_from(reader)?,
        }),
        2 => {
            let round = round_from(reader)?;
            let slot = slot_from(reader)?;
            let cw = mark_from(reader)?;
            let value = value_from(alloc, true, reader)?;
            Ok(Record::Vote {
                round,
                slot,
                cw,
                value,
            })
        }
        3 => {
            let round = round_from(reader)?;
            let mark = mark_from(reader)?;
            Ok(Record::Water { round, mark })
        }
        4 => {
            let round = round_from(reader)?;
            let grid = grid_from(alloc, reader)?;
            Ok(Record::Match { round, grid })
        }
        5 => {
            let round = round_from(reader)?;
            let grid = grid_from(alloc, reader)?;
            Ok(Record::Garbage { round, grid })
        }
        6 => {
            let round = round_from(reader)?;
            let grid = grid_from(alloc, reader)?;
            Ok(Record::Round { round, grid })
        }
        7 => Ok(Record::Log {
            values: values_from(alloc, reader)?,
        }),
        8 => {
            let first = mark_from(reader)?;
            let held = mark_from(reader)?;
            let pairs = reader.u32()?;
            let clients = reader.u8()?;
            Ok(Record::Base {
                first,
                held,
                pairs,
                clients,
            })
        }
        9 => Ok(Record::Pairs {
            pairs: pairs_from(alloc, reader)?,
        }),
        10 => {
            let client = reader.u16()?;
            let floor = reader.u64()?;
            let notes = notes_from(alloc, reader)?;
            Ok(Record::Notes {
                client,
                floor,
                notes,
            })
        }
        11 => Ok(Record::Tail {
            values: values_from(alloc, reader)?,
        }),
        12 => Ok(Record::Ballot {
            round: round_from(reader)?,
        }),
        13 => Ok(Record::Stop {
            round: round_from(reader)?,
        }),
        14 => {
            let round = round_from(reader)?;
            let set = set_from(alloc, reader)?;
            Ok(Record::Next { round, set })
        }
        15 => {
            let set = set_from(alloc, reader)?;
            let watermark = round0_from(reader)?;
            let entries = joined_from(alloc, reader)?;
            Ok(Record::Boot {
                set,
                watermark,
                entries,
            })
        }
        16 => Ok(Record::Turn {
            turn: seq_from(reader)?,
        }),
        17 => {
            let round = round_from(reader)?;
            let top = mark_from(reader)?;
            let cw = mark_from(reader)?;
            let votes = votes_from(alloc, true, cw, reader)?;
            Ok(Record::Voted {
                round,
                top,
                cw,
                votes,
            })
        }
        18 => Ok(Record::Known {
            set: set_from(alloc, reader)?,
        }),
        _ => Err(ReadFault::Bad {
            left: reader.left(),
        }),
    }
}

#[tactic(auto, unfolding(crate::specs::RecordBytes::record_at_end, crate::specs::RecordBytes::with_tag))]
fn read(alloc: Global, bytes: &[u8]) -> Result<Record, WireFault>
    ensures { Decodes result (record_of_bytes bytes.now) }
{
    let mut reader = ByteReader::new(bytes);
    let tag = match reader.u8() {
        Ok(tag) => tag,
        Err(ReadFault::Bad { .. } | ReadFault::Cut { .. }) => {
            return Err(WireFault::Short { need: 1, have: 0 });
        }
        Err(ReadFault::NoMemory) => return Err(WireFault::NoMemory),
    };
    if !is_tag(tag) {
        return Err(WireFault::Kind(tag));
    }
    match fields_from(tag, alloc, &mut reader) {
        Ok(kept) => {
            let left = reader.left();
            if left > 0 {
                return Err(WireFault::Trailing {
                    at: bytes.len().saturating_sub(left),
                });
            }
            Ok(kept)
        }
        Err(ReadFault::Bad { left } | ReadFault::Cut { left, .. }) => {
            Err(WireFault::Field {
                kind: tag,
                at: bytes.len().saturating_sub(left),
            })
        }
        Err(ReadFault::NoMemory) => Err(WireFault::NoMemory),
    }
}

/// The record that the bytes spell, all of the bytes; or the first test that they fail, in this order: no byte (`Short`), the
/// tag, 1 to 18 (`Kind`), the fields in their order (`Field` at the first byte of the first bad one), and bytes after the
/// last field (`Trailing`). The format is this project's own; it has no version, and commands may tell their floors.
pub fn record_from(alloc: Global, bytes: &[u8]) -> Result<Record, WireFault>
    // What is read is spelled so, and has a spelling.
    ensures found { IfOk result (λ r. (bytes.now ≡ spelling r) × IsTrue (records.fits r)) }
    // What is spelled so is read, unless memory runs out.
    ensures only { (r : Kept) → IsTrue (records.fits r) → bytes.now ≡ spelling r
        → Decodes result (Ok r) }
    // Which fault it is.
    ensures exact { Decodes result (record_of_bytes bytes.now) }
    // Where it lies.
    ensures place { IfErr result (λ fault. LiesIn 1 bytes.now fault) }
{
    read(alloc, bytes)
}

fn put_vote(
    out: &mut Vec<u8>,
    round: &Round,
    slot: u64,
    cw: u64,
    value: &Value,
) -> Result<(), NoMemory>
    ensures { OnOk result (Appends records.vote (round.now, (slot, (cw, value.now))) 964
        out.old.items out.new.items) }
{
    put_round(out, round)?;
    put_slot(out, slot)?;
    put_mark(out, cw)?;
    put_value(out, value)
}

fn put_base(
    out: &mut Vec<u8>,
    first: u64,
    held: u64,
    pairs: u32,
    clients: u8,
) -> Result<(), NoMemory>
    ensures { OnOk result
        (Appends records.base (first, (held, (pairs, clients))) 21 out.old.items out.new.items) }
{
    put_mark(out, first)?;
    put_mark(out, held)?;
    put_u32(out, pairs)?;
    put_u8(out, clients)
}

fn put_client_notes(
    out: &mut Vec<u8>,
    client: u16,
    floor: u64,
    notes: &Notes,
) -> Result<(), NoMemory>
    ensures { OnOk result (Appends records.client_notes (client, (floor, notes.now)) 5259
        out.old.items out.new.items) }
{
    put_u16(out, client)?;
    put_u64(out, floor)?;
    put_notes(out, notes)
}

fn put_marked_votes(out: &mut Vec<u8>, cw: u64, votes: &Votes) -> Result<(), NoMemory>
    ensures { OnOk result (Appends (then_by field.mark field.votes) (cw, votes.now) 30601
        out.old.items out.new.items) }
{
    put_mark(out, cw)?;
    put_votes(out, cw, votes)
}

fn put_voted(
    out: &mut Vec<u8>,
    round: &Round,
    top: u64,
    cw: u64,
    votes: &Votes,
) -> Result<(), NoMemory>
    ensures { OnOk result (Appends records.voted (round.now, (top, (cw, votes.now))) 30619
        out.old.items out.new.items) }
{
    put_round(out, round)?;
    put_mark(out, top)?;
    put_marked_votes(out, cw, votes)
}

#[tactic(auto, unfolding(cx_letter::specs::Records::kept_record))]
fn put_record(out: &mut Vec<u8>, kept: &Record) -> Result<(), NoMemory>
    ensures { OnOk result (Appends records.kept_record kept.now 30620 out.old.items out.new.items) }
{
    match kept {
        Record::Promise { round } => {
            put_u8(out, 1)?;
            put_round(out, round)
        }
        Record::Vote {
            round,
            slot,
            cw,
            value,
        } => {
            put_u8(out, 2)?;
            put_vote(out, round, *slot, *cw, value)
        }
        Record::Water { round, mark } => {
            put_u8(out, 3)?;
            put_round(out, round)?;
            put_mark(out, *mark)
        }
        Record::Match { round, grid } => {
            put_u8(out, 4)?;
            put_round(out, round)?;
            put_grid(out, grid)
        }
        Record::Garbage { round, grid } => {
            put_u8(out, 5)?;
            put_round(out, round)?;
            put_grid(out, grid)
        }
        Record::Round { round, grid } => {
            put_u8(out, 6)?;
            put_round(out, round)?;
            put_grid(out, grid)
        }
        Record::Log { values } => {
            put_u8(out, 7)?;
            put_values(out, values)
        }
        Record::Base {
            first,
            held,
            pairs,
            clients,
        } => {
            put_u8(out, 8)?;
            put_base(out, *first, *held, *pairs, *clients)
        }
        Record::Pairs { pairs } => {
            put_u8(out, 9)?;
            put_pairs(out, pairs)
        }
        Record::Notes {
            client,
            floor,
            notes,
        } => {
            put_u8(out, 10)?;
            put_client_notes(out, *client, *floor, notes)
        }
        Record::Tail { values } => {
            put_u8(out, 11)?;
            put_values(out, values)
        }
        Record::Ballot { round } => {
            put_u8(out, 12)?;
            put_round(out, round)
        }
        Record::Stop { round } => {
            put_u8(out, 13)?;
            put_round(out, round)
        }
        Record::Next { round, set } => {
            put_u8(out, 14)?;
            put_round(out, round)?;
            put_set(out, set)
        }
        Record::Boot {
            set,
            watermark,
            entries,
        } => {
            put_u8(out, 15)?;
            put_boot(out, set, watermark, entries)
        }
        Record::Turn { turn } => {
            put_u8(out, 16)?;
            put_seq(out, *turn)
        }
        Record::Voted {
            round,
            top,
            cw,
            votes,
        } => {
            put_u8(out, 17)?;
            put_voted(out, round, *top, *cw, votes)
        }
        Record::Known { set } => {
            put_u8(out, 18)?;
            put_set(out, set)
        }
    }
}

/// Appends the bytes of a record, at most 30,620. Out of memory, it appends nothing.
#[tactic(auto, unfolding(cx_letter::specs::Records::kept_record))]
pub fn record_into(alloc: Global, kept: &Record, out: &mut Vec<u8>) -> Result<(), NoMemory>
    ensures bytes { OnOk result (out.new.items ≡ out.old.items ++ spelling kept.now) }
    ensures room { OnOk result (length (spelling kept.now) ≤ 30620) }
    ensures err { OnErr result (out.new.items ≡ out.old.items) }
{
    let mut whole = Vec::new(alloc);
    put_record(&mut whole, kept)?;
    out.extend_from_slice(&whole)?;
    Ok(())
}
