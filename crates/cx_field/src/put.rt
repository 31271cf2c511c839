//! The fields of messages and records, appended to bytes. Out of memory, it may leave a part appended.

ghost use Rattle.std.specs.Prelude.{◌≡◌, ◌≤◌, ◌+◌, ◌*◌, ◌++◌, ℕ, true, [], length, OnOk};
ghost use Rattle.cx_wire.specs.Format as wire;
ghost use Rattle.cx_field.specs.Fields as field;
ghost use Rattle.cx_field.specs.Fields.{told_floor};
ghost use Rattle.cx_wire.specs.Format.{Appends, ◌▷◌};

use crate::items::put_items;
use crate::lists::{
    AnsweredItems, CommandItems, EntryItems, MemberItems, NoteItems, PairItems, SetItems,
    ValueItems, VoteItems,
};
use crate::parts::{Answers, Asking, Entries, LogValues, NackReason, Notes, Pairs, Token, Votes};
use cx_base::{Command, Commands, Grid, Key, Name, NoMemory, Op, Reply, Round, Set, Text, Value};
use cx_wire::{put_u8, put_u16, put_u32, put_u64};

/// Appends a slot, eight bytes.
#[tactic(auto, unfolding(crate::specs::Fields::slot))]
pub fn put_slot(out: &mut Vec<u8>, slot: u64) -> Result<(), NoMemory>
    ensures { OnOk result (Appends field.slot slot 8 out.old.items out.new.items) }
{
    put_u64(out, slot)
}

/// Appends a watermark, eight bytes.
#[tactic(auto, unfolding(crate::specs::Fields::mark))]
pub fn put_mark(out: &mut Vec<u8>, mark: u64) -> Result<(), NoMemory>
    ensures { OnOk result (Appends field.mark mark 8 out.old.items out.new.items) }
{
    put_u64(out, mark)
}

/// Appends one more than a slot, eight bytes.
#[tactic(auto, unfolding(crate::specs::Fields::at))]
pub fn put_at(out: &mut Vec<u8>, at: u64) -> Result<(), NoMemory>
    ensures { OnOk result (Appends field.at at 8 out.old.items out.new.items) }
{
    put_u64(out, at)
}

/// Appends a client's number of a request, or a reader's turn, eight bytes.
#[tactic(auto, unfolding(crate::specs::Fields::seq))]
pub fn put_seq(out: &mut Vec<u8>, seq: u64) -> Result<(), NoMemory>
    ensures { OnOk result (Appends field.seq seq 8 out.old.items out.new.items) }
{
    put_u64(out, seq)
}

/// Appends a round, or none, ten bytes: both have the same bytes.
#[tactic(auto, unfolding(crate::specs::Fields::round, crate::specs::Fields::round0))]
pub fn put_round(out: &mut Vec<u8>, round: &Round) -> Result<(), NoMemory>
    ensures real { OnOk result (Appends field.round round.now 10 out.old.items out.new.items) }
    ensures any { OnOk result (Appends field.round0 round.now 10 out.old.items out.new.items) }
{
    put_u32(out, round.r)?;
    put_u16(out, round.id)?;
    put_u32(out, round.s)
}

/// Appends a grid, at most 34 bytes.
#[tactic(auto, unfolding(crate::specs::Fields::grid))]
pub fn put_grid(out: &mut Vec<u8>, grid: &Grid) -> Result<(), NoMemory>
    ensures { OnOk result (Appends field.grid grid.now 34 out.old.items out.new.items) }
{
    put_u8(out, grid.rows())?;
    put_u8(out, grid.cols())?;
    put_items(&MemberItems, grid.members(), out)
}

// The bytes of a name.
fn put_name_bytes(out: &mut Vec<u8>, bytes: &[u8]) -> Result<(), NoMemory>
    ensures bytes { OnOk result
        (out.new.items ≡ out.old.items ++ wire.each_spell (λ _. field.name_byte) [] bytes.now) }
    ensures room { OnOk result (length out.new.items ≤ length out.old.items + length bytes.now) }
{
    out.extend_from_slice(bytes)?;
    Ok(())
}

/// Appends a key or a text, a byte more than it has at most.
#[tactic(auto, unfolding(crate::specs::Fields::name))]
pub fn put_name<const N: usize>(out: &mut Vec<u8>, name: &Name<N>) -> Result<(), NoMemory>
    requires { N ≤ 255 }
    ensures { OnOk result (Appends (field.name N) name.now (1 + N) out.old.items out.new.items) }
{
    let bytes = name.as_bytes();
    put_u8(out, bytes.len() as u8)?;
    put_name_bytes(out, bytes)
}

// The floor that is told with a number: none where it is the one just below.
fn told_floor(number: u64, floor: u64) -> Option<u64>
    ensures { result ≡ told_floor number floor }
{
    if number.checked_sub(floor) == Some(1) {
        return None;
    }
    Some(floor)
}

fn put_key_text(out: &mut Vec<u8>, key: &Key, text: &Text) -> Result<(), NoMemory>
    ensures { OnOk result (Appends (field.name 32 ▷ field.name 64) (key.now, text.now) 98
        out.old.items out.new.items) }
{
    put_name(out, key)?;
    put_name(out, text)
}

// Appends an operation, with the floor that is told before its key, if one is. The bytes are the same with each number.
#[tactic(auto, unfolding(crate::specs::Fields::told_op, crate::specs::Fields::floor_below))]
fn put_told_op(out: &mut Vec<u8>, told: Option<u64>, op: &Op) -> Result<(), NoMemory>
    ensures { OnOk result ((number : ℕ)
        → Appends (field.told_op true number) (told, op.now) 107 out.old.items out.new.items) }
{
    match told {
        None => match op {
            Op::Put(key, text) => {
                put_u8(out, 1)?;
                put_key_text(out, key, text)
            }
            Op::Del(key) => {
                put_u8(out, 2)?;
                put_name(out, key)
            }
            Op::App(key, text) => {
                put_u8(out, 3)?;
                put_key_text(out, key, text)
            }
        },
        Some(floor) => match op {
            Op::Put(key, text) => {
                put_u8(out, 4)?;
                put_u64(out, floor)?;
                put_key_text(out, key, text)
            }
            Op::Del(key) => {
                put_u8(out, 5)?;
                put_u64(out, floor)?;
                put_name(out, key)
            }
            Op::App(key, text) => {
                put_u8(out, 6)?;
                put_u64(out, floor)?;
                put_key_text(out, key, text)
            }
        },
    }
}

/// Appends a command, at most 117 bytes. Its floor is told exactly where it isn't the number just below the command's.
#[tactic(auto, unfolding(crate::specs::Fields::command, crate::specs::Fields::command_with))]
pub fn put_command(out: &mut Vec<u8>, command: &Command) -> Result<(), NoMemory>
    ensures { OnOk result (Appends field.command command.now 117 out.old.items out.new.items) }
{
    let told = told_floor(command.seq, command.floor);
    put_u16(out, command.client)?;
    put_seq(out, command.seq)?;
    put_told_op(out, told, &command.op)
}

/// Appends commands, at most 937 bytes.
#[tactic(auto, unfolding(crate::specs::Fields::commands, crate::specs::Fields::commands_with))]
pub fn put_commands(out: &mut Vec<u8>, commands: &Commands) -> Result<(), NoMemory>
    ensures { OnOk result (Appends field.commands commands.now 937 out.old.items out.new.items) }
{
    let list = commands.as_slice();
    put_u8(out, list.len() as u8)?;
    put_items(&CommandItems { floors: true }, list, out)
}

/// Appends a value, at most 938 bytes.
#[tactic(auto, unfolding(crate::specs::Fields::value, crate::specs::Fields::value_with, crate::specs::Fields::commands))]
pub fn put_value(out: &mut Vec<u8>, value: &Value) -> Result<(), NoMemory>
    ensures { OnOk result (Appends field.value value.now 938 out.old.items out.new.items) }
{
    match value {
        Value::Noop => put_u8(out, 0),
        Value::Batch(commands) => {
            put_u8(out, 1)?;
            put_commands(out, commands)
        }
    }
}

/// Appends a reply, at most 66 bytes.
#[tactic(auto, unfolding(crate::specs::Fields::reply, crate::specs::Fields::reply_len))]
pub fn put_reply(out: &mut Vec<u8>, reply: &Reply) -> Result<(), NoMemory>
    ensures { OnOk result (Appends field.reply reply.now 66 out.old.items out.new.items) }
{
    match reply {
        Reply::Okay => put_u8(out, 0),
        Reply::Was(text) => {
            put_u8(out, 1)?;
            put_name(out, text)
        }
        Reply::Absent => put_u8(out, 2),
        Reply::Len(len) => {
            put_u8(out, 3)?;
            put_u8(out, *len)
        }
        Reply::Full => put_u8(out, 4),
    }
}

/// Appends entries of a matchmaker, at most 11,221 bytes; those with which it begins have the same bytes.
#[tactic(auto, unfolding(crate::specs::Fields::entries, crate::specs::Fields::joined))]
pub fn put_entries(out: &mut Vec<u8>, entries: &Entries) -> Result<(), NoMemory>
    ensures any { OnOk result
        (Appends field.entries entries.now 11221 out.old.items out.new.items) }
    ensures joined { OnOk result
        (Appends field.joined entries.now 11221 out.old.items out.new.items) }
{
    let list = entries.as_slice();
    put_u8(out, list.len() as u8)?;
    put_items(&EntryItems, list, out)
}

/// Appends a set of matchmakers, at most 15 bytes; one that was accepted in a round has the same bytes.
#[tactic(auto, unfolding(crate::specs::Fields::set, crate::specs::Fields::accepted_set))]
pub fn put_set(out: &mut Vec<u8>, set: &Set) -> Result<(), NoMemory>
    ensures any { OnOk result (Appends field.set set.now 15 out.old.items out.new.items) }
    ensures accepted { OnOk result ((accepted : Round)
        → Appends (field.accepted_set accepted) set.now 15 out.old.items out.new.items) }
{
    let ids = set.ids();
    put_u8(out, ids.len() as u8)?;
    put_items(&SetItems, ids, out)
}

/// Appends votes of an acceptor, at most 30,593 bytes.
#[tactic(auto, unfolding(crate::specs::Fields::votes, crate::specs::Fields::votes_with))]
pub fn put_votes(out: &mut Vec<u8>, cw: u64, votes: &Votes) -> Result<(), NoMemory>
    ensures { OnOk result (Appends (field.votes cw) votes.now 30593 out.old.items out.new.items) }
{
    let list = votes.as_slice();
    put_u8(out, list.len() as u8)?;
    put_items(&VoteItems { floors: true, cw }, list, out)
}

/// Appends answers, at most 673 bytes.
#[tactic(auto, unfolding(crate::specs::Fields::answers))]
pub fn put_answers(out: &mut Vec<u8>, answers: &Answers) -> Result<(), NoMemory>
    ensures { OnOk result (Appends field.answers answers.now 673 out.old.items out.new.items) }
{
    let list = answers.as_slice();
    put_u8(out, list.len() as u8)?;
    put_items(&AnsweredItems, list, out)
}

/// Appends what a read found, at most 66 bytes.
#[tactic(auto, unfolding(crate::specs::Fields::found))]
pub fn put_found(out: &mut Vec<u8>, found: &Option<Text>) -> Result<(), NoMemory>
    ensures { OnOk result (Appends field.found found.now 66 out.old.items out.new.items) }
{
    match found {
        None => put_u8(out, 0),
        Some(text) => {
            put_u8(out, 1)?;
            put_name(out, text)
        }
    }
}

/// Appends why a matchmaker refuses a round, one byte.
#[tactic(auto, unfolding(crate::specs::Fields::reason))]
pub fn put_reason(out: &mut Vec<u8>, reason: NackReason) -> Result<(), NoMemory>
    ensures { OnOk result (Appends field.reason reason 1 out.old.items out.new.items) }
{
    match reason {
        NackReason::Collected => put_u8(out, 0),
        NackReason::Later => put_u8(out, 1),
        NackReason::Full => put_u8(out, 2),
    }
}

/// Appends a client's read, ten bytes.
#[tactic(auto, unfolding(crate::specs::Fields::token))]
pub fn put_token(out: &mut Vec<u8>, token: &Token) -> Result<(), NoMemory>
    ensures { OnOk result (Appends field.token token.now 10 out.old.items out.new.items) }
{
    put_u16(out, token.client)?;
    put_seq(out, token.seq)
}

/// Appends an asking of a reader, ten bytes.
#[tactic(auto, unfolding(crate::specs::Fields::asking))]
pub fn put_asking(out: &mut Vec<u8>, asking: &Asking) -> Result<(), NoMemory>
    ensures { OnOk result (Appends field.asking asking.now 10 out.old.items out.new.items) }
{
    put_u16(out, asking.reader)?;
    put_seq(out, asking.turn)
}

/// Appends values, at most 30,017 bytes.
#[tactic(auto, unfolding(crate::specs::Fields::values))]
pub fn put_values(out: &mut Vec<u8>, values: &LogValues) -> Result<(), NoMemory>
    ensures { OnOk result (Appends field.values values.now 30017 out.old.items out.new.items) }
{
    let list = values.as_slice();
    put_u8(out, list.len() as u8)?;
    put_items(&ValueItems, list, out)
}

/// Appends pairs of a map, at most 24,991 bytes.
#[tactic(auto, unfolding(crate::specs::Fields::pairs))]
pub fn put_pairs(out: &mut Vec<u8>, pairs: &Pairs) -> Result<(), NoMemory>
    ensures { OnOk result (Appends field.pairs pairs.now 24991 out.old.items out.new.items) }
{
    let list = pairs.as_slice();
    put_u8(out, list.len() as u8)?;
    put_items(&PairItems, list, out)
}

/// Appends notes of a client, at most 5,249 bytes.
#[tactic(auto, unfolding(crate::specs::Fields::notes))]
pub fn put_notes(out: &mut Vec<u8>, notes: &Notes) -> Result<(), NoMemory>
    ensures { OnOk result (Appends field.notes notes.now 5249 out.old.items out.new.items) }
{
    let list = notes.as_slice();
    put_u8(out, list.len() as u8)?;
    put_items(&NoteItems, list, out)
}
