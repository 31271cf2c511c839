//! The lines of the values that are chosen.

ghost use Rattle.std.specs.Prelude.{◌≡◌, ◌++◌, length, take, OnErr, OnOk};
ghost use Rattle.cx_base.specs.Fold.{commands_of};
ghost use Rattle.cx_trace.specs.Summary.{acts_text, command_text, commands_text, op_text, slot_text};

use crate::pieces::{put, put_number, put_request, undo_part};
use cx_base::{Command, NoMemory, Op, Value};
use cx_kv::ExecutedCommands;

fn put_op(text: &mut Vec<u8>, op: &Op) -> Result<(), NoMemory>
    ensures ok { OnOk result (text.new.items ≡ text.old.items ++ op_text op.now) }
    ensures err { OnErr result (take (length text.old.items) text.new.items ≡ text.old.items) }
{
    match op {
        Op::Put(key, value) => {
            put(text, b"put ")?;
            put(text, key.as_bytes())?;
            put(text, b" ")?;
            put(text, value.as_bytes())
        }
        Op::Del(key) => {
            put(text, b"del ")?;
            put(text, key.as_bytes())
        }
        Op::App(key, more) => {
            put(text, b"app ")?;
            put(text, key.as_bytes())?;
            put(text, b" ")?;
            put(text, more.as_bytes())
        }
    }
}

// Whether a command acts after those before it, in a word.
#[tactic(auto, unfolding(crate::specs::Summary::acts_text))]
fn put_acts(
    text: &mut Vec<u8>,
    before: &ExecutedCommands,
    command: &Command,
) -> Result<(), NoMemory>
    ensures ok { OnOk result (text.new.items ≡ text.old.items ++ acts_text before.now command.now) }
    ensures err { OnErr result (take (length text.old.items) text.new.items ≡ text.old.items) }
{
    if before.acts(command) {
        put(text, b"acts")
    } else {
        put(text, b"past")
    }
}

#[tactic(auto, unfolding(crate::specs::Summary::command_text))]
fn put_command(
    text: &mut Vec<u8>,
    slot: u64,
    before: &ExecutedCommands,
    command: &Command,
) -> Result<(), NoMemory>
    ensures ok { OnOk result
        (text.new.items ≡ text.old.items ++ command_text slot before.now command.now) }
    ensures err { OnErr result (take (length text.old.items) text.new.items ≡ text.old.items) }
{
    put_number(text, slot)?;
    put(text, b" ")?;
    put_request(text, command.client, command.seq, command.floor)?;
    put(text, b" ")?;
    put_op(text, &command.op)?;
    put(text, b" ")?;
    put_acts(text, before, command)?;
    put(text, b"\n")
}

// The commands of a slot; those before it grow by them.
fn put_commands(
    text: &mut Vec<u8>,
    slot: u64,
    before: &mut ExecutedCommands,
    commands: &[Command],
) -> Result<(), NoMemory>
    ensures text { OnOk result
        (text.new.items ≡ text.old.items ++ commands_text slot before.old commands.now) }
    ensures before { OnOk result (before.new ≡ before.old ++ commands.now) }
    ensures err { OnErr result (take (length text.old.items) text.new.items ≡ text.old.items) }
{
    for command in commands {
        put_command(text, slot, before, command)?;
        before.push(command)?;
    }
    Ok(())
}

fn put_slot(
    text: &mut Vec<u8>,
    slot: u64,
    before: &mut ExecutedCommands,
    value: &Value,
) -> Result<(), NoMemory>
    ensures text { OnOk result
        (text.new.items ≡ text.old.items ++ slot_text slot before.old value.now) }
    ensures before { OnOk result (before.new ≡ before.old ++ commands_of value.now) }
    ensures err { OnErr result (take (length text.old.items) text.new.items ≡ text.old.items) }
{
    match value {
        Value::Noop => {
            put_number(text, slot)?;
            put(text, b" noop\n")
        }
        Value::Batch(commands) => put_commands(text, slot, before, commands.as_slice()),
    }
}

/// Appends the lines of a slot (this project's own format): its number, and `noop` or a command with `acts` or `past`, by the
/// commands that come before it. Those grow by the slot's. An `Err` appends nothing.
pub fn slot_into(
    slot: u64,
    before: &mut ExecutedCommands,
    value: &Value,
    out: &mut Vec<u8>,
) -> Result<(), NoMemory>
    ensures text { OnOk result
        (out.new.items ≡ out.old.items ++ slot_text slot before.old value.now) }
    ensures before { OnOk result (before.new ≡ before.old ++ commands_of value.now) }
    ensures err { OnErr result (out.new.items ≡ out.old.items) }
{
    let length = out.len();
    let done = put_slot(out, slot, before, value);
    undo_part(done, out, length)
}
