//! Which messages tell floors: they are spelled in the second version of the format.

ghost use Rattle.std.specs.Prelude.{◌≡◌};
ghost use Rattle.std.specs.List.{list_any};
ghost use Rattle.cx_field.specs.Fields.{tells_floor, value_tells};
ghost use Rattle.cx_field.specs.declared.parts.Vote.{Vote as VoteModel};
ghost use Rattle.cx_letter.specs.Messages.{tells_floors, version_of};

use cx_base::{Command, Value};
use cx_field::Vote;
use cx_letter::Msg;

// Whether a command tells its floor: it isn't the number just below the command's.
fn tells_floor(command: &Command) -> bool
    ensures { result ≡ tells_floor command.now }
{
    command.seq == 0 || command.floor != command.seq - 1
}

// Whether one of the commands tells its floor.
fn commands_tell(commands: &[Command]) -> bool
    ensures { result ≡ list_any tells_floor commands.now }
{
    commands.iter().any(|command| tells_floor(command))
}

// Whether one of a value's commands tells its floor.
fn value_tells(value: &Value) -> bool
    ensures { result ≡ value_tells value.now }
{
    match value {
        Value::Noop => false,
        Value::Batch(commands) => commands_tell(commands.as_slice()),
    }
}

// Whether a command of one of the votes tells its floor.
fn votes_tell(votes: &[Vote]) -> bool
    ensures { result ≡ list_any (λ (v : VoteModel). value_tells v.value) votes.now }
{
    votes.iter().any(|vote| value_tells(&vote.value))
}

/// Whether a message has a command that tells its floor, as each does whose floor isn't the number just below its own.
pub fn tells_floors(msg: &Msg) -> bool
    ensures { result ≡ tells_floors msg.now }
{
    match msg {
        Msg::Submit { command } => tells_floor(command),
        Msg::Batch { commands } => commands_tell(commands.as_slice()),
        Msg::Phase1B { votes, .. } => votes_tell(votes.as_slice()),
        Msg::Propose { value, .. } | Msg::Phase2A { value, .. } | Msg::Chosen { value, .. } => {
            value_tells(value)
        }
        _ => false,
    }
}

/// The version of the format that a message is spelled in.
pub fn version_of(msg: &Msg) -> u8
    ensures { result ≡ version_of msg.now }
{
    if tells_floors(msg) { 2 } else { 1 }
}
