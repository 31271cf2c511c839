//! Room for the answers of clients, which is taken before values are executed.

ghost use Rattle.std.specs.Prelude.{◌≡◌, ◌*◌, ◌^◌, ◌≤◌, ◌++◌, length, OnOk};
ghost use Rattle.cx_base.specs.Fold.{command_list, commands_of};
ghost use Rattle.cx_replica.specs.Room.{IsRoomFor, command_count_of};

use cx_base::{Command, NoMemory, Value};
use cx_table::Table;

/// The commands of a value: a no-op has none.
fn commands_of(value: &Value) -> &[Command]
    ensures commands { result.now ≡ commands_of value.now }
    ensures few { length result.now ≤ 8 }
{
    match value {
        Value::Noop => &[],
        Value::Batch(commands) => commands.as_slice(),
    }
}

/// How many of these commands are a client's.
fn command_count_of(client: u16, commands: &[Command]) -> usize
    ensures count { result ≡ command_count_of client commands.now }
    ensures bound { result ≤ length commands.now }
{
    let mut count = 0;
    for command in commands {
        if command.client == client {
            count += 1;
        }
    }
    count
}

/// How many commands of values are a client's.
fn count_in(client: u16, values: &[Value]) -> usize
    requires { length values.now ≤ 2 ^ 40 }
    ensures count { result ≡ command_count_of client (command_list values.now) }
    ensures bound { result ≤ 8 * length values.now }
{
    let mut count = 0;
    for value in values {
        count += command_count_of(client, commands_of(value));
    }
    count
}

/// Makes room for the answers of commands, beside those of earlier values.
fn make_room_beside(
    table: &mut Table,
    earlier: &[Value],
    commands: &[Command],
) -> Result<(), NoMemory>
    requires values { length earlier.now ≤ 2 ^ 40 }
    requires commands { length commands.now ≤ 8 }
    requires room { IsRoomFor table.old.rooms (command_list earlier.now) }
    ensures table { table.new.table ≡ table.old.table }
    ensures room { OnOk result
        (IsRoomFor table.new.rooms (command_list earlier.now ++ commands.now)) }
{
    for (index, command) in commands.iter().enumerate() {
        let client = command.client;
        // The client's commands before this one need their room too.
        let before = count_in(client, earlier) + command_count_of(client, &commands[..index]);
        table.make_room(client, before + 1)?;
    }
    Ok(())
}

/// Makes room for the answers of all commands of values. Out of memory, the table stays as it is.
pub fn make_room(table: &mut Table, values: &[Value]) -> Result<(), NoMemory>
    requires { length values.now ≤ 2 ^ 40 }
    ensures table { table.new.table ≡ table.old.table }
    ensures room { OnOk result (IsRoomFor table.new.rooms (command_list values.now)) }
    ensures few { OnOk result (length (command_list values.now) ≤ 8 * length values.now) }
{
    for (index, value) in values.iter().enumerate() {
        make_room_beside(table, &values[..index], commands_of(value))?;
    }
    Ok(())
}
