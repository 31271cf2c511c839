//! The map that values leave.

ghost use Rattle.std.specs.Prelude.{◌≡◌, ◌++◌, OnOk};
ghost use Rattle.cx_base.specs.Fold.{commands_of, map_behind};

use crate::acting::ExecutedCommands;
use crate::store::Store;
use cx_base::{Command, NoMemory, Value};

// Commands after others: those that act are done to the map.
fn execute_all(
    before: &mut ExecutedCommands,
    store: &mut Store,
    commands: &[Command],
) -> Result<(), NoMemory>
    ensures store { OnOk result (store.new ≡ map_behind before.old store.old commands.now) }
    ensures before { OnOk result (before.new ≡ before.old ++ commands.now) }
{
    for command in commands {
        if before.acts(command) {
            store.apply(command)?;
        }
        before.push(command)?;
    }
    Ok(())
}

/// Does the commands of a value to the map, in order, but for those that don't act after all before them. Out of
/// memory, some of them may be done.
pub fn apply_value(
    before: &mut ExecutedCommands,
    store: &mut Store,
    value: &Value,
) -> Result<(), NoMemory>
    ensures store { OnOk result
        (store.new ≡ map_behind before.old store.old (commands_of value.now)) }
    ensures before { OnOk result (before.new ≡ before.old ++ commands_of value.now) }
{
    match value {
        Value::Noop => Ok(()),
        Value::Batch(commands) => execute_all(before, store, commands.as_slice()),
    }
}
