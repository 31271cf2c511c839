//! What a replica's kept values leave in the map.

ghost use Rattle.std.specs.Prelude.{◌≡◌, ◌+◌, ◌++◌, IfOk, OnOk, length};
ghost use Rattle.cx_base.specs.Fold.{command_list, map_behind};
ghost use Rattle.cx_model.specs.World.{values_in};
ghost use Rattle.cx_world.specs.Folded.{folded_of, values_by};

use cx_base::{Kind, NoMemory, RoleId, Value};
use cx_history::Kept;
use cx_kv::{ExecutedCommands, Store, apply_value};
use cx_letter::{KeptRecord, Record, Written};
use cx_trace::Folded;
use std::alloc::Global;

fn execute_all(
    before: &mut ExecutedCommands,
    store: &mut Store,
    values: &[Value],
) -> Result<(), NoMemory>
    ensures store { OnOk result
        (store.new ≡ map_behind before.old store.old (command_list values.now)) }
    ensures before { OnOk result (before.new ≡ before.old ++ command_list values.now) }
{
    for value in values {
        apply_value(before, store, value)?;
    }
    Ok(())
}

// One value more for each of a change.
fn execute_change(
    before: &mut ExecutedCommands,
    folded: &mut Folded,
    what: &Written,
) -> Result<(), NoMemory>
    ensures held { OnOk result (folded.new.held ≡ folded.old.held + length (values_in what.now)) }
    ensures store { OnOk result
        (folded.new.store ≡ map_behind before.old folded.old.store
        (command_list (values_in what.now))) }
    ensures before { OnOk result (before.new ≡ before.old ++ command_list (values_in what.now)) }
{
    if let Written::Record {
        what: Record::Log { values },
    } = what
    {
        let values = values.as_slice();
        let Some(held) = folded.held.checked_add(values.len() as u64) else {
            return Err(NoMemory);
        };
        folded.held = held;
        execute_all(before, &mut folded.store, values)?;
    }
    Ok(())
}

// The values of a change, if this role's store it is.
fn execute_kept(
    me: RoleId,
    before: &mut ExecutedCommands,
    folded: &mut Folded,
    one: &KeptRecord,
) -> Result<(), NoMemory>
    ensures held { OnOk result (folded.new.held ≡ folded.old.held + length (values_by me one.now)) }
    ensures store { OnOk result
        (folded.new.store ≡ map_behind before.old folded.old.store
        (command_list (values_by me one.now))) }
    ensures before { OnOk result (before.new ≡ before.old ++ command_list (values_by me one.now)) }
{
    if me.is(one.role) {
        execute_change(before, folded, &one.what)?;
    }
    Ok(())
}

/// How many values a replica kept, and the map that they leave. Each change is read by itself, and its values are executed. Want
/// of memory also where the count has more than eight bytes.
pub fn folded(alloc: Global, kept: &Kept, replica: u16) -> Result<Folded, NoMemory>
    ensures { IfOk result (λ folded. folded ≡ folded_of replica kept.now) }
{
    let me = RoleId::new(Kind::Replica, replica);
    let mut before = ExecutedCommands::new(alloc);
    let mut folded = Folded {
        held: 0,
        store: Store::new(alloc)?,
    };
    for number in 0..kept.len() {
        execute_kept(me, &mut before, &mut folded, &kept.at(number)?)?;
    }
    Ok(folded)
}
