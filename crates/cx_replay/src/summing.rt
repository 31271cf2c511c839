//! The summary of a run is written line by line, so that no more than one slot's or one replica's is in memory.

ghost use Rattle.std.specs.Prelude.{◌≡◌, ◌++◌, ℕ, List, [], map, slice_get, Some, IsOk, OnOk};
ghost use Rattle.cx_base.specs.Fold.{commands_of};
ghost use Rattle.cx_base.specs.Lists.{below};
ghost use Rattle.cx_base.specs.declared.command.Value.{Value};
ghost use Rattle.cx_replay.specs.Replay.{summary};
ghost use Rattle.cx_replay.specs.Streamed.{WritesText};
ghost use Rattle.cx_trace.specs.Summary.{replica_text, replicas_text, slot_text, slots_text};
ghost use Rattle.cx_world.specs.Folded.{folded_of};
ghost use Rattle.cx_world.specs.World.{world_of};

use cx_base::{NoMemory, Status};
use cx_choice::Chosen;
use cx_edge::{Sink, write_all};
use cx_kv::ExecutedCommands;
use cx_trace::{chosen_into, replica_into, slot_into};
use cx_world::World;
use std::alloc::Global;

// Writes the lines that were put into a text, where there was memory for them.
fn write_put<W: Sink>(put: Result<(), NoMemory>, text: &[u8], out: &mut W) -> Result<(), Status>
    ensures written { (lines : List ℕ) → OnOk put (text.now ≡ lines)
        → WritesText lines (W.taken out.old) (W.taken out.new) (W.faults out.old)
        (W.faults out.new) result }
    ensures put { OnOk result (IsOk put) }
{
    match put {
        Ok(()) => {}
        Err(NoMemory) => return Err(Status::NoMemory),
    }
    if !write_all(out, text) {
        return Err(Status::WriteFault);
    }
    Ok(())
}

// Puts the lines of a slot into the emptied text.
fn slot_lines(
    chosen: &Chosen<'_>,
    slot: u64,
    before: &mut ExecutedCommands,
    text: &mut Vec<u8>,
) -> Result<(), NoMemory>
    ensures text { (value : Value) → slice_get chosen.now slot ≡ Some value
        → OnOk result (text.new.items ≡ slot_text slot before.old value) }
    ensures before { (value : Value) → slice_get chosen.now slot ≡ Some value
        → OnOk result (before.new ≡ before.old ++ commands_of value) }
{
    text.clear();
    if let Some(value) = chosen.get(slot)? {
        slot_into(slot, before, &value, text)?;
    }
    Ok(())
}

// Writes the lines of the slots, in order.
fn write_slots<W: Sink>(
    alloc: Global,
    chosen: &Chosen<'_>,
    text: &mut Vec<u8>,
    out: &mut W,
) -> Result<(), Status>
    ensures { WritesText (slots_text 0 [] chosen.now) (W.taken out.old) (W.taken out.new)
        (W.faults out.old) (W.faults out.new) result }
{
    let mut before = ExecutedCommands::new(alloc);
    for slot in 0..chosen.len() {
        let put = slot_lines(chosen, slot, &mut before, text);
        if let Err(status) = write_put(put, text, out) {
            return Err(status);
        }
    }
    Ok(())
}

// Puts the line of a replica into the emptied text.
fn replica_line(world: &World, replica: u16, text: &mut Vec<u8>) -> Result<(), NoMemory>
    ensures { OnOk result
        (text.new.items ≡ replica_text replica (folded_of replica world.now.kept)) }
{
    text.clear();
    let folded = world.folded(replica)?;
    replica_into(u64::from(replica), &folded, text)?;
    Ok(())
}

// Writes the lines of the replicas, in order.
fn write_replicas<W: Sink>(world: &World, text: &mut Vec<u8>, out: &mut W) -> Result<(), Status>
    ensures { WritesText (replicas_text 0
        (map (λ p. folded_of p world.now.kept) (below world.now.cluster.replicas)))
        (W.taken out.old) (W.taken out.new) (W.faults out.old) (W.faults out.new) result }
{
    for replica in 0..world.cluster().replicas {
        let put = replica_line(world, replica, text);
        if let Err(status) = write_put(put, text, out) {
            return Err(status);
        }
    }
    Ok(())
}

/// Writes the summary of a run.
pub fn write_summary<W: Sink>(alloc: Global, world: &World, out: &mut W) -> Result<(), Status>
    ensures { WritesText (summary (world_of world.now)) (W.taken out.old) (W.taken out.new)
        (W.faults out.old) (W.faults out.new) result }
{
    let chosen = match world.chosen_prefix() {
        Ok(chosen) => chosen,
        Err(NoMemory) => return Err(Status::NoMemory),
    };
    let mut text = Vec::new(alloc);
    let put = chosen_into(chosen.len(), &mut text);
    if let Err(status) = write_put(put, &text, out) {
        return Err(status);
    }
    if let Err(status) = write_slots(alloc, &chosen, &mut text, out) {
        return Err(status);
    }
    write_replicas(world, &mut text, out)
}
