//! Generated events are run, and a short summary of their run is written.

ghost use Rattle.std.specs.Prelude.{◌≡◌, ◌++◌, IfOk, OnOk, false};
ghost use Rattle.cx_model.specs.World.{run};
ghost use Rattle.cx_replay.specs.Generated.{ComesOfGen, GenCompletes, Generated, gen_events, gen_text};
ghost use Rattle.cx_replay.specs.Lawful.{IsLawfulGenerated};
ghost use Rattle.cx_script.specs.Generator.{gen_cluster};
ghost use Rattle.cx_world.specs.World.{world_of};

use crate::short::short_summary_into;
use cx_base::{NoMemory, Status};
use cx_edge::{Sink, write_all};
use cx_script::{Gen, gen_cluster, generated_events_are_taken};
use cx_world::World;
use std::alloc::Global;

// Runs this many events of a seed.
fn run_events(alloc: Global, seed: u64, count: u64) -> Result<World, NoMemory>
    ensures world { IfOk result
        (λ world. world_of world ≡ run gen_cluster (gen_events seed count)) }
    ensures unspent { IfOk result (λ world. world.spent ≡ false) }
{
    generated_events_are_taken();
    let mut world = World::new(alloc, gen_cluster())?;
    let mut generator = Gen::new(seed);
    for made in 0..count {
        let sent = world.counts().datagrams;
        let event = generator.next(sent);
        world.step(&event)?;
    }
    Ok(world)
}

// Puts the text of that run at the end of a text.
fn gen_into(alloc: Global, seed: u64, count: u64, text: &mut Vec<u8>) -> Result<(), NoMemory>
    ensures { OnOk result (text.new.items ≡ text.old.items ++ gen_text seed count) }
{
    let world = run_events(alloc, seed, count)?;
    short_summary_into(alloc, &world, text)
}

/// Runs this many generated events of a seed over the generator's cluster, and writes the short summary of the run.
///
/// After a failed write a part of the text was written, and when out of memory nothing. Without a fault of the sink the
/// answer is `Done`, or that memory ran out. The run is lawful.
pub fn run_gen<W: Sink>(alloc: Global, seed: u64, count: u64, out: &mut W) -> Status
    ensures comes { ComesOfGen result }
    ensures generated { Generated seed count (W.taken out.old) (W.taken out.new) (W.faults out.old)
        (W.faults out.new) result }
    ensures complete { GenCompletes (W.faults out.old) (W.faults out.new) result }
    ensures lawful { IsLawfulGenerated seed count }
{
    let mut text = Vec::new(alloc);
    match gen_into(alloc, seed, count, &mut text) {
        Ok(()) => {}
        Err(NoMemory) => return Status::NoMemory,
    }
    if !write_all(out, &text) {
        return Status::WriteFault;
    }
    Status::Done
}
