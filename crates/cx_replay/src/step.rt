//! One event with its text, and what replicas hold at the end.

ghost use Rattle.std.specs.Prelude.{◌≡◌, ◌++◌, false, OnErr, OnOk, IfOk, IsTrue, length, map, take};
ghost use Rattle.cx_base.specs.Asked.{is_valid_event};
ghost use Rattle.cx_base.specs.Lists.{below};
ghost use Rattle.cx_model.specs.World.{step};
ghost use Rattle.cx_replay.specs.Replay.{step_text};
ghost use Rattle.cx_world.specs.Folded.{folded_of};
ghost use Rattle.cx_world.specs.World.{world_of};

use crate::sending::lines_into;
use cx_base::{Event, NoMemory};
use cx_trace::{Folded, event_into};
use cx_world::World;
use std::alloc::Global;

// An `Err` may append a part.
#[tactic(auto, unfolding(crate::specs::Replay::step_text, cx_model::specs::World::step))]
fn put_step(
    alloc: Global,
    world: &mut World,
    event: &Event,
    text: &mut Vec<u8>,
) -> Result<(), NoMemory>
    requires fresh { world.old.spent ≡ false }
    requires taken { IsTrue (is_valid_event event.now) }
    ensures world { OnOk result (world_of world.new ≡ step (world_of world.old) event.now) }
    ensures unspent { OnOk result (world.new.spent ≡ false) }
    ensures text { OnOk result
        (text.new.items ≡ text.old.items ++ step_text (world_of world.old) event.now) }
    ensures err { OnErr result (take (length text.old.items) text.new.items ≡ text.old.items) }
{
    let effect = world.step(event)?;
    event_into(event, &effect, text)?;
    lines_into(alloc, world.sent(), effect.first, text)
}

/// Makes the step of an event, and puts its lines at the end of a text. An `Err` appends nothing.
pub fn step_into(
    alloc: Global,
    world: &mut World,
    event: &Event,
    text: &mut Vec<u8>,
) -> Result<(), NoMemory>
    requires fresh { world.old.spent ≡ false }
    requires taken { IsTrue (is_valid_event event.now) }
    ensures world { OnOk result (world_of world.new ≡ step (world_of world.old) event.now) }
    ensures unspent { OnOk result (world.new.spent ≡ false) }
    ensures text { OnOk result
        (text.new.items ≡ text.old.items ++ step_text (world_of world.old) event.now) }
    ensures err { OnErr result (text.new.items ≡ text.old.items) }
{
    let length = text.len();
    match put_step(alloc, world, event, text) {
        Ok(()) => Ok(()),
        Err(NoMemory) => {
            text.truncate(length);
            Err(NoMemory)
        }
    }
}

/// What each replica's kept values leave, the replicas in order.
#[tactic(auto, using(crate::proofs::Numbers::numbers_more))]
pub fn folds(alloc: Global, world: &World) -> Result<Vec<Folded>, NoMemory>
    ensures { IfOk result (λ folds. folds.items ≡ map (λ p. folded_of p world.now.kept)
        (below world.now.cluster.replicas)) }
{
    let mut folds = Vec::new(alloc);
    for replica in 0..world.cluster().replicas {
        folds.push(world.folded(replica)?)?;
    }
    Ok(folds)
}
