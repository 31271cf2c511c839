//! The short summary of a run.

ghost use Rattle.std.specs.Prelude.{◌≡◌, ◌++◌, OnOk, decimal};
ghost use Rattle.cx_replay.specs.Generated.{count_line, counts_text, short_summary};
ghost use Rattle.cx_trace.specs.Summary.{replicas_text};
ghost use Rattle.cx_world.specs.World.{world_of};

use crate::step::folds;
use cx_base::NoMemory;
use cx_trace::{Folded, replica_into};
use cx_world::World;
use itoa::Buffer;
use std::alloc::Global;

fn put(text: &mut Vec<u8>, piece: &[u8]) -> Result<(), NoMemory>
    ensures { OnOk result (text.new.items ≡ text.old.items ++ piece.now) }
{
    text.extend_from_slice(piece)?;
    Ok(())
}

fn put_number(text: &mut Vec<u8>, number: u64) -> Result<(), NoMemory>
    ensures { OnOk result (text.new.items ≡ text.old.items ++ decimal number) }
{
    let mut buffer = Buffer::new();
    put(text, buffer.format(number).as_bytes())
}

#[tactic(auto, unfolding(crate::specs::Generated::count_line))]
fn put_count(text: &mut Vec<u8>, name: &[u8], count: u64) -> Result<(), NoMemory>
    ensures { OnOk result (text.new.items ≡ text.old.items ++ count_line name.now count) }
{
    put(text, name)?;
    put(text, b" ")?;
    put_number(text, count)?;
    put(text, b"\n")
}

#[tactic(auto, unfolding(crate::specs::Generated::counts_text))]
fn put_counts(text: &mut Vec<u8>, world: &World) -> Result<(), NoMemory>
    ensures { OnOk result (text.new.items ≡ text.old.items ++ counts_text (world_of world.now)) }
{
    let counts = world.counts();
    put_count(text, b"events", counts.events)?;
    put_count(text, b"datagrams", counts.datagrams)?;
    put_count(text, b"answers", counts.answers)?;
    put_count(text, b"reads", counts.reads)?;
    put_count(text, b"kept", counts.kept)
}

fn put_replicas(text: &mut Vec<u8>, replicas: &[Folded]) -> Result<(), NoMemory>
    ensures { OnOk result (text.new.items ≡ text.old.items ++ replicas_text 0 replicas.now) }
{
    for (place, folded) in replicas.iter().enumerate() {
        replica_into(place as u64, folded, text)?;
    }
    Ok(())
}

/// Puts the short summary at the end of a text: how much happened, how many values are chosen, and what each replica holds.
#[tactic(auto, unfolding(crate::specs::Generated::short_summary))]
pub fn short_summary_into(alloc: Global, world: &World, text: &mut Vec<u8>) -> Result<(), NoMemory>
    ensures { OnOk result (text.new.items ≡ text.old.items ++ short_summary (world_of world.now)) }
{
    let chosen = world.chosen_prefix()?;
    let folds = folds(alloc, world)?;
    put_counts(text, world)?;
    put_count(text, b"chosen", chosen.len())?;
    put_replicas(text, &folds)
}
