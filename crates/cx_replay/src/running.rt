//! The lines after a header are run, one by one.

ghost use Rattle.std.specs.Prelude.{◌≡◌, ◌==◌, ℕ, Option, List, [], true, false};
ghost use Rattle.std.specs.List.{list_any};
ghost use Rattle.cx_base.specs.Faults.{Rises};
ghost use Rattle.cx_model.specs.World.{start};
ghost use Rattle.cx_replay.specs.Replay.{ComesOfReplay, Replayed};
ghost use Rattle.cx_replay.specs.Streamed.{ComesOfLines, RunsLine, RunsLines, StandsBehind, Sums, WritesFront};
ghost use Rattle.cx_world.specs.World.{world_of};

use crate::step::step_into;
use crate::summing::write_summary;
use cx_base::{Cluster, MAX_LINE_LENGTH, MAX_LINES, NoMemory, Status};
use cx_edge::{Lines, Next, Sink, Source, write_all};
use cx_script::{line, spelled_events_are_taken};
use cx_world::World;
use std::alloc::Global;

// What events print is written when it has reached this many bytes.
const GATHERED: usize = 4096;

/// How far lines were run.
#[derive(Clone, Copy)]
pub enum LinesEnd {
    /// To the end of the input.
    Whole,
    /// Up to what this status says; nothing is written after what was printed before.
    Stopped(Status),
    /// Up to a failed write.
    WriteFault,
}

// Runs the line with this number, and puts what it prints at the end of a text.
fn run_line(
    alloc: Global,
    cluster: &Cluster,
    number: u64,
    spelled: &[u8],
    world: &mut World,
    text: &mut Vec<u8>,
) -> Result<(), Status>
    requires fresh { world.old.spent ≡ false }
    ensures { RunsLine cluster.now number spelled.now world.old world.new text.old.items
        text.new.items result }
{
    spelled_events_are_taken();
    if number > MAX_LINES {
        return Err(Status::BadInput { line: number });
    }
    let Ok(event) = line(cluster, spelled) else {
        return Err(Status::BadInput { line: number });
    };
    let Some(event) = event else {
        return Ok(());
    };
    match step_into(alloc, world, &event, text) {
        Ok(()) => Ok(()),
        Err(NoMemory) => Err(Status::NoMemory),
    }
}

// Writes what was printed where it is enough, and all of it where the next line has to be read, so that who types lines
// sees what each of them prints before the next.
fn write_printed<W: Sink>(lines: &Lines, text: &mut Vec<u8>, out: &mut W) -> bool
    ensures front { WritesFront text.old.items text.new.items (W.taken out.old)
        (W.taken out.new) result }
    ensures none_left { result ≡ true → list_any (λ b. b == 10) lines.now.buffered ≡ false
        → text.new.items ≡ [] }
    ensures cause { result ≡ false → Rises (W.faults out.old) (W.faults out.new) }
    ensures still { result ≡ true → W.faults out.new ≡ W.faults out.old }
{
    if text.len() < GATHERED && lines.has_line() {
        return true;
    }
    if !write_all(out, text) {
        return false;
    }
    text.clear();
    true
}

// Writes the summary of the whole run.
fn sum<W: Sink>(alloc: Global, world: &World, out: &mut W) -> Status
    ensures { Sums (world_of world.now) (W.taken out.old) (W.taken out.new) (W.faults out.old)
        (W.faults out.new) result }
{
    match write_summary(alloc, world, out) {
        Ok(()) => Status::Done,
        Err(status) => status,
    }
}

/// Writes the summary of a run without events.
pub fn run_none<W: Sink>(alloc: Global, cluster: Cluster, out: &mut W) -> Status
    ensures { Sums (start cluster) (W.taken out.old) (W.taken out.new) (W.faults out.old)
        (W.faults out.new) result }
{
    match World::new(alloc, cluster) {
        Ok(world) => sum(alloc, &world, out),
        Err(NoMemory) => Status::NoMemory,
    }
}

// Reads the lines after a header, runs each of them as it comes, and writes what it prints but for the end, which the text
// holds.
fn run_each<S: Source, W: Sink>(
    alloc: Global,
    cluster: &Cluster,
    lines: &mut Lines,
    input: &mut S,
    world: &mut World,
    text: &mut Vec<u8>,
    out: &mut W,
) -> LinesEnd
    requires begun { world_of world.old ≡ start cluster.now }
    requires fresh { world.old.spent ≡ false }
    requires none { text.old.items ≡ [] }
    ensures comes { ComesOfLines result }
    ensures runs { (left : Option (List ℕ))
        → StandsBehind left (S.left input.old) lines.old.buffered cluster.now
        → RunsLines cluster.now left (S.left input.new) (S.faults input.old) (S.faults input.new)
        (W.taken out.old)
        (W.taken out.new) text.new.items (W.faults out.old) (W.faults out.new)
        (world_of world.new) result }
{
    let mut number = 0;
    loop {
        number += 1;
        match lines.next(input, MAX_LINE_LENGTH) {
            Next::Line => {
                let next = lines.text();
                if let Err(status) = run_line(alloc, cluster, number, next, world, text) {
                    return LinesEnd::Stopped(status);
                }
                if !write_printed(lines, text, out) {
                    return LinesEnd::WriteFault;
                }
            }
            Next::Last => {
                let last = lines.text();
                if let Err(status) = run_line(alloc, cluster, number, last, world, text) {
                    return LinesEnd::Stopped(status);
                }
                return LinesEnd::Whole;
            }
            Next::End => return LinesEnd::Whole,
            Next::Long => return LinesEnd::Stopped(Status::BadInput { line: number }),
            Next::Failed => return LinesEnd::Stopped(Status::ReadFault),
        }
    }
}

// Runs the lines after a header in a world without events, and writes what they print, and the summary at the end.
fn run_world<S: Source, W: Sink>(
    alloc: Global,
    cluster: &Cluster,
    lines: &mut Lines,
    input: &mut S,
    world: &mut World,
    out: &mut W,
) -> Status
    requires begun { world_of world.old ≡ start cluster.now }
    requires fresh { world.old.spent ≡ false }
    ensures comes { ComesOfReplay result }
    ensures replayed { (left : Option (List ℕ))
        → StandsBehind left (S.left input.old) lines.old.buffered cluster.now
        → Replayed left (S.left input.new) (S.faults input.old) (S.faults input.new)
        (W.taken out.old) (W.taken out.new) (W.faults out.old) (W.faults out.new) result }
{
    let mut text = Vec::new(alloc);
    match run_each(alloc, cluster, lines, input, world, &mut text, out) {
        LinesEnd::Whole => {
            if !write_all(out, &text) {
                return Status::WriteFault;
            }
            sum(alloc, world, out)
        }
        LinesEnd::Stopped(status) => {
            if !write_all(out, &text) {
                return Status::WriteFault;
            }
            status
        }
        LinesEnd::WriteFault => Status::WriteFault,
    }
}

/// Reads the lines after a header, runs each of them as it comes, and writes what they print, and the summary at the end.
pub fn run_lines<S: Source, W: Sink>(
    alloc: Global,
    cluster: Cluster,
    lines: &mut Lines,
    input: &mut S,
    out: &mut W,
) -> Status
    ensures comes { ComesOfReplay result }
    ensures replayed { (left : Option (List ℕ))
        → StandsBehind left (S.left input.old) lines.old.buffered cluster
        → Replayed left (S.left input.new) (S.faults input.old) (S.faults input.new)
        (W.taken out.old) (W.taken out.new) (W.faults out.old) (W.faults out.new) result }
{
    match World::new(alloc, cluster) {
        Ok(mut world) => run_world(alloc, &cluster, lines, input, &mut world, out),
        Err(NoMemory) => Status::NoMemory,
    }
}
