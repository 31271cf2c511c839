//! A node that is stopped within a batch of its reader asks under the next turn when it runs again.

ghost use Rattle.std.specs.Prelude.{◌≡◌, []};
ghost use Rattle.cx_edge.specs.MemDepot.{depot_out};

use crate::hosting::{ROLES, Stop, crashed, empty_depot, host, reader};
use cx_base::{Kind, Status};
use cx_disk::Unsynced;
use cx_edge::MemDepot;
use std::alloc::Global;
use std::test::Fail;

const PUT: &str = "write client:0 1 batcher:0 put a 1\n";

const PUT_ANSWER: &str = "answer client:0 1 at 1 ok\n";

const READ: &str = "read client:0 2 reader:0 replica:0 a\n";

const READ_ANSWER: &str = "read client:0 2 at 1 is 1\n";

// A journal of the first turn, and one of the first two: each record is the tag 16 and the turn.
const ONE: [u8; 15] = [1, 0, 0, 0, 9, 16, 0, 0, 0, 0, 0, 0, 0, 1, 0];

const TWO: [u8; 29] = [
    1, 0, 0, 0, 9, 16, 0, 0, 0, 0, 0, 0, 0, 1, 1, 0, 0, 0, 9, 16, 0, 0, 0, 0, 0, 0, 0, 2, 0,
];

// Whether a run over these lines ends well and prints this. Else the reader's store fails, and nothing is printed.
fn is_done(alloc: Global, depot: &mut MemDepot, lines: &str, text: &str) -> Result<bool, Fail>
    requires { depot_out depot.old ≡ [] }
    ensures { depot_out depot.new ≡ [] }
{
    let (status, printed) = host(alloc, depot, &ROLES, 1000, lines)?;
    match status {
        Status::Done if printed.as_slice() == text.as_bytes() => Ok(true),
        Status::StoreFault { role } if role.is(reader()) && printed.is_empty() => Ok(false),
        _ => Err("another end".into()),
    }
}

fn holds(depot: &MemDepot, bytes: &[u8]) -> bool {
    match depot.store(reader(), 0) {
        Some(disk) => disk.bytes() == bytes,
        None => false,
    }
}

// Whether the reader's journal has a turn: its first gate is open.
fn has_turn(depot: &MemDepot) -> bool {
    match depot.store(reader(), 0) {
        Some(disk) => disk.bytes().starts_with(&[1]),
        None => false,
    }
}

// Whether a node over these stores answers the read, and asked under the turn behind the one that was kept.
fn takes_next(alloc: Global, depot: &mut MemDepot) -> Result<bool, Fail>
    requires { depot_out depot.old ≡ [] }
{
    let was_kept = has_turn(depot);
    if !is_done(alloc, depot, READ, READ_ANSWER)? {
        return Ok(false);
    }
    Ok(if was_kept {
        holds(depot, &TWO)
    } else {
        holds(depot, &ONE)
    })
}

const UNSYNCED: [Unsynced; 3] = [Unsynced::Kept, Unsynced::Lost, Unsynced::Filled];

// Whether a node goes on after each crash.
fn outlives(alloc: Global, depot: &MemDepot) -> Result<bool, Fail> {
    for unsynced in UNSYNCED {
        let mut left = crashed(alloc, depot, unsynced, None)?;
        if !takes_next(alloc, &mut left)? {
            return Ok(false);
        }
    }
    Ok(true)
}

// More calls than the reader's disk has in a run.
const MOST: u64 = 64;

// Whether a node goes on wherever the reader's disk stops in a run, at one place with a turn that it kept and never asked under.
fn outlives_stops(alloc: Global, depot: &MemDepot) -> Result<bool, Fail> {
    let mut was_kept = false;
    for calls in 0..MOST {
        let stop = Stop {
            kind: Kind::Reader,
            side: 0,
            calls,
        };
        let mut stopped = crashed(alloc, depot, Unsynced::Kept, Some(stop))?;
        if is_done(alloc, &mut stopped, READ, READ_ANSWER)? {
            return Ok(was_kept);
        }
        was_kept = was_kept || has_turn(&stopped);
        if !outlives(alloc, &stopped)? {
            return Ok(false);
        }
    }
    Ok(false)
}

#[test]
fn a_turn_that_was_kept_is_used_up(rt: HostRuntime) -> Result<(), Fail> {
    let alloc = rt.alloc();
    let mut depot = empty_depot(alloc)?;
    assert!(rt; is_done(alloc, &mut depot, PUT, PUT_ANSWER)?);
    assert!(rt; outlives_stops(alloc, &depot)?);
    assert!(rt; is_done(alloc, &mut depot, READ, READ_ANSWER)?);
    assert!(rt; holds(&depot, &ONE));
    Ok(())
}
