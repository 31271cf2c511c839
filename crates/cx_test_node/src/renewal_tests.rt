//! A replica's list, put anew at turn 4,096 of each run without a client, is what the next run goes on with.

ghost use Rattle.std.specs.Prelude.{◌≡◌, []};
ghost use Rattle.cx_edge.specs.MemDepot.{depot_out};

use crate::hosting::{ROLES, Stop, crashed, empty_depot, host, replica};
use cx_base::{Kind, Status};
use cx_disk::Unsynced;
use cx_edge::MemDepot;
use std::alloc::Global;
use std::test::Fail;

const PUT: &str = "write client:0 1 batcher:0 put a 1\n";

const PUT_ANSWER: &str = "answer client:0 1 at 1 ok\n";

const APPEND: &str = "write client:0 2 batcher:0 app a x\n";

const APPEND_ANSWER: &str = "answer client:0 2 at 2 len 2\n";

const LAST: &str = "write client:0 3 batcher:0 app a y\n";

const LAST_ANSWER: &str = "answer client:0 3 at 3 len 3\n";

const SESSION: &str = "session client:0 4 replica:0 a\n";

const SESSION_ANSWER: &str = "read client:0 4 at 3 is 1xy\n";

// How a run over these lines ends, and what it prints. One without lines has no client.
fn ended(alloc: Global, depot: &mut MemDepot, lines: &str) -> Result<(Status, Vec<u8>), Fail>
    requires { depot_out depot.old ≡ [] }
    ensures { depot_out depot.new ≡ [] }
{
    if lines.is_empty() {
        return host(alloc, depot, &ROLES[1..], 5000, lines);
    }
    host(alloc, depot, &ROLES, 1000, lines)
}

// Whether a run ends well and prints this. Else the replica's store fails, and nothing is printed.
fn is_done(alloc: Global, depot: &mut MemDepot, lines: &str, text: &str) -> Result<bool, Fail>
    requires { depot_out depot.old ≡ [] }
    ensures { depot_out depot.new ≡ [] }
{
    let (status, printed) = ended(alloc, depot, lines)?;
    match status {
        Status::Done if printed.as_slice() == text.as_bytes() => Ok(true),
        Status::StoreFault { role } if role.is(replica()) && printed.is_empty() => Ok(false),
        _ => Err("another end".into()),
    }
}

fn holds(depot: &MemDepot, side: u8, bytes: &[u8]) -> bool {
    match depot.store(replica(), side) {
        Some(disk) => disk.bytes() == bytes,
        None => false,
    }
}

// A list of two records, each with one value: the put, and the append.
const OLD: [u8; 49] = [
    1, 0, 0, 0, 19, 7, 1, 1, 1, 0, 0, 0, 0, 0, 0, 0, 0, 0, 1, 1, 1, b'a', 1, b'1', 1, 0, 0, 0, 19,
    7, 1, 1, 1, 0, 0, 0, 0, 0, 0, 0, 0, 0, 2, 3, 1, b'a', 1, b'x', 0,
];

// Generation 1 of a list that begins with slot 2: its counts, the pair of a and 1x, and what is noted for the client.
const NEW: [u8; 77] = [
    4, 1, 1, 0, 0, 0, 22, 8, 0, 0, 0, 0, 0, 0, 0, 2, 0, 0, 0, 0, 0, 0, 0, 2, 0, 0, 0, 1, 1, 1, 0,
    0, 0, 7, 9, 1, 1, b'a', 2, b'1', b'x', 1, 0, 0, 0, 30, 10, 0, 0, 0, 0, 0, 0, 0, 0, 0, 1, 1, 0,
    0, 0, 0, 0, 0, 0, 2, 0, 0, 0, 0, 0, 0, 0, 2, 3, 2, 0,
];

#[test]
fn a_node_goes_on_with_a_list_that_was_put_anew(rt: HostRuntime) -> Result<(), Fail> {
    let alloc = rt.alloc();
    let mut depot = empty_depot(alloc)?;
    assert!(rt; is_done(alloc, &mut depot, PUT, PUT_ANSWER)?);
    assert!(rt; is_done(alloc, &mut depot, APPEND, APPEND_ANSWER)?);
    assert!(rt; holds(&depot, 0, &OLD));
    assert!(rt; is_done(alloc, &mut depot, "", "")?);
    assert!(rt; holds(&depot, 0, &OLD));
    assert!(rt; holds(&depot, 1, &NEW));
    assert!(rt; is_done(alloc, &mut depot, LAST, LAST_ANSWER)?);
    assert!(rt; is_done(alloc, &mut depot, SESSION, SESSION_ANSWER)?);
    Ok(())
}

// The lines of a run and what is printed for them; and where the node stopped in it, what may then be printed at last.
struct Run {
    lines: &'static str,
    text: &'static str,
    ends: [&'static str; 2],
}

const RUNS: [Run; 4] = [
    Run {
        lines: PUT,
        text: PUT_ANSWER,
        ends: [" len 1\n", " len 2\n"],
    },
    Run {
        lines: "",
        text: "",
        ends: [" len 2\n", " len 2\n"],
    },
    Run {
        lines: APPEND,
        text: APPEND_ANSWER,
        ends: [" len 2\n", " len 3\n"],
    },
    Run {
        lines: "",
        text: "",
        ends: [" len 3\n", " len 3\n"],
    },
];

// Whether a node over these stores makes the last append, and what it prints ends so.
fn goes_on(alloc: Global, depot: &mut MemDepot, ends: [&'static str; 2]) -> Result<bool, Fail>
    requires { depot_out depot.old ≡ [] }
{
    let (status, printed) = ended(alloc, depot, LAST)?;
    let is_one = printed.ends_with(ends[0].as_bytes()) || printed.ends_with(ends[1].as_bytes());
    Ok(status.exit() == 0 && is_one)
}

const UNSYNCED: [Unsynced; 3] = [Unsynced::Kept, Unsynced::Lost, Unsynced::Filled];

// Whether a node goes on after each crash.
fn outlives(alloc: Global, depot: &MemDepot, ends: [&'static str; 2]) -> Result<bool, Fail> {
    for unsynced in UNSYNCED {
        let mut left = crashed(alloc, depot, unsynced, None)?;
        if !goes_on(alloc, &mut left, ends)? {
            return Ok(false);
        }
    }
    Ok(true)
}

// More calls than a disk has in a run.
const MOST: u64 = 64;

// Whether a node goes on wherever the replica's disk on this side stops in a run.
fn outlives_stops(alloc: Global, depot: &MemDepot, side: u8, run: &Run) -> Result<bool, Fail> {
    for call in 0..MOST {
        let stop = Stop {
            kind: Kind::Replica,
            side,
            calls: call,
        };
        let mut stopped = crashed(alloc, depot, Unsynced::Kept, Some(stop))?;
        if is_done(alloc, &mut stopped, run.lines, run.text)? {
            return Ok(call > 0);
        }
        if !outlives(alloc, &stopped, run.ends)? {
            return Ok(false);
        }
    }
    Ok(false)
}

#[test]
fn a_stop_of_a_disk_leaves_a_list(rt: HostRuntime) -> Result<(), Fail> {
    let alloc = rt.alloc();
    let mut depot = empty_depot(alloc)?;
    for run in &RUNS {
        assert!(rt; outlives_stops(alloc, &depot, 0, run)?);
        assert!(rt; outlives_stops(alloc, &depot, 1, run)?);
        assert!(rt; is_done(alloc, &mut depot, run.lines, run.text)?);
    }
    Ok(())
}
