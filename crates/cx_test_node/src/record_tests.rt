//! What a node records, and that its record is replayed.

ghost use Rattle.std.specs.Prelude.{◌≡◌, []};
ghost use Rattle.cx_edge.specs.MemDepot.{depot_out};

use crate::hosting::{
    HEADER, ROLES, depot_of_reader, empty_depot, host, host_over, reader, with_header,
};
use cx_base::{Kind, RoleId, Status};
use cx_edge::{Front, MemDepot, MemSink, MemSource};
use cx_replay::replay;
use std::alloc::Global;
use std::test::Fail;

const PUT: &str = "write client:0 1 batcher:0 put a 1\n";

const FIVE_TURNS: &str = "write client:0 1 batcher:0 put a 1
lead leader:0 1x1 0
deliver 0
deliver 1
deliver 2
deliver 3
deliver 4
";

const LATER_TURNS: &str = "write client:0 1 batcher:0 put a 1
tick batcher:0
tick leader:0
tick proxy:0
tick acceptor:0
tick match:0
tick replica:0
tick unbatcher:0
tick reader:0
deliver 5
deliver 6
deliver 7
deliver 8
deliver 9
deliver 10
deliver 11
deliver 12
deliver 13
deliver 14
deliver 15
";

// The Submit that the client sends, but for its last byte.
const NEVER_SENT: [u8; 27] = [
    67, 88, 1, 1, 1, 0, 0, 2, 0, 0, 0, 15, 0, 0, 0, 0, 0, 0, 0, 0, 0, 1, 1, 1, b'a', 1, b'2',
];

// How a node ends that records over these stores, and what it prints.
fn recorded(alloc: Global, depot: &mut MemDepot, turns: u32) -> Result<(Status, Vec<u8>), Fail>
    requires { depot_out depot.old ≡ [] }
    ensures { depot_out depot.new ≡ [] }
{
    let input = with_header(alloc, HEADER, PUT)?;
    host_over(alloc, depot, &ROLES, turns, true, input, &[])
}

// Whether a text is the header and these lines.
fn is_record(alloc: Global, text: &[u8], lines: &str) -> Result<bool, Fail> {
    let expected = with_header(alloc, HEADER, lines)?;
    Ok(text == expected.as_slice())
}

// Whether a node didn't begin since this role's store has a record.
fn is_used(status: Status, role: RoleId) -> bool {
    match status {
        Status::NotFresh { role: first } => first.is(role),
        _ => false,
    }
}

#[test]
fn each_step_has_its_line(rt: HostRuntime) -> Result<(), Fail> {
    let alloc = rt.alloc();
    let mut depot = empty_depot(alloc)?;
    let (status, text) = recorded(alloc, &mut depot, 5)?;
    assert!(rt; status.exit() == 8);
    assert!(rt; is_record(alloc, &text, FIVE_TURNS)?);
    Ok(())
}

#[test]
fn what_was_never_sent_is_dropped(rt: HostRuntime) -> Result<(), Fail> {
    let alloc = rt.alloc();
    let mut depot = empty_depot(alloc)?;
    let input = with_header(alloc, HEADER, PUT)?;
    let mut bytes = Vec::new(alloc);
    bytes.extend_from_slice(&NEVER_SENT)?;
    let fronts = [Front { before: 0, bytes }];
    let (status, text) = host_over(alloc, &mut depot, &ROLES, 6, true, input, &fronts)?;
    assert!(rt; status.exit() == 8);
    assert!(rt; is_record(alloc, &text, FIVE_TURNS)?);
    Ok(())
}

#[test]
fn a_record_is_replayed(rt: HostRuntime) -> Result<(), Fail> {
    let alloc = rt.alloc();
    let mut depot = empty_depot(alloc)?;
    let (status, text) = recorded(alloc, &mut depot, 1000)?;
    assert!(rt; status.exit() == 0);
    let mut lines = Vec::new(alloc);
    lines.extend_from_slice(FIVE_TURNS.as_bytes())?;
    lines.extend_from_slice(LATER_TURNS.as_bytes())?;
    assert!(rt; text.ends_with(&lines));
    let mut input = MemSource::new(text, Vec::new(alloc));
    let mut out = MemSink::new(alloc, 4096, Vec::new(alloc))?;
    let status = replay(alloc, &mut input, &mut out);
    assert!(rt; status.exit() == 0);
    let end =
        b"answer client:0 1 at 1 ok\n@27 deliver 15 client:0 heard\nchosen 1\n0 client:0 1 put a 1 acts\nreplica:0 held 1 a=1\n";
    assert!(rt; out.as_slice().ends_with(end));
    Ok(())
}

#[test]
fn a_record_begins_with_empty_stores_and_all_roles(rt: HostRuntime) -> Result<(), Fail> {
    let alloc = rt.alloc();
    let mut depot = empty_depot(alloc)?;
    let input = with_header(alloc, HEADER, "")?;
    let (status, text) = host_over(alloc, &mut depot, &ROLES[1..], 5, true, input, &[])?;
    assert!(rt; status.exit() == 2 && text.is_empty());
    let (status, _) = host(alloc, &mut depot, &ROLES, 1000, PUT)?;
    assert!(rt; status.exit() == 0);
    let (status, text) = recorded(alloc, &mut depot, 5)?;
    assert!(rt; is_used(status, RoleId::new(Kind::Leader, 0)) && text.is_empty());
    Ok(())
}

// The journal of a reader that has kept its first turn.
const FIRST_TURN: [u8; 15] = [1, 0, 0, 0, 9, 16, 0, 0, 0, 0, 0, 0, 0, 1, 0];

#[test]
fn a_readers_store_must_be_empty_too(rt: HostRuntime) -> Result<(), Fail> {
    let alloc = rt.alloc();
    let mut depot = depot_of_reader(alloc, &FIRST_TURN)?;
    let (status, text) = recorded(alloc, &mut depot, 5)?;
    assert!(rt; is_used(status, reader()) && text.is_empty());
    Ok(())
}
