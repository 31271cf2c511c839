//! A depot in memory: openings that fail, both stores of a role, and what a store keeps. Of files what no stored run of a node does.

ghost use Rattle.std.specs.Prelude.{◌≡◌, true};
ghost use Rattle.cx_base.specs.Faults.{Rises};
ghost use Rattle.cx_edge.specs.MemDepot.{depot_faults, depot_out};

use cx_base::{Kind, RoleId};
use cx_disk::{Disk, DiskRoom, MemDisk};
use cx_edge::{Depot, FileDepot, MemDepot, Shelf};
use std::alloc::Global;
use std::fs;
use std::test::Fail;

const ROOM: DiskRoom = DiskRoom {
    bytes: 2,
    calls: 8,
    written: 8,
};

fn acceptor() -> RoleId {
    RoleId::new(Kind::Acceptor, 65535)
}

fn replica() -> RoleId {
    RoleId::new(Kind::Replica, 65535)
}

// A disk of one byte, whose second call fails.
fn disk(alloc: Global) -> Result<MemDisk, Fail> {
    Ok(MemDisk::new(alloc, &[7], ROOM, vec![in alloc; 1]?, None)?)
}

// The acceptor's disk, and both of the replica's. The first opening fails.
fn depot(alloc: Global) -> Result<MemDepot, Fail> {
    let stores = vec![in alloc;
        (Shelf::new(acceptor(), 0), disk(alloc)?),
        (Shelf::new(replica(), 0), disk(alloc)?),
        (Shelf::new(replica(), 1), disk(alloc)?),
    ]?;
    Ok(MemDepot::new(alloc, stores, 2, vec![in alloc; 0]?)?)
}

fn writes(store: &mut impl Disk, at: u64, byte: u8) -> bool {
    at <= store.len() && store.write_at(at, &[byte]).is_ok()
}

// Whether the opening fails. The role's count rises then, which is one for all sides.
fn is_refused(depot: &mut MemDepot, role: RoleId, side: u8) -> bool
    ensures { result ≡ true → Rises (depot_faults depot.old role) (depot_faults depot.new role) }
{
    depot.open(role, side).is_err()
}

// Whether the store can be opened, is out then, and fails at its first write and not at the second. It is given back.
#[tactic(auto, using(cx_edge::proofs::ShelfLaws::out_last, cx_edge::proofs::ShelfLaws::without_last))]
fn writes_at_the_second_try(depot: &mut MemDepot, role: RoleId, side: u8) -> bool
    ensures { depot_out depot.new ≡ depot_out depot.old }
{
    let Ok(mut store) = depot.open(role, side) else {
        return false;
    };
    let is_out = depot.store(role, side).is_none();
    let first = writes(&mut store, 1, 8);
    let second = writes(&mut store, 1, 8);
    depot.close(role, side, store);
    is_out && !first && second
}

// Whether the second store can be lent, written and given back while the first one is out.
#[tactic(auto, using(cx_edge::proofs::ShelfLaws::out_last))]
fn lends_both(depot: &mut MemDepot, role: RoleId) -> bool {
    let Ok(first) = depot.open(role, 0) else {
        return false;
    };
    let second = writes_at_the_second_try(depot, role, 1);
    let is_out = depot.store(role, 0).is_none();
    depot.close(role, 0, first);
    second && is_out
}

fn holds(depot: &MemDepot, role: RoleId, side: u8, bytes: &[u8]) -> bool {
    match depot.store(role, side) {
        Some(disk) => disk.bytes() == bytes,
        None => false,
    }
}

#[test]
fn a_depot_in_memory_fails_where_it_is_told_to(rt: HostRuntime) -> Result<(), Fail> {
    let mut depot = depot(rt.alloc())?;
    assert!(rt; is_refused(&mut depot, acceptor(), 0));
    assert!(rt; is_refused(&mut depot, acceptor(), 1));
    assert!(rt; is_refused(&mut depot, RoleId::new(Kind::Replica, 0), 0));
    assert!(rt; writes_at_the_second_try(&mut depot, acceptor(), 0));
    assert!(rt; holds(&depot, acceptor(), 0, &[7, 8]));
    assert!(rt; depot.open(acceptor(), 0).is_ok());
    assert!(rt; is_refused(&mut depot, acceptor(), 0));
    Ok(())
}

#[test]
fn both_stores_of_a_role_are_out_at_once(rt: HostRuntime) -> Result<(), Fail> {
    let mut depot = depot(rt.alloc())?;
    assert!(rt; is_refused(&mut depot, replica(), 0));
    assert!(rt; lends_both(&mut depot, replica()));
    assert!(rt; holds(&depot, replica(), 0, &[7]));
    assert!(rt; holds(&depot, replica(), 1, &[7, 8]));
    assert!(rt; is_refused(&mut depot, replica(), 2));
    Ok(())
}

const NAME: &str = "compax-acceptor-65535.journal";

const FIRST_NAME: &str = "compax-replica-65535.journal";

const SECOND_NAME: &str = "compax-replica-65535.other";

fn is_cut(store: &mut impl Disk, at: u64) -> bool {
    at <= store.len() && store.cut(at).is_ok()
}

// Whether the store can be opened, and takes two bytes, of which the second is cut off.
#[tactic(auto, using(cx_edge::proofs::ShelfLaws::out_last))]
fn keeps_the_first(depot: &mut impl Depot, role: RoleId, side: u8) -> bool {
    let Ok(mut store) = depot.open(role, side) else {
        return false;
    };
    let first = writes(&mut store, 0, 1);
    let second = writes(&mut store, 1, 2);
    let is_cut = is_cut(&mut store, 1);
    depot.close(role, side, store);
    first && second && is_cut
}

// Whether a file has these bytes. It is removed.
fn had(rt: &HostRuntime, name: &str, bytes: &[u8]) -> Result<bool, Fail> {
    let found = fs::read(rt, name)?;
    fs::remove_file(rt, name)?;
    Ok(found.as_slice() == bytes)
}

#[test]
fn a_file_is_cut(rt: HostRuntime) -> Result<(), Fail> {
    let mut depot = FileDepot::new(rt.alloc(), &rt, &[acceptor()])?;
    assert!(rt; depot.open(RoleId::new(Kind::Acceptor, 0), 0).is_err());
    assert!(rt; depot.open(acceptor(), 1).is_err());
    assert!(rt; keeps_the_first(&mut depot, acceptor(), 0));
    assert!(rt; had(&rt, NAME, &[1])?);
    Ok(())
}

#[test]
fn a_replica_has_two_files(rt: HostRuntime) -> Result<(), Fail> {
    let mut depot = FileDepot::new(rt.alloc(), &rt, &[replica()])?;
    assert!(rt; depot.open(replica(), 0).is_ok());
    assert!(rt; keeps_the_first(&mut depot, replica(), 1));
    assert!(rt; depot.open(replica(), 2).is_err());
    assert!(rt; had(&rt, FIRST_NAME, &[])?);
    assert!(rt; had(&rt, SECOND_NAME, &[1])?);
    Ok(())
}

// The most bytes of a file that begins with a closed gate and has one record after it.
const SHORT: usize = 32_774;

const LONG: usize = SHORT + 1;

// The first bytes of a file with only 0 after them, its length, and whether it is opened for an acceptor, and for a replica.
const BEGINNINGS: [([u8; 3], usize, bool, bool); 10] = [
    ([1, 9, 9], LONG, true, true),
    ([0, 9, 9], SHORT, true, true),
    ([0, 9, 9], LONG, false, false),
    ([0, 2, 1], LONG, false, true),
    ([0, 0, 0], LONG, false, true),
    ([0, 3, 1], LONG, false, false),
    ([0, 2, 2], LONG, false, false),
    ([4, 9, 9], LONG, false, true),
    ([4, 0, 0], 1, false, true),
    ([2, 2, 1], SHORT, false, false),
];

// Whether a role's file with this beginning is opened.
fn is_opened(
    rt: &HostRuntime,
    role: RoleId,
    name: &str,
    beginning: [u8; 3],
    len: usize,
) -> Result<bool, Fail> {
    let mut bytes = Vec::new(rt.alloc());
    bytes.extend_from_slice(&beginning)?;
    bytes.resize(len, 0)?;
    fs::write(rt, name, bytes.as_slice())?;
    let mut depot = FileDepot::new(rt.alloc(), rt, &[role])?;
    let is_open = depot.open(role, 0).is_ok();
    fs::remove_file(rt, name)?;
    Ok(is_open)
}

#[test]
fn a_file_that_is_no_journal_is_refused(rt: HostRuntime) -> Result<(), Fail> {
    for (beginning, len, acceptors, replicas) in BEGINNINGS {
        assert!(rt; is_opened(&rt, acceptor(), NAME, beginning, len)? == acceptors);
        assert!(rt; is_opened(&rt, replica(), FIRST_NAME, beginning, len)? == replicas);
    }
    Ok(())
}

// What is told of the acceptor's file where it can't be opened.
fn told(rt: &HostRuntime) -> Result<String, Fail> {
    let mut depot = FileDepot::new(rt.alloc(), rt, &[acceptor()])?;
    if depot.trouble(acceptor()).is_some() || depot.open(acceptor(), 0).is_ok() {
        return Err("the file is opened".into());
    }
    let Some(trouble) = depot.trouble(acceptor()) else {
        return Err("nothing is told".into());
    };
    Ok(format!(in rt.alloc(); "{trouble}")?)
}

#[test]
fn a_depot_tells_why_a_file_is_not_opened(rt: HostRuntime) -> Result<(), Fail> {
    fs::create_dir(&rt, NAME)?;
    let directory = told(&rt)?;
    fs::remove_dir(&rt, NAME)?;
    fs::write(&rt, NAME, "text")?;
    let text = told(&rt)?;
    fs::remove_file(&rt, NAME)?;
    assert!(rt;
        directory.as_str() == "compax-acceptor-65535.journal: Is a directory (os error 21)"
    );
    assert!(rt;
        text.as_str() == "compax-acceptor-65535.journal: by its first bytes it is no journal"
    );
    Ok(())
}
