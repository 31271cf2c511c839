//! A node in memory, of a cluster with one role of each kind.

ghost use Rattle.std.specs.Prelude.{◌≡◌, [], IfOk};
ghost use Rattle.cx_edge.specs.MemDepot.{depot_out};
ghost use Rattle.cx_seat.specs.Opening.{AreApart};

use cx_base::{Kind, RoleId, Status};
use cx_disk::{DiskRoom, MemDisk, Unsynced};
use cx_edge::{Front, LinkFailing, LinkRoom, MemDepot, MemLink, MemSink, MemSource, Shelf};
use cx_node::serve;
use std::alloc::Global;
use std::test::Fail;

/// The header of its input.
pub(crate) const HEADER: &str = "f = 0
leaders = 1
proxies = 1
acceptors = 1
replicas = 1
batchers = 1
unbatchers = 1
readers = 1
clients = 1
batch = 1
base_port = 20000
---
";

/// The client, and all that serve it.
pub(crate) const ROLES: [RoleId; 9] = [
    RoleId {
        kind: Kind::Client,
        index: 0,
    },
    RoleId {
        kind: Kind::Batcher,
        index: 0,
    },
    RoleId {
        kind: Kind::Leader,
        index: 0,
    },
    RoleId {
        kind: Kind::Proxy,
        index: 0,
    },
    RoleId {
        kind: Kind::Acceptor,
        index: 0,
    },
    RoleId {
        kind: Kind::Matchmaker,
        index: 0,
    },
    RoleId {
        kind: Kind::Replica,
        index: 0,
    },
    RoleId {
        kind: Kind::Unbatcher,
        index: 0,
    },
    RoleId {
        kind: Kind::Reader,
        index: 0,
    },
];

const STORES: [(Kind, u8); 6] = [
    (Kind::Leader, 0),
    (Kind::Acceptor, 0),
    (Kind::Matchmaker, 0),
    (Kind::Replica, 0),
    (Kind::Replica, 1),
    (Kind::Reader, 0),
];

const DISK_ROOM: DiskRoom = DiskRoom {
    bytes: 512,
    calls: 256,
    written: 4096,
};

const LINK_ROOM: LinkRoom = LinkRoom {
    binds: 9,
    takes: 5000,
    sends: 1000,
    bytes: 65_536,
};

const OUT_ROOM: usize = 1024;

fn role(kind: Kind) -> RoleId {
    RoleId::new(kind, 0)
}

pub(crate) fn replica() -> RoleId {
    role(Kind::Replica)
}

pub(crate) fn reader() -> RoleId {
    role(Kind::Reader)
}

/// A disk that stops after so many calls: of the role of this kind, the one on this side.
#[derive(Clone, Copy)]
pub(crate) struct Stop {
    pub(crate) kind: Kind,
    pub(crate) side: u8,
    pub(crate) calls: u64,
}

/// A node's stores, all empty.
pub(crate) fn empty_depot(alloc: Global) -> Result<MemDepot, Fail>
    ensures { IfOk result (λ depot. depot_out depot ≡ []) }
{
    depot_of_reader(alloc, &[])
}

/// A node's stores, of which the reader's has these bytes, and the others are empty.
pub(crate) fn depot_of_reader(alloc: Global, bytes: &[u8]) -> Result<MemDepot, Fail>
    ensures { IfOk result (λ depot. depot_out depot ≡ []) }
{
    let mut stores = Vec::new(alloc);
    for (kind, side) in STORES {
        let stored = if kind == Kind::Reader {
            bytes
        } else {
            &bytes[..0]
        };
        let disk = MemDisk::new(alloc, stored, DISK_ROOM, Vec::new(alloc), None)?;
        stores.push((Shelf::new(role(kind), side), disk))?;
    }
    Ok(MemDepot::new(alloc, stores, DISK_ROOM.bytes, Vec::new(alloc))?)
}

/// What a crash leaves of a node's stores. One of its disks stops after so many calls more.
pub(crate) fn crashed(
    alloc: Global,
    depot: &MemDepot,
    unsynced: Unsynced,
    stop: Option<Stop>,
) -> Result<MemDepot, Fail>
    ensures { IfOk result (λ depot. depot_out depot ≡ []) }
{
    let mut stores = Vec::new(alloc);
    for (kind, side) in STORES {
        let Some(disk) = depot.store(role(kind), side) else {
            return Err("a store is out".into());
        };
        let bytes = disk.crash_image(alloc, unsynced)?;
        let stop = stop_of(kind, side, stop);
        let disk = MemDisk::new(alloc, &bytes, DISK_ROOM, Vec::new(alloc), stop)?;
        stores.push((Shelf::new(role(kind), side), disk))?;
    }
    Ok(MemDepot::new(alloc, stores, DISK_ROOM.bytes, Vec::new(alloc))?)
}

// After how many calls a disk stops.
fn stop_of(kind: Kind, side: u8, stop: Option<Stop>) -> Option<u64> {
    match stop {
        Some(stop) if kind == stop.kind && side == stop.side => Some(stop.calls),
        _ => None,
    }
}

/// A link in memory, with these datagrams in front of others.
pub(crate) fn link(alloc: Global, fronts: &[Front]) -> Result<MemLink, Fail> {
    let failing = LinkFailing {
        binds: Vec::new(alloc),
        sends: Vec::new(alloc),
        takes: Vec::new(alloc),
    };
    Ok(MemLink::new(alloc, LINK_ROOM, failing, fronts)?)
}

/// Bytes behind a header.
pub(crate) fn with_header(alloc: Global, header: &str, lines: &str) -> Result<Vec<u8>, Fail> {
    let mut bytes = Vec::new(alloc);
    bytes.extend_from_slice(header.as_bytes())?;
    bytes.extend_from_slice(lines.as_bytes())?;
    Ok(bytes)
}

/// Hosts the roles over these lines: how that ended, and what was printed.
pub(crate) fn host(
    alloc: Global,
    depot: &mut MemDepot,
    roles: &[RoleId],
    turns: u32,
    lines: &str,
) -> Result<(Status, Vec<u8>), Fail>
    requires apart { AreApart roles.now }
    requires lent { depot_out depot.old ≡ [] }
    ensures { depot_out depot.new ≡ [] }
{
    let input = with_header(alloc, HEADER, lines)?;
    host_over(alloc, depot, roles, turns, false, input, &[])
}

/// Hosts the roles over this input, and with these datagrams in front of others: how that ended, and what was printed.
pub(crate) fn host_over(
    alloc: Global,
    depot: &mut MemDepot,
    roles: &[RoleId],
    turns: u32,
    recording: bool,
    input: Vec<u8>,
    fronts: &[Front],
) -> Result<(Status, Vec<u8>), Fail>
    requires apart { AreApart roles.now }
    requires lent { depot_out depot.old ≡ [] }
    ensures { depot_out depot.new ≡ [] }
{
    let mut input = MemSource::new(input, Vec::new(alloc));
    let mut link = link(alloc, fronts)?;
    let mut out = MemSink::new(alloc, OUT_ROOM, Vec::new(alloc))?;
    let status = serve(
        alloc, roles, turns, None, 1, recording, &mut input, &mut link, depot, &mut out,
    );
    Ok((status, out.as_slice().to_vec(alloc)?))
}
