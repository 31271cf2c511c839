//! From which lists a replica opens, and at which record it says that one isn't its own.

ghost use Rattle.std.specs.Prelude.{◌≡◌, true, IfOk, IsTrue};
ghost use Rattle.cx_base.specs.declared.role.Kind.TheVariants as kind;
ghost use Rattle.cx_keep.specs.Keeper.{all_fit};
ghost use Rattle.cx_model.specs.Names.{names_role};
ghost use Rattle.cx_letter.specs.Records.{fits};

use cx_base::{Cluster, Kind, RoleId};
use cx_msg::{Record, record_from};
use cx_replica::Replica;
use cx_role::{Role, WakeFault};
use std::alloc::Global;
use std::test::Fail;

// A list that begins anew at slot 1, of which 1 is held; a pair and a client follow.
const BASE: [u8; 22] = [
    8, 0, 0, 0, 0, 0, 0, 0, 1, 0, 0, 0, 0, 0, 0, 0, 1, 0, 0, 0, 1, 1,
];

// The text 1 of the key a.
const PAIRS: [u8; 6] = [9, 1, 1, b'a', 1, b'1'];

// The answer to the number 1 of client 0: slot 0, and the text was set.
const NOTES: [u8; 29] = [
    10, 0, 0, 0, 0, 0, 0, 0, 0, 0, 0, 1, 0, 0, 0, 0, 0, 0, 0, 1, 0, 0, 0, 0, 0, 0, 0, 1, 0,
];

// A value that does nothing.
const LOG: [u8; 3] = [7, 1, 0];

// Lists as the first letters of their records' names, and the place of the record that is refused, or of the list's end.
const LISTS: [(&[u8], Option<usize>); 8] = [
    (b"BPN", None),
    (b"BPNL", None),
    (b"B", Some(1)),
    (b"BP", Some(2)),
    (b"BPL", Some(2)),
    (b"LBPN", Some(1)),
    (b"BPNB", Some(3)),
    (b"BPP", Some(2)),
];

fn record(alloc: Global, letter: u8) -> Result<Record, Fail>
    ensures { IfOk result (λ what. IsTrue (fits what)) }
{
    let what = match letter {
        b'B' => record_from(alloc, &BASE)?,
        b'P' => record_from(alloc, &PAIRS)?,
        b'N' => record_from(alloc, &NOTES)?,
        _ => record_from(alloc, &LOG)?,
    };
    Ok(what)
}

fn records(alloc: Global, letters: &[u8]) -> Result<Vec<Record>, Fail>
    ensures { IfOk result (λ list. IsTrue (all_fit list.items)) }
{
    let mut list = Vec::new(alloc);
    for letter in letters {
        list.push(record(alloc, *letter)?)?;
    }
    Ok(list)
}

fn cluster() -> Cluster
    ensures { result.replicas ≡ 2 }
{
    Cluster {
        f: 1,
        leaders: 2,
        proxies: 2,
        acceptors: 6,
        replicas: 2,
        batchers: 1,
        unbatchers: 1,
        readers: 1,
        clients: 4,
        batch: 2,
        base_port: None,
        pool: 3,
        replacers: 0,
        one_entry_a_grid: false,
        own_proxies: false,
        keep_sets: false,
    }
}

fn open(
    alloc: Global,
    cluster: &Cluster,
    me: RoleId,
    list: &[Record],
) -> Result<Option<usize>, Fail>
    requires kind { me.kind ≡ kind.Replica }
    requires place { IsTrue (names_role cluster.now me) }
    requires fit { IsTrue (all_fit list.now) }
{
    match Replica::open(alloc, cluster, me, list) {
        Ok(_) => Ok(None),
        Err(WakeFault::Record { index }) => Ok(Some(index)),
        Err(WakeFault::NoMemory) => Err(Fail::new("no memory")),
    }
}

fn opened(alloc: Global, letters: &[u8]) -> Result<Option<usize>, Fail> {
    let me = RoleId {
        kind: Kind::Replica,
        index: 0,
    };
    open(alloc, &cluster(), me, &records(alloc, letters)?)
}

#[test]
fn opens_from_what_a_renewal_writes(rt: HostRuntime) -> Result<(), Fail> {
    for (letters, refused) in LISTS {
        assert_eq!(rt; opened(rt.alloc(), letters)?, refused);
    }
    Ok(())
}
