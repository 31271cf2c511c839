//! Journals over disks that fail or stop.

use crate::disk_tests::disk;
use cx_base::Kind;
use cx_disk::DiskRoom;
use cx_journal::Journal;
use cx_keeper::{KeepFault, Keeper, OpenFault};
use cx_msg::record_from;
use std::alloc::Global;
use std::test::Fail;

// A promise of the round (1, 0, 0).
const PROMISE: [u8; 11] = [1, 0, 0, 0, 1, 0, 0, 0, 0, 0, 0];

const ROOM: DiskRoom = DiskRoom {
    bytes: 64,
    calls: 12,
    written: 64,
};

// How many records the bytes have for an acceptor.
fn count_of(alloc: Global, bytes: &[u8]) -> Result<usize, Fail> {
    let disk = disk(alloc, bytes, ROOM, &[], None)?;
    let Ok((_, records)) = Journal::open(alloc, disk, Kind::Acceptor) else {
        return Err("not opened".into());
    };
    Ok(records.len())
}

// Whether the first of two appends fails and the second one, which reads the records again, succeeds; and how many are left.
fn after_appends(
    alloc: Global,
    fails: &[u64],
    stop: Option<u64>,
) -> Result<(bool, bool, usize), Fail> {
    let what = record_from(alloc, &PROMISE)?;
    let disk = disk(alloc, &[0, 7], ROOM, fails, stop)?;
    let Ok((mut journal, _)) = Journal::open(alloc, disk, Kind::Acceptor) else {
        return Err("not opened".into());
    };
    let fails = matches!(journal.append(&what), Err(KeepFault::Failed));
    let succeeds = journal.append(&what).is_ok();
    let count = count_of(alloc, journal.into_disk().bytes())?;
    Ok((fails, succeeds, count))
}

// The call of the first append that fails, and how many records are left: where the disk stops there, and where the second append
// is made too. Calls 0 and 1 are of the opening of two bytes: a sync and a read.
const CALLS: [(u64, usize, usize); 4] = [(2, 0, 1), (3, 0, 1), (4, 0, 1), (5, 1, 2)];

#[test]
fn a_failed_append_is_lost_or_kept(rt: HostRuntime) -> Result<(), Fail> {
    let alloc = rt.alloc();
    for (call, stopped, failed) in CALLS {
        assert_eq!(rt;
            after_appends(alloc, &[], Some(call))?,
            (true, false, stopped)
        );
        assert_eq!(rt; after_appends(alloc, &[call], None)?, (true, true, failed));
    }
    // The four calls are all that an append makes.
    assert_eq!(rt; after_appends(alloc, &[], Some(6))?, (false, false, 1));
    Ok(())
}

fn fails_to_open(alloc: Global, fails: &[u64]) -> Result<bool, Fail> {
    let disk = disk(alloc, &[0, 7], ROOM, fails, None)?;
    match Journal::open(alloc, disk, Kind::Acceptor) {
        Ok(_) => Ok(false),
        Err(pair) => Ok(matches!(pair.0, OpenFault::Failed)),
    }
}

#[test]
fn a_disk_that_fails_is_not_opened(rt: HostRuntime) -> Result<(), Fail> {
    assert!(rt; fails_to_open(rt.alloc(), &[0])?);
    assert!(rt; fails_to_open(rt.alloc(), &[1])?);
    Ok(())
}

// A reader's journal that has its first two turns, and the one with the first alone.
const TURNS: [u8; 29] = [
    1, 0, 0, 0, 9, 16, 0, 0, 0, 0, 0, 0, 0, 1, 1, 0, 0, 0, 9, 16, 0, 0, 0, 0, 0, 0, 0, 2, 0,
];

const TURN: [u8; 15] = [1, 0, 0, 0, 9, 16, 0, 0, 0, 0, 0, 0, 0, 1, 0];

// The place and the byte of the break of what is no journal of this kind of role, as another implementation says.
const BREAKS: [(Kind, &[u8], (u64, Option<u8>)); 10] = [
    // Turn 1, in the journals of roles that keep none; a promise in a reader's.
    (Kind::Acceptor, &TURN, (5, Some(16))),
    (Kind::Leader, &TURN, (5, Some(16))),
    (Kind::Matchmaker, &TURN, (5, Some(16))),
    (Kind::Replica, &TURN, (5, Some(16))),
    (
        Kind::Reader,
        &[1, 0, 0, 0, 11, 1, 0, 0, 0, 1, 0, 0, 0, 0, 0, 0, 0],
        (5, Some(1)),
    ),
    // A tag above.
    (
        Kind::Reader,
        &[1, 0, 0, 0, 9, 17, 0, 0, 0, 0, 0, 0, 0, 1, 0],
        (5, Some(17)),
    ),
    // Turn 0, and a turn of four bytes.
    (
        Kind::Reader,
        &[1, 0, 0, 0, 9, 16, 0, 0, 0, 0, 0, 0, 0, 0, 0],
        (6, Some(0)),
    ),
    (
        Kind::Reader,
        &[1, 0, 0, 0, 5, 16, 0, 0, 0, 0, 0],
        (6, Some(0)),
    ),
    // A byte behind the turn, and an end within it.
    (
        Kind::Reader,
        &[1, 0, 0, 0, 10, 16, 0, 0, 0, 0, 0, 0, 0, 1, 0, 0],
        (14, Some(0)),
    ),
    (Kind::Reader, &[1, 0, 0, 0, 9, 16, 0, 0, 0], (9, None)),
];

fn break_of(alloc: Global, kind: Kind, bytes: &[u8]) -> Result<Option<(u64, Option<u8>)>, Fail> {
    let disk = disk(alloc, bytes, ROOM, &[], None)?;
    match Journal::open(alloc, disk, kind) {
        Ok(_) => Ok(None),
        Err(pair) => match pair.0 {
            OpenFault::NotJournal { at, byte } => Ok(Some((at, byte))),
            _ => Err("failed to open".into()),
        },
    }
}

#[test]
fn a_reader_keeps_turns_alone(rt: HostRuntime) -> Result<(), Fail> {
    let alloc = rt.alloc();
    assert_eq!(rt; break_of(alloc, Kind::Reader, &TURNS)?, None);
    for (kind, bytes, place) in BREAKS {
        assert_eq!(rt; break_of(alloc, kind, bytes)?, Some(place));
    }
    Ok(())
}

#[test]
fn a_turn_takes_fourteen_bytes(rt: HostRuntime) -> Result<(), Fail> {
    let alloc = rt.alloc();
    let disk = disk(alloc, &[0, 7], ROOM, &[], None)?;
    let Ok((mut journal, _)) = Journal::open(alloc, disk, Kind::Reader) else {
        return Err("not opened".into());
    };
    let what = record_from(alloc, &TURN[5..14])?;
    assert!(rt; journal.append(&what).is_ok());
    assert_eq!(rt; journal.into_disk().bytes(), TURN.as_slice());
    Ok(())
}
