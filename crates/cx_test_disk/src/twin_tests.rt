//! Twins over disks of which one fails or stops: what is read again, and what each crash of both leaves.

ghost use Rattle.std.specs.Prelude.{IfOk, IsTrue};
ghost use Rattle.cx_letter.specs.Records.{fits};

use crate::disk_tests::disk;
use cx_disk::{DiskRoom, MemDisk, Unsynced};
use cx_journal::Twin;
use cx_keeper::{Keeper, Renew};
use cx_msg::{Record, record_from, record_into};
use std::alloc::Global;
use std::test::Fail;

const ROOM: DiskRoom = DiskRoom {
    bytes: 64,
    calls: 64,
    written: 256,
};

// A list is told by how many values each of its records has.
type Counts = &'static [u8];

// An append of one record, or a renewal with others.
enum Change {
    Append(u8),
    Renewal(Counts),
}

const CHANGES: [Change; 9] = [
    Change::Append(2),
    Change::Append(1),
    Change::Renewal(&[3]),
    Change::Append(1),
    Change::Append(2),
    Change::Renewal(&[2, 1]),
    Change::Append(3),
    Change::Append(1),
    Change::Renewal(&[1]),
];

// A journal with a record of one value, as one that was kept on one disk.
const OLD: [u8; 9] = [1, 0, 0, 0, 3, 7, 1, 0, 0];

// What the first disk begins with, the second one being empty, and the list.
const STARTS: [(&[u8], Counts); 2] = [(&[], &[]), (&OLD, &[1])];

// How many calls a disk has at most in the opening and in all changes.
const CALLS: u64 = 30;

// The call of one of two disks that fails, or from which on each fails.
#[derive(Clone, Copy)]
struct Fault {
    is_second: bool,
    stops: bool,
    call: u64,
}

// A record of so many values that do nothing.
fn log_of(alloc: Global, count: u8) -> Result<Record, Fail>
    ensures { IfOk result (λ r. IsTrue (fits r)) }
{
    let mut bytes = Vec::new(alloc);
    bytes.push(7)?;
    bytes.push(count)?;
    for _ in 0..count {
        bytes.push(0)?;
    }
    Ok(record_from(alloc, &bytes)?)
}

fn count_of(alloc: Global, what: &Record) -> Result<u8, Fail> {
    let mut bytes = Vec::new(alloc);
    record_into(alloc, what, &mut bytes)?;
    match bytes.get(1) {
        Some(count) => Ok(*count),
        None => Err("no count".into()),
    }
}

fn counts_of(alloc: Global, records: &[Record]) -> Result<Vec<u8>, Fail> {
    let mut counts = Vec::new(alloc);
    for what in records {
        counts.push(count_of(alloc, what)?)?;
    }
    Ok(counts)
}

fn appends(alloc: Global, twin: &mut Twin<MemDisk>, count: u8) -> Result<bool, Fail> {
    let what = log_of(alloc, count)?;
    Ok(twin.append(&what).is_ok())
}

fn renews(alloc: Global, twin: &mut Twin<MemDisk>, counts: &[u8]) -> Result<bool, Fail> {
    match counts {
        [one] => Ok(twin.renew(&[log_of(alloc, *one)?]).is_ok()),
        [one, other] => Ok(
            twin.renew(&[log_of(alloc, *one)?, log_of(alloc, *other)?])
                .is_ok(),
        ),
        _ => Err("a renewal of one record or two".into()),
    }
}

fn changes(alloc: Global, twin: &mut Twin<MemDisk>, change: &Change) -> Result<bool, Fail> {
    match change {
        Change::Append(count) => appends(alloc, twin, *count),
        Change::Renewal(counts) => renews(alloc, twin, counts),
    }
}

fn list_after(alloc: Global, list: &[u8], change: &Change) -> Result<Vec<u8>, Fail> {
    match change {
        Change::Append(count) => {
            let mut after = list.to_vec(alloc)?;
            after.push(*count)?;
            Ok(after)
        }
        Change::Renewal(counts) => Ok(counts.to_vec(alloc)?),
    }
}

// The list before the first change that fails, and the one after it.
fn lists(
    alloc: Global,
    twin: &mut Twin<MemDisk>,
    start: &[u8],
) -> Result<(Vec<u8>, Vec<u8>), Fail> {
    let mut before = start.to_vec(alloc)?;
    for change in &CHANGES {
        let after = list_after(alloc, &before, change)?;
        if !changes(alloc, twin, change)? {
            return Ok((before, after));
        }
        before = after;
    }
    let after = before.to_vec(alloc)?;
    Ok((before, after))
}

// The list of two disks with these bytes.
fn opened(alloc: Global, first: &[u8], second: &[u8]) -> Result<Vec<u8>, Fail> {
    let first = disk(alloc, first, ROOM, &[], None)?;
    let second = disk(alloc, second, ROOM, &[], None)?;
    let Ok((_, records)) = Twin::open(alloc, first, second) else {
        return Err("not opened".into());
    };
    counts_of(alloc, &records)
}

const UNSYNCED: [Unsynced; 3] = [Unsynced::Kept, Unsynced::Lost, Unsynced::Filled];

// Whether each crash of both leaves one of two lists.
fn leaves(
    alloc: Global,
    first: &MemDisk,
    second: &MemDisk,
    before: &[u8],
    after: &[u8],
) -> Result<bool, Fail> {
    for one in UNSYNCED {
        for other in UNSYNCED {
            let a = first.crash_image(alloc, one)?;
            let b = second.crash_image(alloc, other)?;
            let list = opened(alloc, &a, &b)?;
            if list.as_slice() != before && list.as_slice() != after {
                return Ok(false);
            }
        }
    }
    Ok(true)
}

// The list that is read again, at the second time where the first one comes upon the call that fails.
fn recovered(alloc: Global, twin: &mut Twin<MemDisk>) -> Result<Vec<u8>, Fail> {
    if let Ok(records) = twin.recover() {
        return counts_of(alloc, &records);
    }
    match twin.recover() {
        Ok(records) => counts_of(alloc, &records),
        Err(_) => Err("not read again".into()),
    }
}

// Whether one of two lists is read again, and each crash of both disks leaves that one from then on.
fn recovers(alloc: Global, twin: Twin<MemDisk>, before: &[u8], after: &[u8]) -> Result<bool, Fail> {
    let mut twin = twin;
    let list = recovered(alloc, &mut twin)?;
    if list.as_slice() != before && list.as_slice() != after {
        return Ok(false);
    }
    let (first, second) = twin.into_disks();
    leaves(alloc, &first, &second, &list, &list)
}

fn faulty(alloc: Global, bytes: &[u8], fault: Fault) -> Result<MemDisk, Fail> {
    if fault.stops {
        return disk(alloc, bytes, ROOM, &[], Some(fault.call));
    }
    disk(alloc, bytes, ROOM, &[fault.call], None)
}

fn disks(alloc: Global, bytes: &[u8], fault: Fault) -> Result<(MemDisk, MemDisk), Fail> {
    if fault.is_second {
        return Ok((
            disk(alloc, bytes, ROOM, &[], None)?,
            faulty(alloc, &[], fault)?,
        ));
    }
    Ok((
        faulty(alloc, bytes, fault)?,
        disk(alloc, &[], ROOM, &[], None)?,
    ))
}

// Whether a run with a fault leaves the list before the change in flight, or the one after it: in each crash of both disks where one
// of them stops, and where they are read again after a call that failed.
fn survives(alloc: Global, bytes: &[u8], start: &[u8], fault: Fault) -> Result<bool, Fail> {
    let (first, second) = disks(alloc, bytes, fault)?;
    match Twin::open(alloc, first, second) {
        Ok((mut twin, _records)) => {
            let (before, after) = lists(alloc, &mut twin, start)?;
            if !fault.stops {
                return recovers(alloc, twin, &before, &after);
            }
            let (first, second) = twin.into_disks();
            leaves(alloc, &first, &second, &before, &after)
        }
        Err((_fault, first, second)) => leaves(alloc, &first, &second, start, start),
    }
}

// Of each call of each of two disks, that it fails and that the disk stops there.
fn survives_all(alloc: Global, bytes: &[u8], start: &[u8]) -> Result<bool, Fail> {
    for call in 0..CALLS {
        for is_second in [false, true] {
            for stops in [false, true] {
                let fault = Fault {
                    is_second,
                    stops,
                    call,
                };
                if !survives(alloc, bytes, start, fault)? {
                    return Ok(false);
                }
            }
        }
    }
    Ok(true)
}

#[test]
fn a_fault_of_one_of_two_disks_leaves_a_list(rt: HostRuntime) -> Result<(), Fail> {
    for (bytes, start) in STARTS {
        assert!(rt; survives_all(rt.alloc(), bytes, start)?);
    }
    Ok(())
}
