//! Calls that fail, and a disk that stops.

use cx_disk::{Disk, DiskRoom, MemDisk, Unsynced};
use std::alloc::Global;
use std::test::Fail;

// A place and what is written there, or nothing for a sync; and whether the call succeeds.
type Call = (u64, &'static [u8], bool);

// A disk of the bytes 7 and 8: which calls fail, after how many it stops, the calls, and the bytes then.
struct Case {
    fails: &'static [u64],
    stop: Option<u64>,
    calls: &'static [Call],
    bytes: &'static [u8],
}

const CASES: [Case; 5] = [
    Case {
        fails: &[],
        stop: None,
        calls: &[(0, &[1], true)],
        bytes: &[1, 8],
    },
    Case {
        fails: &[1],
        stop: None,
        calls: &[(0, &[], true), (0, &[], false), (0, &[], true)],
        bytes: &[7, 8],
    },
    Case {
        fails: &[],
        stop: Some(1),
        calls: &[(0, &[], true), (0, &[1], false), (0, &[], false)],
        bytes: &[7, 8],
    },
    Case {
        fails: &[],
        stop: None,
        calls: &[
            (0, &[0, 0, 0, 0, 0], false),
            (0, &[1, 2, 3], true),
            (0, &[4, 5], false),
        ],
        bytes: &[1, 2, 3],
    },
    Case {
        fails: &[],
        stop: None,
        calls: &[
            (0, &[], true),
            (0, &[], true),
            (0, &[], true),
            (0, &[], true),
            (0, &[], false),
        ],
        bytes: &[7, 8],
    },
];

const ROOM: DiskRoom = DiskRoom {
    bytes: 4,
    calls: 4,
    written: 4,
};

pub(crate) fn disk(
    alloc: Global,
    bytes: &[u8],
    room: DiskRoom,
    fails: &[u64],
    stop: Option<u64>,
) -> Result<MemDisk, Fail> {
    Ok(MemDisk::new(alloc, bytes, room, fails.to_vec(alloc)?, stop)?)
}

fn succeeds(disk: &mut MemDisk, at: u64, bytes: &[u8]) -> bool {
    if bytes.is_empty() {
        return disk.sync().is_ok();
    }
    at <= Disk::len(disk) && disk.write_at(at, bytes).is_ok()
}

// Whether each call is answered as it is said.
fn answers(disk: &mut MemDisk, calls: &[Call]) -> bool {
    for (at, bytes, is_ok) in calls {
        if succeeds(disk, *at, bytes) != *is_ok {
            return false;
        }
    }
    true
}

#[test]
fn calls_fail_where_it_is_said(rt: HostRuntime) -> Result<(), Fail> {
    for case in &CASES {
        let mut disk = disk(rt.alloc(), &[7, 8], ROOM, case.fails, case.stop)?;
        assert!(rt; answers(&mut disk, case.calls));
        assert_eq!(rt; disk.bytes(), case.bytes);
    }
    Ok(())
}

// One write, synced, another one that isn't, and a third that fails.
const WRITES: [Call; 4] = [
    (0, &[1], true),
    (0, &[], true),
    (1, &[2, 3], true),
    (2, &[4, 5], false),
];

const IMAGES: [(Unsynced, &[u8]); 3] = [
    (Unsynced::Kept, &[1, 2, 3]),
    (Unsynced::Lost, &[1, 8]),
    (Unsynced::Filled, &[1, 255, 255, 255]),
];

#[test]
fn a_crash_keeps_loses_or_fills(rt: HostRuntime) -> Result<(), Fail> {
    let alloc = rt.alloc();
    let mut disk = disk(alloc, &[7, 8], ROOM, &[3], None)?;
    assert!(rt; answers(&mut disk, &WRITES));
    for (unsynced, bytes) in IMAGES {
        assert_eq!(rt; disk.crash_image(alloc, unsynced)?.as_slice(), bytes);
    }
    Ok(())
}
