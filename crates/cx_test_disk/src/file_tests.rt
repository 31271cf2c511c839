//! The bytes of two disks: what is opened, and what changes leave.

ghost use Rattle.std.specs.Prelude.{◌≡◌, ◌+◌, length, IfOk, IsTrue};
ghost use Rattle.cx_letter.specs.Records.{fits};

use crate::disk_tests::disk;
use cx_disk::{DiskRoom, MemDisk};
use cx_journal::Twin;
use cx_keeper::{Keeper, OpenFault, Renew};
use cx_msg::{Record, record_from};
use std::alloc::Global;
use std::test::Fail;

// Records by their bytes, in hexadecimal: values of a replica, and what its list begins with after a renewal.
const PUT: &str = "07010101000000000000000000010101610131";

const BASE_1: &str = "08000000000000000100000000000000010000000101";

const PAIRS_1: &str = "090101610131";

const NOTES_1: &str = "0a00000000000000000000010000000000000001000000000000000100";

const APP: &str = "07010101000000000000000000020301610178";

const NOOP: &str = "070100";

const BASE_2: &str = "08000000000000000300000000000000030000000101";

const PAIRS_2: &str = "09010161023178";

const NOTES_2: &str = "0a0000000000000000000101000000000000000200000000000000020302";

const DEL: &str = "0701010100000000000000000003020161";

const BASE_3: &str = "08000000000000000400000000000000040000000001";

const NOTES_3: &str = "0a00000000000000000002010000000000000003000000000000000401023178";

// A file, as pieces: before each record an open gate and the length.
type Pieces = &'static [&'static str];

const OLD: Pieces = &["0100000013", PUT, "00"];

const RENEWED_1: Pieces = &[
    "0401",
    "0100000016",
    BASE_1,
    "0100000006",
    PAIRS_1,
    "010000001d",
    NOTES_1,
    "00",
];

const APPENDED_1: Pieces = &[
    "0401",
    "0100000016",
    BASE_1,
    "0100000006",
    PAIRS_1,
    "010000001d",
    NOTES_1,
    "0100000013",
    APP,
    "00",
];

const APPENDED_2: Pieces = &[
    "0401",
    "0100000016",
    BASE_1,
    "0100000006",
    PAIRS_1,
    "010000001d",
    NOTES_1,
    "0100000013",
    APP,
    "0100000003",
    NOOP,
    "00",
];

const RENEWED_2: Pieces = &[
    "0402",
    "0100000016",
    BASE_2,
    "0100000007",
    PAIRS_2,
    "010000001e",
    NOTES_2,
    "00",
];

const APPENDED_3: Pieces = &[
    "0402",
    "0100000016",
    BASE_2,
    "0100000007",
    PAIRS_2,
    "010000001e",
    NOTES_2,
    "0100000011",
    DEL,
    "00",
];

const RENEWED_3: Pieces = &["0400", "0100000016", BASE_3, "0100000020", NOTES_3, "00"];

// An append of a record or a renewal with some, and both disks after it.
struct Change {
    is_renewal: bool,
    records: Pieces,
    first: Pieces,
    second: Pieces,
}

const CHANGES: [Change; 6] = [
    Change {
        is_renewal: true,
        records: &[BASE_1, PAIRS_1, NOTES_1],
        first: OLD,
        second: RENEWED_1,
    },
    Change {
        is_renewal: false,
        records: &[APP],
        first: OLD,
        second: APPENDED_1,
    },
    Change {
        is_renewal: false,
        records: &[NOOP],
        first: OLD,
        second: APPENDED_2,
    },
    Change {
        is_renewal: true,
        records: &[BASE_2, PAIRS_2, NOTES_2],
        first: RENEWED_2,
        second: APPENDED_2,
    },
    Change {
        is_renewal: false,
        records: &[DEL],
        first: APPENDED_3,
        second: APPENDED_2,
    },
    Change {
        is_renewal: true,
        records: &[BASE_3, NOTES_3],
        first: APPENDED_3,
        second: RENEWED_3,
    },
];

const ROOM: DiskRoom = DiskRoom {
    bytes: 128,
    calls: 64,
    written: 512,
};

// What an opening says: whether the second disk is live, and the places of the gates, the closed one the last; or the first break and
// the byte there.
enum Opening {
    Records(bool, &'static [u64]),
    Broken(u64, Option<u8>),
}

// The first disk and the second one, what their opening says, and the first disk after it.
type Row = (Pieces, Pieces, Opening, Pieces);

const ROWS: [Row; 23] = [
    (&[], &[], Opening::Records(false, &[0]), &["00"]),
    (&["04"], &["0401"], Opening::Records(false, &[0]), &["00"]),
    (&["01"], &[], Opening::Records(false, &[0]), &["00"]),
    (&["0405"], &[], Opening::Records(false, &[0]), &["00"]),
    (&["040000"], &[], Opening::Records(false, &[2]), &["040000"]),
    (&["00"], &["040000"], Opening::Records(true, &[2]), &["00"]),
    (
        &["040000"],
        &["040100"],
        Opening::Records(true, &[2]),
        &["040000"],
    ),
    (
        &["040100"],
        &["040200"],
        Opening::Records(true, &[2]),
        &["040100"],
    ),
    (
        &["040000"],
        &["040200"],
        Opening::Records(false, &[2]),
        &["040000"],
    ),
    (&["040300"], &[], Opening::Broken(1, Some(3)), &["040300"]),
    (&[], &["040300"], Opening::Broken(1, Some(3)), &[]),
    (
        &["0401"],
        &["040500"],
        Opening::Broken(1, Some(5)),
        &["0401"],
    ),
    (
        &["040300"],
        &["040500"],
        Opening::Broken(1, Some(3)),
        &["040300"],
    ),
    (
        &["040200"],
        &["040200"],
        Opening::Broken(1, Some(2)),
        &["040200"],
    ),
    (&["040001"], &[], Opening::Broken(3, None), &["040001"]),
    (
        &["0400010000"],
        &[],
        Opening::Broken(5, None),
        &["0400010000"],
    ),
    (&["0102"], &[], Opening::Broken(2, None), &["0102"]),
    (
        &["040000000307010000"],
        &[],
        Opening::Records(false, &[2]),
        &["040000000307010000"],
    ),
    (
        &["010000000307010000"],
        &[],
        Opening::Records(false, &[0, 8]),
        &["010000000307010000"],
    ),
    (
        &["010000000307010000"],
        &["01"],
        Opening::Records(false, &[0, 8]),
        &["010000000307010000"],
    ),
    (
        &["010000000307010000"],
        &["0103"],
        Opening::Records(false, &[0, 8]),
        &["010000000307010000"],
    ),
    (
        &["010000000307010000"],
        &["040000"],
        Opening::Records(true, &[2]),
        &["010000000307010000"],
    ),
    (
        APPENDED_3,
        RENEWED_3,
        Opening::Records(true, &[2, 29, 66]),
        APPENDED_3,
    ),
];

// The value of a hexadecimal digit.
fn digit(letter: u8) -> u8 {
    if letter < b'a' {
        letter.wrapping_sub(b'0')
    } else {
        letter.wrapping_sub(b'a').wrapping_add(10)
    }
}

fn unhex_into(text: &str, bytes: &mut Vec<u8>) -> Result<(), Fail> {
    let mut high = None;
    for letter in text.as_bytes() {
        match high {
            None => high = Some(digit(*letter)),
            Some(first) => {
                bytes.push((first << 4) | digit(*letter))?;
                high = None;
            }
        }
    }
    Ok(())
}

fn unhex(alloc: Global, pieces: &[&str]) -> Result<Vec<u8>, Fail> {
    let mut bytes = Vec::new(alloc);
    for piece in pieces {
        unhex_into(piece, &mut bytes)?;
    }
    Ok(bytes)
}

fn disk_of(alloc: Global, pieces: &[&str]) -> Result<MemDisk, Fail> {
    let bytes = unhex(alloc, pieces)?;
    disk(alloc, &bytes, ROOM, &[], None)
}

fn has(alloc: Global, disk: &MemDisk, pieces: &[&str]) -> Result<bool, Fail> {
    let bytes = unhex(alloc, pieces)?;
    Ok(disk.bytes() == bytes.as_slice())
}

fn record_of(alloc: Global, text: &str) -> Result<Record, Fail>
    ensures { IfOk result (λ r. IsTrue (fits r)) }
{
    let bytes = unhex(alloc, &[text])?;
    Ok(record_from(alloc, &bytes)?)
}

// Whether both disks have these bytes.
fn have(
    alloc: Global,
    one: &MemDisk,
    other: &MemDisk,
    first: Pieces,
    second: Pieces,
) -> Result<bool, Fail> {
    Ok(has(alloc, one, first)? && has(alloc, other, second)?)
}

fn is_broken(opening: &Opening, found: &OpenFault) -> bool {
    match (opening, found) {
        (Opening::Broken(place, there), OpenFault::NotJournal { at, byte }) => {
            at == place && byte == there
        }
        _ => false,
    }
}

fn is_opened(opening: &Opening, twin: &Twin<MemDisk>, count: usize) -> bool
    requires { length twin.now.gates ≡ count + 1 }
{
    let Opening::Records(_, places) = opening else {
        return false;
    };
    for (index, place) in places.iter().enumerate() {
        if index > count || twin.place(index) != *place {
            return false;
        }
    }
    places.len() > count
}

// Whether the opening says what is wanted, and leaves these bytes.
fn opens(alloc: Global, row: &Row) -> Result<bool, Fail> {
    let (first, second, wanted, after) = row;
    match Twin::open(alloc, disk_of(alloc, first)?, disk_of(alloc, second)?) {
        Ok((twin, records)) => {
            let is_wanted = is_opened(wanted, &twin, records.len());
            let (one, other) = twin.into_disks();
            Ok(is_wanted && have(alloc, &one, &other, after, second)?)
        }
        Err((found, one, other)) => {
            Ok(is_broken(wanted, &found) && have(alloc, &one, &other, after, second)?)
        }
    }
}

fn appends(alloc: Global, twin: &mut Twin<MemDisk>, text: &str) -> Result<bool, Fail> {
    let what = record_of(alloc, text)?;
    Ok(twin.append(&what).is_ok())
}

// Two disks after an append to what they hold.
fn appended(alloc: Global, first: Pieces, second: Pieces) -> Result<(MemDisk, MemDisk), Fail> {
    let Ok((twin, _)) = Twin::open(alloc, disk_of(alloc, first)?, disk_of(alloc, second)?) else {
        return Err("not opened".into());
    };
    let mut twin = twin;
    if !appends(alloc, &mut twin, NOOP)? {
        return Err("not appended".into());
    }
    Ok(twin.into_disks())
}

// Whether an append is written to the disk that is live, and to no other.
fn writes_to_live(alloc: Global, row: &Row) -> Result<bool, Fail> {
    let (first, second, wanted, _) = row;
    let Opening::Records(is_second, _) = wanted else {
        return Ok(true);
    };
    let (one, other) = appended(alloc, first, second)?;
    Ok(has(alloc, &other, second)? != *is_second && (!*is_second || has(alloc, &one, first)?))
}

#[test]
fn the_live_disk_is_opened(rt: HostRuntime) -> Result<(), Fail> {
    for row in &ROWS {
        assert!(rt; opens(rt.alloc(), row)?);
        assert!(rt; writes_to_live(rt.alloc(), row)?);
    }
    Ok(())
}

fn changes(alloc: Global, twin: &mut Twin<MemDisk>, change: &Change) -> Result<bool, Fail> {
    match (change.is_renewal, change.records) {
        (false, [one]) => appends(alloc, twin, one),
        (true, [one, other]) => Ok(
            twin.renew(&[record_of(alloc, one)?, record_of(alloc, other)?])
                .is_ok(),
        ),
        (true, [one, other, last]) => Ok(
            twin.renew(&[
                record_of(alloc, one)?,
                record_of(alloc, other)?,
                record_of(alloc, last)?,
            ])
            .is_ok(),
        ),
        _ => Err("no change".into()),
    }
}

// Both disks after the changes up to this one, of an old journal beside an empty disk.
fn changed(alloc: Global, last: usize) -> Result<(MemDisk, MemDisk), Fail> {
    let Ok((twin, _)) = Twin::open(alloc, disk_of(alloc, OLD)?, disk_of(alloc, &[])?) else {
        return Err("not opened".into());
    };
    let mut twin = twin;
    for (index, change) in CHANGES.iter().enumerate() {
        if index <= last && !changes(alloc, &mut twin, change)? {
            return Err("not changed".into());
        }
    }
    Ok(twin.into_disks())
}

#[test]
fn a_change_is_written_in_these_bytes(rt: HostRuntime) -> Result<(), Fail> {
    let alloc = rt.alloc();
    for (last, change) in CHANGES.iter().enumerate() {
        let (first, second) = changed(alloc, last)?;
        assert!(rt; have(alloc, &first, &second, change.first, change.second)?);
    }
    Ok(())
}
