//! The bytes of the datagrams and records by which matchmakers are replaced, and what refuses them: bytes and faults are another
//! implementation's.

use crate::message_tests::unhex;
use crate::version_tests::answered_otherwise;
use cx_base::{Kind, RoleId};
use cx_msg::{Msg, Record, WireFault, decode, record_from};
use std::test::Fail;

// Replacer 0 lets matchmaker 0 stop, which answers with one round and no accepted set; it accepts the set of matchmaker 1, which
// begins with that round, and is told to leader 0, reader 0 and replacer 0. Then a greater ballot, an accepted set, no set, and the
// greatest number of members.
const READ: &str = "
4358011e0a0000060000000a00000001000000000000;
4358011f0600000a0000002e0000000100000000000000000000000000000000010000000100000000000001010000000000000000000000
0000;
435801210a0000060000000d00000001000000000000010001;
435801220600000a0000000a00000001000000000000;
435801230a0000060000001c01000100000000000000000000010000000100000000000001010000;
435801240600000a00000003010001;
435801250a00000300000003010001;
435801250a00000900000003010001;
435801250a00000a00000003010001;
435801200600000a000000140000000100000000000000000001000000000000;
4358011f0600000a0000002200000001000000000000000000000000000000000000000001000000000000010001;
435801250a0000030000000100;
435801210a0000060000001900000001000000000000070000000100020003000400050006;
";

// Faults, each with datagrams that it refuses.
const REFUSED: [(WireFault, &str); 29] = [
    // From a leader, a code above and none.
    (
        WireFault::Field { kind: 30, at: 4 },
        "
4358011e030000060000000a00000001000000000000;
4358011e0b0000060000000a00000001000000000000;
4358011e000000060000000a00000001000000000000;",
    ),
    // From a replacer.
    (
        WireFault::Field { kind: 31, at: 4 },
        "
4358011f0a00000a000000200000000100000000000000000000000000000000000000000000000000000000;",
    ),
    // From a matchmaker.
    (
        WireFault::Field { kind: 37, at: 4 },
        "
43580125060000030000000100;",
    ),
    // A session read from a replacer.
    (
        WireFault::Field { kind: 38, at: 4 },
        "
435801260a00000700000012000000000000000200000000000000000161;",
    ),
    // To an acceptor.
    (
        WireFault::Field { kind: 30, at: 7 },
        "
4358011e0a0000050000000a00000001000000000000;",
    ),
    // To a leader.
    (
        WireFault::Field { kind: 31, at: 7 },
        "
4358011f06000003000000200000000100000000000000000000000000000000000000000000000000000000;",
    ),
    // To a matchmaker, a client and a code above.
    (
        WireFault::Field { kind: 37, at: 7 },
        "
435801250a0000060000000100;
435801250a0000010000000100;
435801250a00000b0000000100;",
    ),
    // To a replacer.
    (
        WireFault::Field { kind: 35, at: 7 },
        "
435801230a00000a0000000c000000000000000000000000;",
    ),
    // A set of eight, without and with its ids, and one of 255.
    (
        WireFault::Field { kind: 36, at: 12 },
        "
435801240600000a0000000108;
435801240600000a000000110800000001000200030004000500060007;
435801240600000a00000001ff;",
    ),
    // No set.
    (
        WireFault::Field { kind: 37, at: 12 },
        "
435801250a00000300000000;",
    ),
    // A second id that is the first one, one below it, none, and half of one.
    (
        WireFault::Field { kind: 36, at: 15 },
        "
435801240600000a000000050200010001;
435801240600000a000000050200020001;
435801240600000a00000003020001;
435801240600000a0000000402000100;",
    ),
    // A third id that is the second one.
    (
        WireFault::Field { kind: 36, at: 17 },
        "
435801240600000a0000000703000100020002;",
    ),
    // A set of eight behind a ballot.
    (
        WireFault::Field { kind: 33, at: 22 },
        "
435801210a0000060000000b0000000100000000000008;",
    ),
    // Ids that don't rise behind a ballot.
    (
        WireFault::Field { kind: 33, at: 25 },
        "
435801210a0000060000000f000000010000000000000200010001;",
    ),
    // A ballot that is no round.
    (
        WireFault::Field { kind: 33, at: 12 },
        "
435801210a0000060000000d00000000000000000000010001;",
    ),
    // A set that was accepted in no ballot, with its id and without; none in a ballot; eight; and no count.
    (
        WireFault::Field { kind: 31, at: 43 },
        "
4358011f0600000a0000002200000001000000000000000000000000000000000000000000000000000000010001;
4358011f0600000a000000200000000100000000000000000000000000000000000000000000000000000001;
4358011f0600000a000000200000000100000000000000000000000000000000000000000100000000000000;
4358011f0600000a000000200000000100000000000000000000000000000000000000000100000000000008;
4358011f0600000a0000001f00000001000000000000000000000000000000000000000000000000000000;",
    ),
    // Ids that don't rise in an accepted set.
    (
        WireFault::Field { kind: 31, at: 46 },
        "
4358011f0600000a00000024000000010000000000000000000000000000000000000000010000000000000200010001;",
    ),
    // A ballot of an accepted set that is neither a round nor none; and 255 entries, of which none is there.
    (
        WireFault::Field { kind: 31, at: 33 },
        "
4358011f0600000a000000200000000100000000000000000000000000000000000000000000000000000100;
4358011f0600000a000000150000000100000000000000000000000000000000ff;",
    ),
    // A ballot that is no round.
    (
        WireFault::Field { kind: 31, at: 12 },
        "
4358011f0600000a000000200000000000000000000000000000000000000000000000000000000000000000;",
    ),
    // 255 entries, of which one is there.
    (
        WireFault::Field { kind: 31, at: 47 },
        "
4358011f0600000a000000230000000100000000000000000000000000000000ff0000000100000000000001010000;",
    ),
    // 255 entries, and 18, of which none is there.
    (
        WireFault::Field { kind: 5, at: 33 },
        "
4358010506000003000000150000000100000000000000000000000000000000ff;
435801050600000300000015000000010000000000000000000000000000000012;",
    ),
    // 255 entries to begin with.
    (
        WireFault::Field { kind: 35, at: 23 },
        "
435801230a0000060000000c0000000000000000000000ff;",
    ),
    // 254 of them, of which none is there.
    (
        WireFault::Field { kind: 35, at: 24 },
        "
435801230a0000060000000c0000000000000000000000fe;",
    ),
    // A round twice.
    (
        WireFault::Field { kind: 35, at: 38 },
        "
435801230a0000060000002800000000000000000000000200000001000000000000010100000000000100000000000001010000;",
    ),
    // A watermark that is neither a round nor none.
    (
        WireFault::Field { kind: 35, at: 13 },
        "
435801230a0000060000000c000000000000000000000100;",
    ),
    // A byte behind a set, a ballot and an accepted set.
    (
        WireFault::Trailing { at: 15 },
        "
435801240600000a0000000401000100;",
    ),
    (
        WireFault::Trailing { at: 22 },
        "
4358011e0a0000060000000b0000000100000000000000;",
    ),
    (
        WireFault::Trailing { at: 44 },
        "
4358011f0600000a00000021000000010000000000000000000000000000000000000000000000000000000000;",
    ),
    // No command tells a floor.
    (
        WireFault::Version(2),
        "
4358021e0a0000060000000a00000001000000000000;
435802250a0000030000000100;",
    ),
];

// Records, and what refuses them.
const RECORDS: [(&str, Option<WireFault>); 30] = [
    // A ballot; a stop; a set that was accepted, and none; and what a matchmaker begins with.
    ("0c00000001000000000000", None),
    ("0d00000001000000000000", None),
    ("0e00000001000000000000010001", None),
    ("0e0000000100000000000000", None),
    (
        "0f01000100000000000000000000010000000100000000000001010000",
        None,
    ),
    ("0f000000000100000000000000", None),
    // A ballot that is no round, one of four bytes, and a byte behind one.
    (
        "0c00000000000000000000",
        Some(WireFault::Field { kind: 12, at: 1 }),
    ),
    ("0c00000001", Some(WireFault::Field { kind: 12, at: 1 })),
    (
        "0c0000000100000000000000",
        Some(WireFault::Trailing { at: 11 }),
    ),
    // The same of a stop.
    (
        "0d00000000000000000000",
        Some(WireFault::Field { kind: 13, at: 1 }),
    ),
    (
        "0d0000000100000000000000",
        Some(WireFault::Trailing { at: 11 }),
    ),
    // No set, one of eight, ids that don't rise, no ballot, and a byte behind a set.
    (
        "0e00000001000000000000",
        Some(WireFault::Field { kind: 14, at: 11 }),
    ),
    (
        "0e0000000100000000000008",
        Some(WireFault::Field { kind: 14, at: 11 }),
    ),
    (
        "0e000000010000000000000200010001",
        Some(WireFault::Field { kind: 14, at: 14 }),
    ),
    (
        "0e0000000000000000000000",
        Some(WireFault::Field { kind: 14, at: 1 }),
    ),
    (
        "0e000000010000000000000000",
        Some(WireFault::Trailing { at: 12 }),
    ),
    // A set of eight, ids that don't rise, a watermark that is none, 255 entries, 254 of which none is there, a round twice, a byte behind
    // the entries, and no entries.
    ("0f08", Some(WireFault::Field { kind: 15, at: 1 })),
    ("0f0200020001", Some(WireFault::Field { kind: 15, at: 4 })),
    (
        "0f000000000000000000000100",
        Some(WireFault::Field { kind: 15, at: 2 }),
    ),
    (
        "0f0000000000000000000000ff",
        Some(WireFault::Field { kind: 15, at: 12 }),
    ),
    (
        "0f0000000000000000000000fe",
        Some(WireFault::Field { kind: 15, at: 13 }),
    ),
    (
        "0f00000000000000000000000200000001000000000000010100000000000100000000000001010000",
        Some(WireFault::Field { kind: 15, at: 27 }),
    ),
    (
        "0f00000000000000000000000000",
        Some(WireFault::Trailing { at: 13 }),
    ),
    (
        "0f0000000000000000000000",
        Some(WireFault::Field { kind: 15, at: 12 }),
    ),
    // A set that is known, and none; one of eight, ids that don't rise, no set, and a byte behind one.
    ("12010001", None),
    ("1200", None),
    ("1208", Some(WireFault::Field { kind: 18, at: 1 })),
    ("120200010001", Some(WireFault::Field { kind: 18, at: 4 })),
    ("12", Some(WireFault::Field { kind: 18, at: 1 })),
    ("1201000100", Some(WireFault::Trailing { at: 4 })),
];

#[test]
fn replacing(rt: HostRuntime) -> Result<(), Fail> {
    let alloc = rt.alloc();
    assert_eq!(rt; answered_otherwise(alloc, READ, None)?, None);
    for (fault, datagrams) in &REFUSED {
        assert_eq!(rt;
            answered_otherwise(alloc, datagrams, Some(*fault))?,
            None,
            "{fault}"
        );
    }
    Ok(())
}

#[test]
fn records_of_sets(rt: HostRuntime) -> Result<(), Fail> {
    let alloc = rt.alloc();
    for (text, fault) in &RECORDS {
        let (bytes, _) = unhex(alloc, text.as_bytes())?;
        assert_eq!(rt; record_from(alloc, &bytes).err(), *fault);
    }
    Ok(())
}

fn is_next(msg: &Msg, number: u32, ids: &[u16]) -> bool {
    match msg {
        Msg::NextA { round, set } => round.r == number && set.ids() == ids,
        _ => false,
    }
}

fn is_beginning(what: &Record, ids: &[u16], count: usize) -> bool {
    match what {
        Record::Boot {
            set,
            watermark,
            entries,
        } => set.ids() == ids && watermark.r == 0 && entries.as_slice().len() == count,
        _ => false,
    }
}

#[test]
fn a_set(rt: HostRuntime) -> Result<(), Fail> {
    let alloc = rt.alloc();
    let (bytes, _) = unhex(
        alloc,
        b"435801210a0003060000000f000000010000000000000200010103",
    )?;
    let next = decode(alloc, &bytes)?;
    assert!(rt; next.from().is(RoleId::new(Kind::Replacer, 3)));
    assert!(rt; next.to().is(RoleId::new(Kind::Matchmaker, 0)));
    assert!(rt; is_next(next.msg(), 1, &[1, 259]));
    let (bytes, _) = unhex(
        alloc,
        b"0f01000100000000000000000000010000000100000000000001010000",
    )?;
    assert!(rt; is_beginning(&record_from(alloc, &bytes)?, &[1], 1));
    Ok(())
}
