//! The bytes of readers' askings and of the record of a turn, and what refuses them: bytes and faults are another implementation's.

use crate::message_tests::unhex;
use crate::version_tests::answered_otherwise;
use cx_msg::{Msg, Record, WireFault, decode, record_from};
use std::alloc::Global;
use std::test::Fail;

// Reader 0 asks matchmaker 0 under turns 1 and 2, and is answered: nothing is recorded, then one round. Under turn 2 it asks acceptor 0,
// which has voted for slot 0. Then the greatest reader and turn, and an acceptor's answer with the greatest number of slots.
const READ: &str = "
43580118090000060000000a00000000000000000001;
435801190600000900000015000000000000000000010000000000000000000000;
43580118090000060000000a00000000000000000002;
4358011906000009000000230000000000000000000200000000000000000000010000000100000000000001010000;
4358011a09000005000000140000000000000000000200000000000000000000;
4358011b050000090000001c00000000000000000002000000000000000000000000000000000001;
4358011809ffff060000000affffffffffffffffffff;
4358011b050000090003001c0003ffffffffffffffff000000010000000000000000010000000000;
";

// Faults, each with datagrams that it refuses.
const REFUSED: [(WireFault, &str); 12] = [
    // Turn 0, of reader 0 and of the greatest, and in the second version; a turn of seven bytes, and of none.
    (
        WireFault::Field { kind: 24, at: 14 },
        "
43580118090000060000000a00000000000000000000;
43580118090000060000000affff0000000000000000;
43580218090000060000000a00000000000000000000;
435801180900000600000009000000000000000000;
4358011809000006000000020000;",
    ),
    (
        WireFault::Field { kind: 25, at: 14 },
        "
435801190600000900000015000000000000000000000000000000000000000000;
435801190600000900000015ffff00000000000000000000000000000000000000;
435801190600000900000009000000000000000000;",
    ),
    (
        WireFault::Field { kind: 26, at: 14 },
        "
4358011a09000005000000140000000000000000000000000000000000000000;
4358011a0900000500000014ffff000000000000000000000000000000000000;
4358011a0900000500000009000000000000000000;",
    ),
    (
        WireFault::Field { kind: 27, at: 14 },
        "
4358011b050000090000001c00000000000000000000000000000000000000000000000000000000;
4358011b050000090000001cffff0000000000000000000000000000000000000000000000000000;
4358011b0500000900000009000000000000000000;",
    ),
    // Half of a reader's number.
    (
        WireFault::Field { kind: 24, at: 12 },
        "
43580118090000060000000100;",
    ),
    // From a client, to a batcher: turn 0 is looked at later.
    (
        WireFault::Field { kind: 24, at: 4 },
        "
43580118010000060000000a00000000000000000000;",
    ),
    (
        WireFault::Field { kind: 27, at: 7 },
        "
4358011b050000020000001c00000000000000000000000000000000000000000000000000000000;",
    ),
    // A watermark that is no round, and one slot too many, behind an asking.
    (
        WireFault::Field { kind: 26, at: 22 },
        "
4358011a09000005000000140000000000000000000100000000000000000001;",
    ),
    (
        WireFault::Field { kind: 27, at: 32 },
        "
4358011b050000090000001c00000000000000000001000000000000000000000000010000000001;",
    ),
    // A byte behind an asking, and behind what follows one.
    (
        WireFault::Trailing { at: 22 },
        "
43580118090000060000000b0000000000000000000100;",
    ),
    (
        WireFault::Trailing { at: 32 },
        "
4358011a0900000500000015000000000000000000010000000000000000000000;",
    ),
    // No command tells a floor.
    (
        WireFault::Version(2),
        "
43580218090000060000000a00000000000000000001;
4358021b050000090000001c00000000000000000001000000000000000000000000000000000000;",
    ),
];

// Records, and what refuses them.
const RECORDS: [(&str, Option<WireFault>); 10] = [
    // Turn 1, and the last one.
    ("100000000000000001", None),
    ("10ffffffffffffffff", None),
    // Turn 0, one of seven bytes, and none.
    (
        "100000000000000000",
        Some(WireFault::Field { kind: 16, at: 1 }),
    ),
    (
        "1000000000000001",
        Some(WireFault::Field { kind: 16, at: 1 }),
    ),
    ("10", Some(WireFault::Field { kind: 16, at: 1 })),
    // A byte behind it.
    ("10000000000000000100", Some(WireFault::Trailing { at: 9 })),
    // Tags that are none.
    ("000000000000000001", Some(WireFault::Kind(0))),
    ("130000000000000001", Some(WireFault::Kind(19))),
    ("200000000000000001", Some(WireFault::Kind(32))),
    ("900000000000000001", Some(WireFault::Kind(144))),
];

// Lists of acceptors that begin anew: the promise of round 1, a vote below slot 3, and one slot held.
const VOTED: [(&str, Option<WireFault>); 6] = [
    // No vote; a no-op voted for at slot 1, where the window begins.
    (
        "11000000010000000000000000000000000003000000000000000100",
        None,
    ),
    (
        "1100000001000000000000000000000000000300000000000000010100000001000000000000000000000000000100",
        None,
    ),
    // A promise of no round, and 2^40 + 1 slots voted in.
    (
        "11000000000000000000000000000000000003000000000000000100",
        Some(WireFault::Field { kind: 17, at: 1 }),
    ),
    (
        "11000000010000000000000000010000000001000000000000000100",
        Some(WireFault::Field { kind: 17, at: 11 }),
    ),
    // A vote below the window, and a byte behind no vote.
    (
        "1100000001000000000000000000000000000300000000000000010100000001000000000000000000000000000000",
        Some(WireFault::Field { kind: 17, at: 38 }),
    ),
    (
        "1100000001000000000000000000000000000300000000000000010000",
        Some(WireFault::Trailing { at: 28 }),
    ),
];

#[test]
fn askings(rt: HostRuntime) -> Result<(), Fail> {
    let alloc = rt.alloc();
    assert_eq!(rt; answered_otherwise(alloc, READ, None)?, None);
    for (fault, datagrams) in &REFUSED {
        assert_eq!(rt;
            answered_otherwise(alloc, datagrams, Some(*fault))?,
            None,
            "{fault}"
        );
    }
    Ok(())
}

#[test]
fn turns(rt: HostRuntime) -> Result<(), Fail> {
    let alloc = rt.alloc();
    for (text, fault) in &RECORDS {
        let (bytes, _) = unhex(alloc, text.as_bytes())?;
        assert_eq!(rt; record_from(alloc, &bytes).err(), *fault);
    }
    Ok(())
}

#[test]
fn lists_of_votes(rt: HostRuntime) -> Result<(), Fail> {
    let alloc = rt.alloc();
    for (text, fault) in &VOTED {
        let (bytes, _) = unhex(alloc, text.as_bytes())?;
        assert_eq!(rt; record_from(alloc, &bytes).err(), *fault);
    }
    Ok(())
}

fn is_asked(msg: &Msg, reader: u16, turn: u64) -> bool {
    match msg {
        Msg::MatchRead { asking } => asking.reader == reader && asking.turn == turn,
        _ => false,
    }
}

fn is_turn(what: &Record, number: u64) -> bool {
    match what {
        Record::Turn { turn } => *turn == number,
        _ => false,
    }
}

#[test]
fn a_turn(rt: HostRuntime) -> Result<(), Fail> {
    let alloc = rt.alloc();
    let (bytes, _) = unhex(alloc, b"43580118090000060000000a00030000000000000102")?;
    assert!(rt; is_asked(decode(alloc, &bytes)?.msg(), 3, 258));
    let (bytes, _) = unhex(alloc, b"100000000000000102")?;
    assert!(rt; is_turn(&record_from(alloc, &bytes)?, 258));
    Ok(())
}
