//! The bytes of session reads, and what refuses them: bytes and faults are another implementation's.

use crate::message_tests::unhex;
use crate::version_tests::answered_otherwise;
use cx_base::{Kind, RoleId};
use cx_msg::{Msg, WireFault, decode};
use std::test::Fail;

// Client 0 asks replica 1 for key a, number 2, having heard of no slot; then number 3, having heard of one; then with the
// greatest number of slots and the longest key.
const READ: &str = "
435801260100000700010012000000000000000200000000000000000161;
435801260100000700010012000000000000000300000000000000010161;
4358012601000007000100310000000000000002000001000000000020616161616161616161616161616161616161616161616161616161
6161616161;
";

// Faults, each with datagrams that it refuses.
const REFUSED: [(WireFault, &str); 10] = [
    // From none, a batcher, a leader, a replica, a reader and a code above; and from a reader with number 0.
    (
        WireFault::Field { kind: 38, at: 4 },
        "
435801260000000700010012000000000000000200000000000000000161;
435801260200000700010012000000000000000200000000000000000161;
435801260300000700010012000000000000000200000000000000000161;
435801260700000700010012000000000000000200000000000000000161;
435801260900000700010012000000000000000200000000000000000161;
435801260a00000700010012000000000000000200000000000000000161;
435801260900000700010012000000000000000000000000000000000161;",
    ),
    // To none, a client, a matchmaker, an unbatcher, a reader and a code above.
    (
        WireFault::Field { kind: 38, at: 7 },
        "
435801260100000000010012000000000000000200000000000000000161;
435801260100000100010012000000000000000200000000000000000161;
435801260100000600010012000000000000000200000000000000000161;
435801260100000800010012000000000000000200000000000000000161;
435801260100000900010012000000000000000200000000000000000161;
435801260100000a00010012000000000000000200000000000000000161;",
    ),
    // Number 0, in both versions.
    (
        WireFault::Field { kind: 38, at: 12 },
        "
435801260100000700010012000000000000000000000000000000000161;
435802260100000700010012000000000000000000000000000000000161;",
    ),
    // One slot too many.
    (
        WireFault::Field { kind: 38, at: 20 },
        "
435801260100000700010012000000000000000200000100000000010161;",
    ),
    // A key of no byte, and of 33.
    (
        WireFault::Field { kind: 38, at: 28 },
        "
4358012601000007000100110000000000000002000000000000000000;
4358012601000007000100320000000000000002000000000000000021616161616161616161616161616161616161616161616161616161
616161616161;",
    ),
    // A blank in the key's place.
    (
        WireFault::Field { kind: 38, at: 29 },
        "
435801260100000700010012000000000000000200000000000000000120;",
    ),
    // A blank behind the key's first letter, and a letter that is missing.
    (
        WireFault::Field { kind: 38, at: 30 },
        "
43580126010000070001001300000000000000020000000000000000026120;
435801260100000700010012000000000000000200000000000000000261;",
    ),
    // Bytes behind the key, and behind what the header says.
    (
        WireFault::Trailing { at: 30 },
        "
43580126010000070001001300000000000000020000000000000000016162;
43580126010000070001001200000000000000020000000000000000016162;",
    ),
    // A byte less than the header says.
    (
        WireFault::Length { said: 18, have: 17 },
        "
4358012601000007000100120000000000000002000000000000000001;",
    ),
    // No command tells a floor.
    (
        WireFault::Version(2),
        "
435802260100000700010012000000000000000200000000000000000161;",
    ),
];

// Kinds that are none, in place of 38.
const NO_KINDS: [u8; 4] = [0, 39, 63, 255];

#[test]
fn session_reads(rt: HostRuntime) -> Result<(), Fail> {
    let alloc = rt.alloc();
    assert_eq!(rt; answered_otherwise(alloc, READ, None)?, None);
    for (fault, datagrams) in &REFUSED {
        assert_eq!(rt;
            answered_otherwise(alloc, datagrams, Some(*fault))?,
            None,
            "{fault}"
        );
    }
    Ok(())
}

#[test]
fn kinds_that_are_none(rt: HostRuntime) -> Result<(), Fail> {
    let alloc = rt.alloc();
    for kind in &NO_KINDS {
        let (mut bytes, _) = unhex(
            alloc,
            b"435801260100000700010012000000000000000200000000000000000161",
        )?;
        if let Some(place) = bytes.get_mut(3) {
            *place = *kind;
        }
        assert_eq!(rt; decode(alloc, &bytes).err(), Some(WireFault::Kind(*kind)));
    }
    Ok(())
}

fn is_question(msg: &Msg, seq: u64, mark: u64, key: &[u8]) -> bool {
    match msg {
        Msg::SessRead {
            seq: number,
            mark: slots,
            key: name,
        } => { *number == seq && *slots == mark && name.as_bytes() == key }
        _ => false,
    }
}

#[test]
fn a_question(rt: HostRuntime) -> Result<(), Fail> {
    let alloc = rt.alloc();
    let (bytes, _) = unhex(
        alloc,
        b"435801260100000700010012000000000000000200000000000000000161",
    )?;
    let question = decode(alloc, &bytes)?;
    assert!(rt; question.from().is(RoleId::new(Kind::Client, 0)));
    assert!(rt; question.to().is(RoleId::new(Kind::Replica, 1)));
    assert!(rt; is_question(question.msg(), 2, 0, b"a"));
    Ok(())
}
