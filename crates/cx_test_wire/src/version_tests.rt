//! The two versions of the format, and the order in which bytes are tested.

use crate::message_tests::unhex;
use cx_msg::{WireFault, decode};
use std::alloc::Global;
use std::test::Fail;

// Datagrams that are read, in hexadecimal; a semicolon ends each. The first is Submit of number 1, whose floor isn't told; the others
// tell floors: Submit of numbers 2, 66, 70 and 2, then Batch, Chosen and Phase1B.
const READ: &str = "
43580101010000020000000f000000000000000000010101610131;
4358020101000002000000170000000000000000000204000000000000000001610132;
4358020101000002000000170000000000000000004204000000000000000201610132;
435802010100000200000015000000000000000000460500000000000000420161;
4358020101000002000000170000000000000000000206000000000000000001610132;
435802020200000300000027020000000000000000000101016101310000000000000000000204000000000000000001610132;
4358020d0400000700000021000000000000000001010000000000000000000204000000000000000001610132;
43580208050000030000003e0000000100000000000000000000000000000100000001000000000000000000000000000001010000000000
000000000204000000000000000001610132;
";

// Faults, each with datagrams that it refuses.
const REFUSED: [(WireFault, &str); 14] = [
    // Submit of number 2: its floor told in version 1, and operations that are none.
    (
        WireFault::Field { kind: 1, at: 22 },
        "
4358010101000002000000170000000000000000000204000000000000000001610132;
4358020101000002000000170000000000000000000207000000000000000001610132;
4358020101000002000000170000000000000000000200000000000000000001610132;",
    ),
    // Floors: 1 and 2 of number 2; 2 of number 67; 0 of number 1; and one of seven bytes.
    (
        WireFault::Field { kind: 1, at: 23 },
        "
4358020101000002000000170000000000000000000204000000000000000101610132;
4358020101000002000000170000000000000000000204000000000000000201610132;
4358020101000002000000170000000000000000004304000000000000000201610132;
4358020101000002000000170000000000000000000104000000000000000001610132;
435802010100000200000012000000000000000000020400000000000000;",
    ),
    // Number 0 with a floor.
    (
        WireFault::Field { kind: 1, at: 14 },
        "
4358020101000002000000170000000000000000000004000000000000000001610132;",
    ),
    // A blank in the key behind a floor.
    (
        WireFault::Field { kind: 1, at: 32 },
        "
4358020101000002000000170000000000000000000204000000000000000001200132;",
    ),
    // Submit, Batch, Leads and Chosen, of which no command tells its floor.
    (
        WireFault::Version(2),
        "
43580201010000020000000f000000000000000000010101610131;
43580202020000030000001001000000000000000000010101610131;
43580203030000020000000a00000001000000000000;
4358020d0400000700000009000000000000000000;",
    ),
    // Versions that are none.
    (
        WireFault::Version(0),
        "
43580001010000020000000f000000000000000000010101610131;",
    ),
    (
        WireFault::Version(3),
        "
4358030101000002000000170000000000000000000204000000000000000001610132;",
    ),
    // The kind, the bytes behind a body and in it, and the fields are tested before the version that a message has.
    (
        WireFault::Kind(0),
        "
43580200010000020000000f000000000000000000010101610131;",
    ),
    (
        WireFault::Trailing { at: 27 },
        "
43580201010000020000000f00000000000000000001010161013100;
43580201010000020000001000000000000000000001010161013100;",
    ),
    (
        WireFault::Field { kind: 3, at: 12 },
        "
43580203030000020000000a00000000000000000000;",
    ),
    // So are the roles: Leads from a batcher, Held from a proxy.
    (
        WireFault::Field { kind: 3, at: 4 },
        "
43580203020000020000000a00000001000000000000;",
    ),
    (
        WireFault::Field { kind: 17, at: 4 },
        "
4358021104000003000000080000000000000000;",
    ),
    // Batch and Phase1B with a command that tells its floor, in version 1.
    (
        WireFault::Field { kind: 2, at: 38 },
        "
435801020200000300000027020000000000000000000101016101310000000000000000000204000000000000000001610132;",
    ),
    (
        WireFault::Field { kind: 8, at: 61 },
        "
43580108050000030000003e0000000100000000000000000000000000000100000001000000000000000000000000000001010000000000
000000000204000000000000000001610132;",
    ),
];

// The first of the datagrams that is answered otherwise.
pub(crate) fn answered_otherwise(
    alloc: Global,
    datagrams: &str,
    fault: Option<WireFault>,
) -> Result<Option<usize>, Fail> {
    for (number, text) in datagrams
        .as_bytes()
        .split(|letter| *letter == b';')
        .enumerate()
    {
        let (bytes, _) = unhex(alloc, text)?;
        if !bytes.is_empty() && decode(alloc, &bytes).err() != fault {
            return Ok(Some(number));
        }
    }
    Ok(None)
}

#[test]
fn the_version_is_that_of_the_message(rt: HostRuntime) -> Result<(), Fail> {
    let alloc = rt.alloc();
    assert_eq!(rt; answered_otherwise(alloc, READ, None)?, None);
    for (fault, datagrams) in &REFUSED {
        assert_eq!(rt;
            answered_otherwise(alloc, datagrams, Some(*fault))?,
            None,
            "{fault}"
        );
    }
    Ok(())
}
