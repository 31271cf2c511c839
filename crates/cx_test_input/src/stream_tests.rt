//! A source and a sink in memory, with a fault in the middle. Those over readers and writers are in each stored run.

use cx_edge::{MemSink, MemSource, ReadAll, ReadEnd, Sink, Source, WriteEnd, read_all, write_all};
use std::alloc::Global;
use std::test::Fail;

// The source of three bytes that fails at this call.
fn source(alloc: Global, failing: u64) -> Result<MemSource, Fail> {
    let bytes = vec![in alloc; 1, 2, 3]?;
    Ok(MemSource::new(bytes, vec![in alloc; failing]?))
}

// What reads of two bytes answer where the second fails, and the bytes that are then in the buffer.
const READS: [(ReadEnd, [u8; 2]); 4] = [
    (ReadEnd::Got(2), [1, 2]),
    (ReadEnd::Failed, [0, 0]),
    (ReadEnd::Got(1), [3, 0]),
    (ReadEnd::Got(0), [0, 0]),
];

fn read_is(source: &mut MemSource, end: ReadEnd, bytes: [u8; 2]) -> bool {
    let mut piece = [0; 2];
    source.read(&mut piece) == end && piece == bytes
}

#[test]
fn a_source_fails_and_goes_on(rt: HostRuntime) -> Result<(), Fail> {
    let mut source = source(rt.alloc(), 1)?;
    for (end, bytes) in READS {
        assert!(rt; read_is(&mut source, end, bytes));
    }
    Ok(())
}

// Whether the reading came to what this sign stands for, with these bytes.
fn comes_to(all: &ReadAll, sign: u8, bytes: &[u8]) -> bool {
    match all {
        ReadAll::Whole(read) => sign == b'.' && read.as_slice() == bytes,
        ReadAll::TooLong(read) => sign == b'+' && read.as_slice() == bytes,
        ReadAll::Failed(read) => sign == b'!' && read.as_slice() == bytes,
        ReadAll::NoMemory => false,
    }
}

// The call that fails, the limit, and what the reading of three bytes comes to.
const READINGS: [(u64, usize, u8); 3] = [(9, 3, b'.'), (9, 2, b'+'), (1, 9, b'!')];

#[test]
fn a_source_is_read_to_its_end_or_a_fault(rt: HostRuntime) -> Result<(), Fail> {
    let alloc = rt.alloc();
    for (failing, limit, sign) in READINGS {
        let mut source = source(alloc, failing)?;
        assert!(rt; comes_to(&read_all(alloc, &mut source, limit), sign, &[1, 2, 3]));
    }
    Ok(())
}

// What writes to a sink answer that has room for four bytes and fails at the second call.
const WRITES: [(&[u8], WriteEnd); 3] = [
    (&[1, 2], WriteEnd::Took(2)),
    (&[3], WriteEnd::Failed),
    (&[3, 4, 5], WriteEnd::Failed),
];

#[test]
fn a_sink_fails_and_goes_on(rt: HostRuntime) -> Result<(), Fail> {
    let alloc = rt.alloc();
    let mut sink = MemSink::new(alloc, 4, vec![in alloc; 1]?)?;
    for (piece, end) in WRITES {
        assert!(rt; sink.write(piece) == end);
    }
    assert!(rt; write_all(&mut sink, &[3, 4]));
    assert!(rt; sink.as_slice() == [1, 2, 3, 4].as_slice());
    Ok(())
}
