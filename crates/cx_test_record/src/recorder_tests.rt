//! What a recorder finds, and the room that its record has.

use cx_msg::{decode, encode_into};
use cx_record::Recorder;
use std::alloc::Global;
use std::test::Fail;

// The bytes of a client's first request, which puts a text of one letter under a key of one.
fn put(key: u8, text: u8) -> [u8; 27] {
    [
        b'C', b'X', 1, 1, 1, 0, 0, 2, 0, 0, 0, 15, 0, 0, 0, 0, 0, 0, 0, 0, 0, 1, 1, 1, key, 1, text,
    ]
}

// The first of them, but for the last byte.
const CUT: [u8; 26] = [
    b'C', b'X', 1, 1, 1, 0, 0, 2, 0, 0, 0, 15, 0, 0, 0, 0, 0, 0, 0, 0, 0, 1, 1, 1, b'a', 1,
];

fn note(alloc: Global, recorder: &mut Recorder, bytes: &[u8]) -> Result<(), Fail> {
    let datagram = decode(alloc, bytes)?;
    recorder.note(&datagram)?;
    Ok(())
}

// The number of the datagram that is found, and its bytes.
fn found(alloc: Global, recorder: &Recorder, bytes: &[u8]) -> Result<Option<(u64, Vec<u8>)>, Fail> {
    let Some(found) = recorder.find(bytes)? else {
        return Ok(None);
    };
    let mut again = Vec::new(alloc);
    encode_into(alloc, &found.datagram, &mut again)?;
    Ok(Some((found.number, again)))
}

// Whether the datagram with these bytes is found under this number.
fn is_found(alloc: Global, recorder: &Recorder, bytes: &[u8], number: u64) -> Result<bool, Fail> {
    match found(alloc, recorder, bytes)? {
        Some((first, again)) => Ok(first == number && again.as_slice() == bytes),
        None => Ok(false),
    }
}

#[test]
fn the_last_of_equal_datagrams_is_found(rt: HostRuntime) -> Result<(), Fail> {
    let alloc = rt.alloc();
    let mut recorder = Recorder::new(alloc);
    // Both have the same sum of bytes.
    let twice = put(b'a', b'2');
    let once = put(b'b', b'1');
    for bytes in [&twice, &once, &twice] {
        note(alloc, &mut recorder, bytes)?;
    }
    assert!(rt; is_found(alloc, &recorder, &twice, 2)?);
    assert!(rt; is_found(alloc, &recorder, &once, 1)?);
    Ok(())
}

#[test]
fn what_was_never_sent_is_not_found(rt: HostRuntime) -> Result<(), Fail> {
    let alloc = rt.alloc();
    let mut recorder = Recorder::new(alloc);
    let sent = put(b'a', b'2');
    note(alloc, &mut recorder, &sent)?;
    assert!(rt; found(alloc, &recorder, &put(b'b', b'1'))?.is_none());
    assert!(rt; found(alloc, &recorder, &CUT)?.is_none());
    assert!(rt; found(alloc, &recorder, &[])?.is_none());
    Ok(())
}

#[test]
fn a_record_has_65535_lines_at_most(rt: HostRuntime) -> Result<(), Fail> {
    let mut recorder = Recorder::new(rt.alloc());
    assert!(rt; recorder.has_room(65_535));
    assert!(rt; !recorder.has_room(65_536));
    recorder.count(65_534);
    assert!(rt; recorder.has_room(1));
    assert!(rt; !recorder.has_room(u64::MAX));
    Ok(())
}
