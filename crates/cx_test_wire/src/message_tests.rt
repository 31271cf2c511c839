//! The spellings of datagrams and records, both ways, and what refuses them.

use crate::vectors::VECTORS;
use cx_base::{Duplicate, Kind, RoleId};
use cx_msg::{KeptRecord, WireFault, Written, decode, encode_into, record_from, record_into};
use std::alloc::Global;
use std::test::Fail;

// The value of a hexadecimal digit.
fn digit(letter: u8) -> u8 {
    if letter < b'a' {
        letter.wrapping_sub(b'0')
    } else {
        letter.wrapping_sub(b'a').wrapping_add(10)
    }
}

// An entry's bytes, and where their fields begin.
pub(crate) fn unhex(alloc: Global, entry: &[u8]) -> Result<(Vec<u8>, Vec<usize>), Fail> {
    let mut bytes = Vec::new(alloc);
    let mut begins = Vec::new(alloc);
    let mut high = None;
    for letter in entry {
        match (*letter, high) {
            (b'_', _) => begins.push(bytes.len())?,
            (b'\n', _) => {}
            (letter, None) => high = Some(digit(letter)),
            (letter, Some(first)) => {
                bytes.push((first << 4) | digit(letter))?;
                high = None;
            }
        }
    }
    Ok((bytes, begins))
}

fn is_datagram(bytes: &[u8]) -> bool {
    bytes.starts_with(b"CX")
}

// The kind of a datagram, or the tag of a record.
fn kind_of(bytes: &[u8]) -> u8 {
    let place = if is_datagram(bytes) { 3 } else { 0 };
    bytes.get(place).copied().unwrap_or(0)
}

// Where the field begins in which a cut at this place lies.
fn field_at(begins: &[usize], cut: usize) -> usize {
    let mut at = 0;
    for begin in begins {
        if *begin <= cut {
            at = *begin;
        }
    }
    at
}

fn datagram_again(alloc: Global, bytes: &[u8], out: &mut Vec<u8>) -> Result<(), Fail> {
    let datagram = decode(alloc, bytes)?.copy(alloc)?;
    encode_into(alloc, &datagram, out)?;
    Ok(())
}

fn record_again(alloc: Global, bytes: &[u8], out: &mut Vec<u8>) -> Result<(), Fail> {
    let what = record_from(alloc, bytes)?;
    let role = RoleId::new(Kind::Leader, 0);
    let what = Written::Record { what };
    let kept = KeptRecord { role, what }.copy(alloc)?;
    if let Written::Record { what } = &kept.what {
        record_into(alloc, what, out)?;
    }
    Ok(())
}

// What is read from the bytes, written again.
fn again(alloc: Global, bytes: &[u8]) -> Result<Vec<u8>, Fail> {
    let mut out = Vec::new(alloc);
    if is_datagram(bytes) {
        datagram_again(alloc, bytes, &mut out)?;
    } else {
        record_again(alloc, bytes, &mut out)?;
    }
    Ok(out)
}

fn fault_of(alloc: Global, is_datagram: bool, bytes: &[u8]) -> Option<WireFault> {
    if is_datagram {
        return decode(alloc, bytes).err();
    }
    record_from(alloc, bytes).err()
}

fn is_refused(alloc: Global, is_datagram: bool, bytes: &[u8], fault: WireFault) -> bool {
    fault_of(alloc, is_datagram, bytes) == Some(fault)
}

// Lets a datagram say that its body has this length.
fn say_length(bytes: &mut [u8], len: usize) {
    let Ok(said) = u16::try_from(len) else {
        return;
    };
    let said = said.to_be_bytes();
    if bytes.len() >= 12 {
        bytes[10] = said[0];
        bytes[11] = said[1];
    }
}

// The greatest cut that is not refused in the header, or at the field that it lies in. A datagram says how much is left.
fn wrong_cut(alloc: Global, bytes: &[u8], begins: &[usize]) -> Result<Option<usize>, Fail> {
    let (is_datagram, kind) = (is_datagram(bytes), kind_of(bytes));
    let need = if is_datagram { 12 } else { 1 };
    let mut short = bytes.to_vec(alloc)?;
    for _ in 0..bytes.len() {
        short.pop();
        let have = short.len();
        if is_datagram {
            say_length(&mut short, have.saturating_sub(need));
        }
        let at = field_at(begins, have);
        let fault = if have < need {
            WireFault::Short { need, have }
        } else {
            WireFault::Field { kind, at }
        };
        if !is_refused(alloc, is_datagram, &short, fault) {
            return Ok(Some(have));
        }
    }
    Ok(None)
}

// The first cut of a datagram that is not refused where it says the whole length.
fn wrong_length(alloc: Global, bytes: &[u8]) -> Option<usize> {
    let len = bytes.len();
    for cut in 12..len {
        let fault = WireFault::Length {
            said: len - 12,
            have: cut - 12,
        };
        if !is_refused(alloc, true, &bytes[..cut], fault) {
            return Some(cut);
        }
    }
    None
}

// Whether the bytes are refused with another one after them, and with another first one.
fn changes_are_refused(alloc: Global, bytes: &[u8]) -> Result<bool, Fail> {
    let (is_datagram, at) = (is_datagram(bytes), bytes.len());
    let mut other = bytes.to_vec(alloc)?;
    other.push(0)?;
    let is_trailing = is_refused(alloc, is_datagram, &other, WireFault::Trailing { at });
    other.pop();
    if let Some(first) = other.first_mut() {
        *first |= 128;
    }
    let fault = if is_datagram {
        WireFault::Magic
    } else {
        WireFault::Kind(kind_of(&other))
    };
    Ok(is_trailing && is_refused(alloc, is_datagram, &other, fault))
}

// Each entry of the table is read, written again and refused where it is changed, as the other implementation says.
#[test]
fn another_implementation(rt: HostRuntime) -> Result<(), Fail> {
    let alloc = rt.alloc();
    let mut count = 0_usize;
    for entry in VECTORS.as_bytes().split(|letter| *letter == b';') {
        let (bytes, begins) = unhex(alloc, entry)?;
        if bytes.is_empty() {
            continue;
        }
        assert_eq!(rt; again(alloc, &bytes)?.as_slice(), bytes.as_slice());
        assert_eq!(rt; wrong_cut(alloc, &bytes, &begins)?, None, "entry {count}");
        if is_datagram(&bytes) {
            assert_eq!(rt; wrong_length(alloc, &bytes), None, "entry {count}");
        }
        assert!(rt; changes_are_refused(alloc, &bytes)?, "entry {count}");
        count = count.saturating_add(1);
    }
    assert_eq!(rt; count, 372);
    Ok(())
}
