//! Numbers taken from bytes, the highest byte first. None of these calls takes memory.

ghost use Rattle.std.specs.Prelude.{◌≡◌};
ghost use Rattle.cx_wire.specs.Numbers.{big_endian_at};

use crate::Short;
use byteorder::{BigEndian, ByteOrder};

/// The byte at a place, counted from 0; `Short` where there is none.
pub fn take_u8(b: &[u8], at: usize) -> Result<u8, Short>
    ensures { result ≡ big_endian_at 1 at b.now }
{
    let have = b.len().saturating_sub(at);
    if have < 1 {
        return Err(Short { need: 1, have });
    }
    Ok(b[at])
}

/// The number in the two bytes from a place on, which is counted from 0; `Short` where there are fewer.
pub fn take_u16(b: &[u8], at: usize) -> Result<u16, Short>
    ensures { result ≡ big_endian_at 2 at b.now }
{
    let have = b.len().saturating_sub(at);
    if have < 2 {
        return Err(Short { need: 2, have });
    }
    Ok(BigEndian::read_u16(&b[at..]))
}

/// The number in the four bytes from a place on, which is counted from 0; `Short` where there are fewer.
pub fn take_u32(b: &[u8], at: usize) -> Result<u32, Short>
    ensures { result ≡ big_endian_at 4 at b.now }
{
    let have = b.len().saturating_sub(at);
    if have < 4 {
        return Err(Short { need: 4, have });
    }
    Ok(BigEndian::read_u32(&b[at..]))
}

/// The number in the eight bytes from a place on, which is counted from 0; `Short` where there are fewer.
pub fn take_u64(b: &[u8], at: usize) -> Result<u64, Short>
    ensures { result ≡ big_endian_at 8 at b.now }
{
    let have = b.len().saturating_sub(at);
    if have < 8 {
        return Err(Short { need: 8, have });
    }
    Ok(BigEndian::read_u64(&b[at..]))
}
