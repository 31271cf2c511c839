//! Numbers appended to bytes, the highest byte first. The one error is out of memory, which appends nothing.

ghost use Rattle.std.specs.Prelude.{◌≡◌, ◌++◌, OnOk, OnErr};
ghost use Rattle.byteorder.specs.Endian.{big_bytes};
ghost use Rattle.cx_wire.specs.Format as format;
ghost use Rattle.cx_wire.specs.Format.{Appends};

use byteorder::{BigEndian, ByteOrder};
use cx_base::NoMemory;

/// Appends a byte.
#[tactic(auto, unfolding(crate::specs::Format::u8))]
pub fn put_u8(out: &mut Vec<u8>, n: u8) -> Result<(), NoMemory>
    ensures bytes { OnOk result (out.new.items ≡ out.old.items ++ big_bytes 1 n) }
    ensures field { OnOk result (Appends format.u8 n 1 out.old.items out.new.items) }
    ensures err { OnErr result (out.new.items ≡ out.old.items) }
{
    out.push(n)?;
    Ok(())
}

/// Appends a number in two bytes.
#[tactic(auto, unfolding(crate::specs::Format::u16))]
pub fn put_u16(out: &mut Vec<u8>, n: u16) -> Result<(), NoMemory>
    ensures bytes { OnOk result (out.new.items ≡ out.old.items ++ big_bytes 2 n) }
    ensures field { OnOk result (Appends format.u16 n 2 out.old.items out.new.items) }
    ensures err { OnErr result (out.new.items ≡ out.old.items) }
{
    let mut bytes = [0; 2];
    BigEndian::write_u16(&mut bytes, n);
    out.extend_from_slice(&bytes)?;
    Ok(())
}

/// Appends a number in four bytes.
#[tactic(auto, unfolding(crate::specs::Format::u32))]
pub fn put_u32(out: &mut Vec<u8>, n: u32) -> Result<(), NoMemory>
    ensures bytes { OnOk result (out.new.items ≡ out.old.items ++ big_bytes 4 n) }
    ensures field { OnOk result (Appends format.u32 n 4 out.old.items out.new.items) }
    ensures err { OnErr result (out.new.items ≡ out.old.items) }
{
    let mut bytes = [0; 4];
    BigEndian::write_u32(&mut bytes, n);
    out.extend_from_slice(&bytes)?;
    Ok(())
}

/// Appends a number in eight bytes.
#[tactic(auto, unfolding(crate::specs::Format::u64))]
pub fn put_u64(out: &mut Vec<u8>, n: u64) -> Result<(), NoMemory>
    ensures bytes { OnOk result (out.new.items ≡ out.old.items ++ big_bytes 8 n) }
    ensures field { OnOk result (Appends format.u64 n 8 out.old.items out.new.items) }
    ensures err { OnErr result (out.new.items ≡ out.old.items) }
{
    let mut bytes = [0; 8];
    BigEndian::write_u64(&mut bytes, n);
    out.extend_from_slice(&bytes)?;
    Ok(())
}
