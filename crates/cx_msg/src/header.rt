//! The twelve bytes before a body.

ghost use Rattle.std.specs.Prelude.{◌≡◌, ◌≤◌, ◌+◌, ◌++◌, length, OnOk};
ghost use Rattle.cx_msg.specs.Datagrams.{header as header_format};
ghost use Rattle.cx_field.specs.Reading.{Reads};
ghost use Rattle.cx_wire.specs.Format as wire;
ghost use Rattle.cx_wire.specs.Format.{◌▷◌, Appends};

use cx_base::NoMemory;
use cx_field::{ByteReader, ReadFault};
use cx_wire::{put_u8, put_u16};

/// The letters CX.
pub const MAGIC: u16 = 0x4358;

/// The fields before a body.
#[derive(Clone, Copy)]
pub struct Header {
    pub magic: u16,
    pub version: u8,
    pub kind: u8,
    pub from: u8,
    pub from_index: u16,
    pub to: u8,
    pub to_index: u16,
    pub said: u16,
}

#[tactic(auto, unfolding(crate::specs::Datagrams::header))]
pub fn header_from(reader: &mut ByteReader<'_>) -> Result<Header, ReadFault>
    ensures { Reads header_format reader.old result reader.new }
{
    let magic = reader.u16()?;
    let version = reader.u8()?;
    let kind = reader.u8()?;
    let from = reader.u8()?;
    let from_index = reader.u16()?;
    let to = reader.u8()?;
    let to_index = reader.u16()?;
    let said = reader.u16()?;
    Ok(Header {
        magic,
        version,
        kind,
        from,
        from_index,
        to,
        to_index,
        said,
    })
}

fn put_front(out: &mut Vec<u8>, magic: u16, version: u8, kind: u8) -> Result<(), NoMemory>
    ensures { OnOk result (Appends (wire.u16 ▷ (wire.u8 ▷ wire.u8)) (magic, (version, kind)) 4
        out.old.items out.new.items) }
{
    put_u16(out, magic)?;
    put_u8(out, version)?;
    put_u8(out, kind)
}

fn put_role(out: &mut Vec<u8>, code: u8, index: u16) -> Result<(), NoMemory>
    ensures { OnOk result
        (Appends (wire.u8 ▷ wire.u16) (code, index) 3 out.old.items out.new.items) }
{
    put_u8(out, code)?;
    put_u16(out, index)
}

#[tactic(auto, unfolding(crate::specs::Datagrams::header))]
pub fn put_header(out: &mut Vec<u8>, header: &Header) -> Result<(), NoMemory>
    ensures { OnOk result (Appends header_format header.now 12 out.old.items out.new.items) }
{
    put_front(out, header.magic, header.version, header.kind)?;
    put_role(out, header.from, header.from_index)?;
    put_role(out, header.to, header.to_index)?;
    put_u16(out, header.said)
}
