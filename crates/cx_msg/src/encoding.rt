//! Datagrams to bytes.

ghost use Rattle.std.specs.Prelude.{◌≡◌, ◌≤◌, ◌+◌, ◌++◌, length, OnOk, OnErr};
ghost use Rattle.cx_letter.specs.Letter.{body};
ghost use Rattle.cx_msg.specs.Datagrams.{spelling};

use crate::floors::version_of;
use crate::header::{Header, MAGIC, put_header};
use crate::put_bodies::put_body;
use cx_base::NoMemory;
use cx_letter::{Datagram, message_kind};
use std::alloc::Global;

/// Appends the bytes of a datagram's body, without its header. Out of memory, it appends nothing.
pub fn body_into(alloc: Global, datagram: &Datagram, out: &mut Vec<u8>) -> Result<(), NoMemory>
    ensures bytes { OnOk result (out.new.items ≡ out.old.items ++ body datagram.now) }
    ensures err { OnErr result (out.new.items ≡ out.old.items) }
{
    let mut whole = Vec::new(alloc);
    put_body(&mut whole, datagram.msg())?;
    out.extend_from_slice(&whole)?;
    Ok(())
}

/// Appends the bytes of a datagram, at most 30,623: a header of 12 and the body. Out of memory, it appends nothing.
pub fn encode_into(alloc: Global, datagram: &Datagram, out: &mut Vec<u8>) -> Result<(), NoMemory>
    ensures bytes { OnOk result (out.new.items ≡ out.old.items ++ spelling datagram.now) }
    ensures room { OnOk result (length (spelling datagram.now) ≤ 30623) }
    ensures err { OnErr result (out.new.items ≡ out.old.items) }
{
    let mut body = Vec::new(alloc);
    put_body(&mut body, datagram.msg())?;
    let header = Header {
        magic: MAGIC,
        version: version_of(datagram.msg()),
        kind: message_kind(datagram.msg()),
        from: datagram.from().kind.code(),
        from_index: datagram.from().index,
        to: datagram.to().kind.code(),
        to_index: datagram.to().index,
        said: body.len() as u16,
    };
    let mut whole = Vec::new(alloc);
    put_header(&mut whole, &header)?;
    whole.extend_from_slice(&body)?;
    out.extend_from_slice(&whole)?;
    Ok(())
}
