//! Datagrams from bytes.

ghost use Rattle.std.specs.Prelude.{◌≡◌, ◌==◌, ◌≤◌, ◌++◌, ℕ, List, [], IfOk, IfErr, IsTrue, length};
ghost use Rattle.cx_letter.specs.Letter.{Letter, fits};
ghost use Rattle.cx_msg.specs.Datagrams.{spelling};
ghost use Rattle.cx_msg.specs.Parts.{DecodesParts};
ghost use Rattle.cx_msg.specs.Decoding.{decoded, letter_at_end, after_header};
ghost use Rattle.cx_msg.specs.Decodes.{Decodes};
ghost use Rattle.cx_letter.specs.Messages.{cases_with};
ghost use Rattle.cx_msg.specs.Places.{LiesIn};
ghost use Rattle.cx_wire.specs.Format.{by_tag};

use crate::bodies::body_from;
use crate::fault::WireFault;
use crate::floors::version_of;
use crate::header::{Header, MAGIC, header_from};
use crate::roles::{is_kind, may_receive, may_send};
use cx_base::{Kind, RoleId};
use cx_field::{ByteReader, ReadFault};
use cx_letter::{Datagram, Msg};
use std::alloc::Global;

/// The parts of a datagram.
pub struct Parts {
    pub from: RoleId,
    pub to: RoleId,
    pub msg: Msg,
}

// The datagram, once its header is read.
#[tactic(auto, unfolding(crate::specs::Decoding::letter_at_end))]
fn finish(
    alloc: Global,
    all: usize,
    header: &Header,
    reader: &mut ByteReader<'_>,
) -> Result<Parts, WireFault>
    requires from { header.now.from ≤ 10 }
    requires to { header.now.to ≤ 10 }
    ensures { DecodesParts result
        (letter_at_end all header.now
        (by_tag (cases_with (header.now.version == 2)) header.now.kind (length reader.old)
        reader.old)) }
{
    match body_from(header.kind, alloc, header.version == 2, reader) {
        Ok(msg) => {
            let left = reader.left();
            if left > 0 {
                return Err(WireFault::Trailing {
                    at: all.saturating_sub(left),
                });
            }
            if header.version != version_of(&msg) {
                return Err(WireFault::Version(header.version));
            }
            let from = RoleId {
                kind: Kind::from_code(header.from),
                index: header.from_index,
            };
            let to = RoleId {
                kind: Kind::from_code(header.to),
                index: header.to_index,
            };
            Ok(Parts { from, to, msg })
        }
        Err(ReadFault::Bad { left } | ReadFault::Cut { left, .. }) => {
            Err(WireFault::Field {
                kind: header.kind,
                at: all.saturating_sub(left),
            })
        }
        Err(ReadFault::NoMemory) => Err(WireFault::NoMemory),
    }
}

#[tactic(auto, unfolding(crate::specs::Decoding::after_header))]
fn body_of(
    alloc: Global,
    all: usize,
    header: &Header,
    reader: &mut ByteReader<'_>,
) -> Result<Parts, WireFault>
    ensures { DecodesParts result (after_header all header.now reader.old) }
{
    let have = reader.left();
    let said = header.said as usize;
    if header.magic != MAGIC {
        return Err(WireFault::Magic);
    }
    if header.version != 1 && header.version != 2 {
        return Err(WireFault::Version(header.version));
    }
    if !is_kind(header.kind) {
        return Err(WireFault::Kind(header.kind));
    }
    if have < said {
        return Err(WireFault::Length { said, have });
    }
    if have > said {
        return Err(WireFault::Trailing { at: 12 + said });
    }
    if !may_send(header.kind, header.from) {
        return Err(WireFault::Field {
            kind: header.kind,
            at: 4,
        });
    }
    if !may_receive(header.kind, header.to) {
        return Err(WireFault::Field {
            kind: header.kind,
            at: 7,
        });
    }
    finish(alloc, all, header, reader)
}

#[tactic(auto, unfolding(crate::specs::Decoding::with_header))]
fn read(alloc: Global, bytes: &[u8]) -> Result<Parts, WireFault>
    ensures { DecodesParts result (decoded bytes.now) }
{
    let mut reader = ByteReader::new(bytes);
    match header_from(&mut reader) {
        Ok(header) => body_of(alloc, bytes.len(), &header, &mut reader),
        Err(ReadFault::Bad { .. } | ReadFault::Cut { .. }) => Err(WireFault::Short {
            need: 12,
            have: bytes.len(),
        }),
        Err(ReadFault::NoMemory) => Err(WireFault::NoMemory),
    }
}

/// The datagram that the bytes spell, all of the bytes; or the first test that they fail, in this order: fewer than 12
/// bytes (`Short`), the letters CX (`Magic`), the version, 1 or 2 (`Version`), the kind, 1 to 38 (`Kind`), fewer bytes after
/// the header than it says (`Length`), or more (`Trailing`), the roles of the kind (`Field` at 4 or 7), the body's fields in
/// their order (`Field` at the first byte of the first bad one), bytes after the last field (`Trailing`), and the version
/// again, which is 2 exactly where a command tells its floor (`Version`): operations with a floor are fields of version 2
/// alone. The format is this project's own; its numbers have the highest byte first.
pub fn decode(alloc: Global, bytes: &[u8]) -> Result<Datagram, WireFault>
    // What is read is spelled so, and has a spelling.
    ensures found { IfOk result (λ d. (bytes.now ≡ spelling d) × IsTrue (fits d)) }
    // What is spelled so is read, unless memory runs out.
    ensures only { (d : Letter) → IsTrue (fits d) → bytes.now ≡ spelling d → Decodes result (Ok d) }
    // Which fault it is.
    ensures exact { Decodes result (decoded bytes.now) }
    // Where it lies.
    ensures place { IfErr result (λ fault. LiesIn 4 bytes.now fault) }
{
    match read(alloc, bytes) {
        Ok(Parts { from, to, msg }) => Ok(Datagram::new(from, to, msg)),
        Err(fault) => Err(fault),
    }
}

/// No datagram's bytes begin another's.
pub fn one_spelling()
    ensures { (d e : Letter) (more : List ℕ) → IsTrue (fits d) → IsTrue (fits e)
        → spelling d ++ more ≡ spelling e → (d ≡ e) × (more ≡ []) }
{}
