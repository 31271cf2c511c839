//! The line that says how a run ended.

ghost use Rattle.std.specs.Prelude.{◌≡◌, ◌≤◌, ◌++◌, ◌∷◌, [], codes, decimal, map};
ghost use Rattle.std.specs.List.{concat};
ghost use Rattle.cx_base.specs.Role.{role_text};
ghost use Rattle.cx_edge.specs.Sink.{SaysText};
ghost use Rattle.compax.specs.Line.{line_of};

use cx_base::{RoleId, Status};
use cx_edge::{Sink, write_all};
use itoa::Buffer;

fn write<E: Sink>(err: &mut E, text: &[u8])
    ensures { SaysText (E.taken err.old) (E.taken err.new) (E.faults err.old)
        (E.faults err.new) text.now }
{
    let _written = write_all(err, text);
}

// Writes a text in parts, up to a write that fails.
fn write_parts<E: Sink>(err: &mut E, parts: &[&[u8]])
    ensures { SaysText (E.taken err.old) (E.taken err.new) (E.faults err.old) (E.faults err.new)
        (concat (map (λ part. part.now) parts.now)) }
{
    for part in parts {
        if !write_all(err, part) {
            return;
        }
    }
}

fn write_bad_input<E: Sink>(err: &mut E, line: u64)
    ensures { SaysText (E.taken err.old) (E.taken err.new) (E.faults err.old) (E.faults err.new)
        (codes "bad input at line " ++ decimal line ++ codes "\n") }
{
    let mut buffer = Buffer::new();
    let line = buffer.format(line).as_bytes();
    write_parts(err, &[b"bad input at line ", line, b"\n"]);
}

fn write_store_fault<E: Sink>(err: &mut E, role: RoleId)
    ensures { SaysText (E.taken err.old) (E.taken err.new) (E.faults err.old) (E.faults err.new)
        (codes "store failed: " ++ role_text role ++ codes "\n") }
{
    let kind = role.kind.text().as_bytes();
    let mut buffer = Buffer::new();
    let index = buffer.format(role.index).as_bytes();
    write_parts(err, &[b"store failed: ", kind, b":", index, b"\n"]);
}

fn write_not_fresh<E: Sink>(err: &mut E, role: RoleId)
    ensures { SaysText (E.taken err.old) (E.taken err.new) (E.faults err.old) (E.faults err.new)
        (codes "store not empty: " ++ role_text role ++ codes "\n") }
{
    let kind = role.kind.text().as_bytes();
    let mut buffer = Buffer::new();
    let index = buffer.format(role.index).as_bytes();
    write_parts(err, &[b"store not empty: ", kind, b":", index, b"\n"]);
}

fn write_bad_store<E: Sink>(err: &mut E, role: RoleId, at: u64)
    ensures { SaysText (E.taken err.old) (E.taken err.new) (E.faults err.old) (E.faults err.new)
        (codes "bad store: " ++ role_text role ++ codes " at " ++ decimal at ++ codes "\n") }
{
    let kind = role.kind.text().as_bytes();
    let mut buffer = Buffer::new();
    let index = buffer.format(role.index).as_bytes();
    let mut at_buffer = Buffer::new();
    let at = at_buffer.format(at).as_bytes();
    write_parts(
        err,
        &[b"bad store: ", kind, b":", index, b" at ", at, b"\n"],
    );
}

/// Writes the line of a status, which is empty where all went well.
pub fn write_line<E: Sink>(err: &mut E, status: &Status)
    ensures { SaysText (E.taken err.old) (E.taken err.new) (E.faults err.old) (E.faults err.new)
        (line_of status.now) }
{
    match status {
        Status::Done => write(err, b""),
        Status::BadWords => write(err, b"bad words\n"),
        Status::BadInput { line } => write_bad_input(err, *line),
        Status::ReadFault => write(err, b"read failed\n"),
        Status::WriteFault => write(err, b"write failed\n"),
        Status::LinkFault => write(err, b"link failed\n"),
        Status::StoreFault { role } => write_store_fault(err, *role),
        Status::Turns => write(err, b"turns ended\n"),
        Status::NoMemory => write(err, b"no memory\n"),
        Status::BadStore { role, at } => write_bad_store(err, *role, *at),
        Status::NotFresh { role } => write_not_fresh(err, *role),
        Status::RecordFull => write(err, b"record full\n"),
    }
}
