//! Where a record breaks off whose bytes are not all there.

ghost use Rattle.std.specs.Prelude.{◌≡◌, ◌≤◌, IfOk, length};
ghost use Rattle.cx_wire.specs.Format.{short_field};
ghost use Rattle.cx_msg.specs.RecordBytes.{break_place, break_of_part};

use crate::records::{fields_from, is_tag};
use cx_base::NoMemory;
use cx_field::{ByteReader, ReadFault};
use std::alloc::Global;

// Where bytes break at a field that takes more of them than are left.
#[tactic(auto, unfolding(crate::specs::RecordBytes::break_place))]
fn cut_place(said: usize, have: usize, left: usize, need: usize) -> usize
    ensures place { result ≡ break_place said have (short_field left need) }
    ensures within { result ≤ have }
{
    let at = have.saturating_sub(left);
    if left < need && need <= said.saturating_sub(at) {
        have
    } else {
        at
    }
}

/// Where a record of `said` bytes breaks if no more of them are there than these first ones, in bytes from its first: a tag that
/// is none at 0; a field that is out of its range, or that would reach past the `said` bytes, at its first byte; bytes after
/// the last field at the first of them; and else where these bytes end. The format is this project's own.
#[tactic(auto, unfolding(crate::specs::RecordBytes::break_place, crate::specs::RecordBytes::part_ended, crate::specs::RecordBytes::part_with_tag))]
pub fn break_of_part(alloc: Global, bytes: &[u8], said: usize) -> Result<usize, NoMemory>
    ensures place { IfOk result (λ at. at ≡ break_of_part said bytes.now) }
    ensures within { IfOk result (λ at. at ≤ length bytes.now) }
{
    let have = bytes.len();
    let mut reader = ByteReader::new(bytes);
    let tag = match reader.u8() {
        Ok(tag) => tag,
        Err(ReadFault::Bad { .. } | ReadFault::Cut { .. }) => return Ok(have),
        Err(ReadFault::NoMemory) => return Err(NoMemory),
    };
    if !is_tag(tag) {
        return Ok(0);
    }
    match fields_from(tag, alloc, &mut reader) {
        Ok(_) => Ok(have.saturating_sub(reader.left())),
        Err(ReadFault::Bad { left }) => Ok(have.saturating_sub(left)),
        Err(ReadFault::Cut { left, need }) => Ok(cut_place(said, have, left, need)),
        Err(ReadFault::NoMemory) => Err(NoMemory),
    }
}
