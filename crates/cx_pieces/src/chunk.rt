//! Pieces that share one buffer.

ghost use Rattle.std.specs.Prelude.{◌≡◌, ◌≤◌, ◌+◌, ◌-◌, IfOk, length, take, drop, slice_get, option_map};
ghost use Rattle.std.specs.Option.{option_copied};
ghost use Rattle.cx_pieces.specs.Ends.{begin_of};

use crate::filling::Filling;
use bytes::Bytes;
use cx_base::NoMemory;
use std::alloc::Global;
use std::marker::Model;

/// Pieces in one buffer that nothing is added to any more, numbered from 0.
#[derive(Drop)]
pub struct Chunk {
    bytes: Bytes,
    ends: Vec<u32>,
}

impl Model for Chunk {
    ghost use Rattle.std.specs.Prelude.{ℕ, List, length};
    ghost use Rattle.cx_pieces.specs.Ends.{AreEnds, split_at_ends};

    ghost Value = { List (List ℕ) };

    ghost view = { λ c. split_at_ends 0 c.ends.items c.bytes };

    ghost invariant = { λ c. AreEnds 0 c.ends.items (length c.bytes) };
}

// Where the piece of a number ends.
fn end_of(ends: &[u32], number: usize) -> Option<u32>
    ensures { result ≡ slice_get ends.now number }
{
    ends.get(number).copied()
}

// Where the piece of a number begins: where the one before it ends.
fn begin_of(ends: &[u32], number: usize) -> usize
    ensures { result ≡ begin_of 0 ends.now number }
{
    if number == 0 {
        return 0;
    }
    match end_of(ends, number - 1) {
        None => 0,
        Some(end) => end as usize,
    }
}

// The bytes from one place to another.
fn between(bytes: &[u8], begin: usize, end: usize) -> &[u8]
    requires order { begin ≤ end }
    requires within { end ≤ length bytes.now }
    ensures { result.now ≡ take (end - begin) (drop begin bytes.now) }
{
    let rest = &bytes[begin..];
    &rest[..end - begin]
}

// The bytes from one place to another, in the same buffer.
fn shared_between(bytes: &Bytes, begin: usize, end: usize) -> Result<Bytes, NoMemory>
    requires order { begin ≤ end }
    requires within { end ≤ length bytes.now }
    ensures { IfOk result (λ part. part ≡ take (end - begin) (drop begin bytes.now)) }
{
    Ok(bytes.slice(begin..end)?)
}

// How many bytes the pieces are: the room that they take.
fn room_of(pieces: &[Bytes]) -> usize {
    let mut room: usize = 0;
    for piece in pieces {
        room = room.saturating_add(piece.len());
    }
    room
}

// Pieces one after the other.
fn filled(alloc: Global, pieces: &[Bytes]) -> Result<Filling, NoMemory>
    ensures { IfOk result (λ filling. filling ≡ pieces.now) }
{
    let mut filling = Filling::with_capacity(alloc, pieces.len(), room_of(pieces))?;
    for piece in pieces {
        filling.push(piece.as_slice())?;
    }
    Ok(filling)
}

impl Chunk {
    /// The same pieces, in a buffer of their own.
    pub fn of(alloc: Global, pieces: &[Bytes]) -> Result<Self, NoMemory>
        ensures { IfOk result (λ chunk. chunk ≡ pieces.now) }
    {
        let Filling { bytes, ends } = filled(alloc, pieces)?;
        Ok(Chunk {
            bytes: Bytes::from_vec(bytes)?,
            ends,
        })
    }

    /// The bytes of the piece of this number, None exactly where there is none.
    pub fn get(&self, number: usize) -> Option<&[u8]>
        ensures { option_copied result ≡ slice_get self.now number }
    {
        match end_of(&self.ends, number) {
            None => None,
            Some(end) => Some(between(
                self.bytes.as_slice(),
                begin_of(&self.ends, number),
                end as usize,
            )),
        }
    }

    /// The piece of this number, None exactly where there is none: it shares the buffer, and no byte is copied.
    pub fn shared(&self, number: usize) -> Result<Option<Bytes>, NoMemory>
        ensures { IfOk result (λ piece. piece ≡ slice_get self.now number) }
    {
        match end_of(&self.ends, number) {
            None => Ok(None),
            Some(end) => {
                let begin = begin_of(&self.ends, number);
                Ok(Some(shared_between(&self.bytes, begin, end as usize)?))
            }
        }
    }
}
