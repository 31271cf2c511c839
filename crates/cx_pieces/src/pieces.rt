//! Pieces of bytes in chunks.

ghost use Rattle.std.specs.Prelude.{◌≡◌, ◌<◌, ◌+◌, ◌++◌, ◌∷◌, [], IfOk, OnOk, OnErr, length, slice_get};
ghost use Rattle.std.specs.Option.{option_copied};
ghost use Rattle.cx_pieces.specs.Chunks.{AreFull, all_of};

use crate::chunk::Chunk;
use bytes::{Bytes, BytesMut};
use cx_base::NoMemory;
use std::alloc::Global;
use std::marker::Model;

// How many pieces a chunk has.
const SIZE: usize = 256;

/// Pieces of bytes, numbered from 0. The first ones are held in chunks of 256, a buffer and where each piece ends in it; of those
/// after them each is held by itself, until they are as many as a chunk has.
#[derive(Drop)]
pub struct Pieces {
    alloc: Global,
    count: usize,
    chunks: Vec<Chunk>,
    last: Vec<Bytes>,
    // Room for the bytes of the next pieces.
    room: BytesMut,
}

impl Model for Pieces {
    ghost use Rattle.std.specs.Prelude.{ℕ, List, ◌++◌};
    ghost use Rattle.cx_pieces.specs.Chunks.{ArePieceChunks, all_of};

    ghost Value = { List (List ℕ) };

    ghost view = { λ p. all_of p.chunks.items ++ p.last.items };

    ghost invariant = { λ p. ArePieceChunks p.count p.chunks.items p.last.items p.room.items };
}

// One more. More than a count can tell are answered as out of memory.
fn next(count: usize) -> Result<usize, NoMemory>
    ensures { IfOk result (λ n. n ≡ count + 1) }
{
    count.checked_add(1).ok_or(NoMemory)
}

// The chunk of a number, None exactly where there is none.
fn chunk_at(chunks: &[Chunk], number: usize) -> Option<&Chunk>
    ensures { option_copied result ≡ slice_get chunks.now number }
{
    chunks.get(number)
}

// The bytes of a piece in chunks, None exactly where there is none.
fn piece_of(chunks: &[Chunk], number: usize) -> Option<&[u8]>
    requires { AreFull 256 chunks.now }
    ensures { option_copied result ≡ slice_get (all_of chunks.now) number }
{
    match chunk_at(chunks, number / SIZE) {
        None => None,
        Some(chunk) => chunk.get(number % SIZE),
    }
}

// A piece in chunks, None exactly where there is none.
fn shared_of(chunks: &[Chunk], number: usize) -> Result<Option<Bytes>, NoMemory>
    requires { AreFull 256 chunks.now }
    ensures { IfOk result (λ piece. piece ≡ slice_get (all_of chunks.now) number) }
{
    match chunk_at(chunks, number / SIZE) {
        None => Ok(None),
        Some(chunk) => chunk.shared(number % SIZE),
    }
}

// The bytes of a piece in a list, None exactly where there is none.
fn lent(pieces: &[Bytes], number: usize) -> Option<&[u8]>
    ensures { option_copied result ≡ slice_get pieces.now number }
{
    match pieces.get(number) {
        None => None,
        Some(piece) => Some(piece.as_slice()),
    }
}

// A piece in a list, None exactly where there is none.
fn cloned(pieces: &[Bytes], number: usize) -> Result<Option<Bytes>, NoMemory>
    ensures { IfOk result (λ piece. piece ≡ slice_get pieces.now number) }
{
    match pieces.get(number) {
        None => Ok(None),
        Some(piece) => Ok(Some(piece.clone()?)),
    }
}

// Copies a piece into the room, and cuts it off there.
fn put_piece(room: &mut BytesMut, piece: &[u8]) -> Result<Bytes, NoMemory>
    requires { room.old.items ≡ [] }
    ensures piece { IfOk result (λ stored. stored ≡ piece.now) }
    ensures room { room.new.items ≡ [] }
{
    room.extend_from_slice(piece)?;
    match room.freeze_to(piece.len()) {
        Ok(stored) => Ok(stored),
        Err(_) => {
            room.clear();
            Err(NoMemory)
        }
    }
}

// Makes a chunk of the last pieces where they are as many as one has.
fn close(alloc: Global, chunks: &mut Vec<Chunk>, last: &mut Vec<Bytes>) -> Result<(), NoMemory>
    ensures same { all_of chunks.new.items ++ last.new.items
        ≡ all_of chunks.old.items ++ last.old.items }
    ensures full { AreFull 256 chunks.old.items → AreFull 256 chunks.new.items }
{
    if last.len() != SIZE {
        return Ok(());
    }
    let chunk = Chunk::of(alloc, last)?;
    chunks.push(chunk)?;
    last.clear();
    Ok(())
}

impl Pieces {
    /// No pieces. It takes no memory.
    pub fn new(alloc: Global) -> Self
        ensures { result ≡ [] }
    {
        Pieces {
            alloc,
            count: 0,
            chunks: Vec::new(alloc),
            last: Vec::new(alloc),
            room: BytesMut::new(alloc),
        }
    }

    /// How many they are.
    pub fn len(&self) -> usize
        ensures { result ≡ length self.now }
    {
        self.count
    }

    /// The bytes of the piece of this number, None exactly where there is none.
    pub fn get(&self, number: usize) -> Option<&[u8]>
        ensures { option_copied result ≡ slice_get self.now number }
    {
        let closed = self.count - self.last.len();
        if number < closed {
            return piece_of(&self.chunks, number);
        }
        lent(&self.last, number - closed)
    }

    /// The piece of this number, None exactly where there is none: it shares a buffer with others, and no byte is copied.
    pub fn shared(&self, number: usize) -> Result<Option<Bytes>, NoMemory>
        ensures { IfOk result (λ piece. piece ≡ slice_get self.now number) }
    {
        let closed = self.count - self.last.len();
        if number < closed {
            return shared_of(&self.chunks, number);
        }
        cloned(&self.last, number - closed)
    }

    /// One piece more, after the others. Out of memory, it changes nothing; more than 4,294,967,295 bytes in a chunk are
    /// answered as out of memory too.
    pub fn push(&mut self, piece: &[u8]) -> Result<(), NoMemory>
        ensures ok { OnOk result (self.new ≡ self.old ++ piece.now ∷ []) }
        ensures err { OnErr result (self.new ≡ self.old) }
    {
        let count = next(self.count)?;
        close(self.alloc, &mut self.chunks, &mut self.last)?;
        self.last.reserve(1)?;
        let stored = put_piece(&mut self.room, piece)?;
        self.last.push_reserved(stored);
        self.count = count;
        Ok(())
    }
}
