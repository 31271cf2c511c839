//! Records as the bytes that spell them.

ghost use Rattle.std.specs.Prelude.{◌≡◌, ◌++◌, ◌∷◌, [], IfOk, IsTrue, OnOk, OnErr, length, slice_get};
ghost use Rattle.cx_letter.specs.Records.{fits};
ghost use Rattle.cx_keep.specs.Keeper.{all_fit};
ghost use Rattle.cx_keeper.specs.Pieces.{ArePieces, IsPiece, IsPut, record_at, records_at};

use cx_base::NoMemory;
use cx_letter::Record;
use cx_msg::{WireFault, record_from, record_into};
use std::alloc::Global;
use std::marker::Model;

/// Where in a buffer the bytes of a record begin, and how many they are.
#[derive(Clone, Copy)]
pub struct Piece {
    pub from: usize,
    pub size: usize,
}

/// Records in the order in which they were kept. What is held is the bytes that spell them, all in one buffer. A record is
/// read when it is asked for.
#[derive(Drop)]
pub struct Records {
    alloc: Global,
    bytes: Vec<u8>,
    pieces: Vec<Piece>,
}

impl Model for Records {
    ghost use Rattle.std.specs.Prelude.{List};
    ghost use Rattle.cx_letter.specs.declared.kept.Record.{Record};
    ghost use Rattle.cx_keeper.specs.Pieces.{ArePieces, records_at};

    ghost Value = { List Record };

    ghost view = { λ r. records_at r.bytes.items r.pieces.items };

    ghost invariant = { λ r. ArePieces r.bytes.items r.pieces.items };
}

// Puts the bytes of a record at the end of a buffer. Out of memory, it puts none.
fn put_piece(alloc: Global, what: &Record, bytes: &mut Vec<u8>) -> Result<Piece, NoMemory>
    requires { IsTrue (fits what.now) }
    ensures ok { IfOk result (λ piece. IsPut what.now bytes.old.items piece bytes.new.items) }
    ensures err { OnErr result (bytes.new.items ≡ bytes.old.items) }
{
    let from = bytes.len();
    record_into(alloc, what, bytes)?;
    Ok(Piece {
        from,
        size: bytes.len() - from,
    })
}

// The record of a piece.
fn read_piece(alloc: Global, bytes: &[u8], piece: Piece) -> Result<Record, NoMemory>
    requires { IsPiece bytes.now piece }
    ensures { IfOk result (λ found. found ≡ record_at bytes.now piece) }
{
    let rest = &bytes[piece.from..];
    match record_from(alloc, &rest[..piece.size]) {
        Ok(record) => Ok(record),
        Err(WireFault::NoMemory) => Err(NoMemory),
        // What was spelled is read.
        Err(_) => unreachable!(),
    }
}

// The records of pieces.
fn read_pieces(alloc: Global, bytes: &[u8], pieces: &[Piece]) -> Result<Vec<Record>, NoMemory>
    requires { ArePieces bytes.now pieces.now }
    ensures { IfOk result (λ list. list.items ≡ records_at bytes.now pieces.now) }
{
    let mut list = Vec::with_capacity(alloc, pieces.len())?;
    for piece in pieces {
        list.push(read_piece(alloc, bytes, *piece)?)?;
    }
    Ok(list)
}

// The piece of a number.
fn piece_of(pieces: &[Piece], number: usize) -> Option<Piece>
    ensures { result ≡ slice_get pieces.now number }
{
    pieces.get(number).copied()
}

impl Records {
    /// No records. It takes no memory.
    pub fn new(alloc: Global) -> Self
        ensures { result ≡ [] }
    {
        Records {
            alloc,
            bytes: Vec::new(alloc),
            pieces: Vec::new(alloc),
        }
    }

    /// These records.
    pub fn of(alloc: Global, records: &[Record]) -> Result<Self, NoMemory>
        requires { IsTrue (all_fit records.now) }
        ensures { IfOk result (λ made. made ≡ records.now) }
    {
        let mut made = Records::new(alloc);
        for what in records {
            made.push(what)?;
        }
        Ok(made)
    }

    /// How many they are.
    pub fn len(&self) -> usize
        ensures { result ≡ length self.now }
    {
        self.pieces.len()
    }

    /// The record of this number, from 0 on.
    pub fn get(&self, number: usize) -> Result<Option<Record>, NoMemory>
        ensures { IfOk result (λ found. found ≡ slice_get self.now number) }
    {
        match piece_of(&self.pieces, number) {
            None => Ok(None),
            Some(piece) => Ok(Some(read_piece(self.alloc, &self.bytes, piece)?)),
        }
    }

    /// All of them.
    pub fn all(&self) -> Result<Vec<Record>, NoMemory>
        ensures { IfOk result (λ list. list.items ≡ self.now) }
    {
        read_pieces(self.alloc, &self.bytes, &self.pieces)
    }

    /// Adds a record at the end. Out of memory, nothing changes.
    pub fn push(&mut self, what: &Record) -> Result<(), NoMemory>
        requires { IsTrue (fits what.now) }
        ensures ok { OnOk result (self.new ≡ self.old ++ what.now ∷ []) }
        ensures err { OnErr result (self.new ≡ self.old) }
    {
        self.pieces.reserve(1)?;
        let piece = put_piece(self.alloc, what, &mut self.bytes)?;
        self.pieces.push_reserved(piece);
        Ok(())
    }
}
