//! What was kept: the changes of stores.

ghost use Rattle.std.specs.Prelude.{◌≡◌, ◌≤◌, ◌<◌, ◌^◌, ◌++◌, ◌∷◌, [], All, IfOk, OnOk, OnErr, IsTrue, Ok, Some, length, slice_get};
ghost use Rattle.byteorder.specs.Endian.{big_bytes};
ghost use Rattle.cx_msg.specs.RecordBytes.{record_of_bytes};
ghost use Rattle.cx_history.specs.Kept.{IsChangePiece, AreKeptPieces, HasU64Slot, change_fits, change_in, changes_in, holds_slot, kept_with_roles, piece_of, record_in, slot_in};

use byteorder::{BigEndian, ByteOrder};
use cx_base::{NoMemory, RoleId};
use cx_letter::{KeptRecord, Record, Written};
use cx_msg::{WireFault, record_from, record_into};
use cx_pieces::Pieces;
use cx_wire::put_u64;
use std::alloc::Global;
use std::marker::Model;

/// The changes of stores in the order in which they were made, each with the role whose store it is: a record behind the others,
/// or a list that forgets values in the place of all, of which the history has its first slot alone. What is held of a change
/// is bytes: it is read when it is asked for.
#[derive(Drop)]
pub struct Kept {
    alloc: Global,
    roles: Vec<RoleId>,
    changes: Pieces,
    // The bytes of one change on their way to the others.
    bytes: Vec<u8>,
}

impl Model for Kept {
    ghost use Rattle.std.specs.Prelude.{List};
    ghost use Rattle.cx_letter.specs.declared.input.KeptRecord.{KeptRecord};
    ghost use Rattle.cx_history.specs.Kept.{AreKeptPieces, changes_in, kept_with_roles};

    ghost Value = { List KeptRecord };

    ghost view = { λ k. kept_with_roles k.roles.items (changes_in k.changes) };

    ghost invariant = { λ k. AreKeptPieces k.roles.items k.changes };
}

// Puts a 0 and a slot behind bytes.
fn put_slot(first: u64, bytes: &mut Vec<u8>) -> Result<(), NoMemory>
    requires { bytes.old.items ≡ [] }
    ensures bytes { OnOk result (bytes.new.items ≡ 0 ∷ big_bytes 8 first) }
    ensures slot { first < 256 ^ 8 }
{
    bytes.push(0)?;
    put_u64(bytes, first)?;
    Ok(())
}

// The bytes of a change, in the place of those that are there.
fn spell(alloc: Global, what: &Written, bytes: &mut Vec<u8>) -> Result<(), NoMemory>
    ensures bytes { OnOk result (bytes.new.items ≡ piece_of what.now) }
    ensures slot { OnOk result (HasU64Slot what.now) }
{
    bytes.clear();
    match what {
        Written::Record { what } => record_into(alloc, what, bytes)?,
        Written::Snap { first } => put_slot(*first, bytes)?,
    }
    Ok(())
}

// Puts a change after the other pieces, by way of its bytes. Out of memory, it puts none.
fn put_change(
    alloc: Global,
    what: &Written,
    bytes: &mut Vec<u8>,
    pieces: &mut Pieces,
) -> Result<(), NoMemory>
    requires { IsTrue (change_fits what.now) }
    ensures changes { OnOk result (changes_in pieces.new ≡ changes_in pieces.old ++ what.now ∷ []) }
    ensures pieces { All IsChangePiece pieces.old → All IsChangePiece pieces.new }
    ensures err { OnErr result (pieces.new ≡ pieces.old) }
{
    spell(alloc, what, bytes)?;
    pieces.push(bytes)?;
    Ok(())
}

// Whether a piece holds a slot.
fn holds_slot(piece: &[u8]) -> bool
    ensures { result ≡ holds_slot piece.now }
{
    !piece.is_empty() && piece[0] == 0
}

// The slot of a piece.
fn read_slot(piece: &[u8]) -> u64
    requires { 9 ≤ length piece.now }
    ensures { result ≡ slot_in piece.now }
{
    BigEndian::read_u64(&piece[1..])
}

// The record of a piece.
fn read_record(alloc: Global, piece: &[u8]) -> Result<Record, NoMemory>
    requires { record_of_bytes piece.now ≡ Ok (record_in piece.now) }
    ensures { IfOk result (λ what. what ≡ record_in piece.now) }
{
    match record_from(alloc, piece) {
        Ok(what) => Ok(what),
        Err(WireFault::NoMemory) => Err(NoMemory),
        // What was spelled is read.
        Err(_) => unreachable!(),
    }
}

// The change of a piece.
fn read_piece(alloc: Global, piece: &[u8]) -> Result<Written, NoMemory>
    requires { IsChangePiece piece.now }
    ensures { IfOk result (λ what. what ≡ change_in piece.now) }
{
    if holds_slot(piece) {
        return Ok(Written::Snap {
            first: read_slot(piece),
        });
    }
    let what = read_record(alloc, piece)?;
    Ok(Written::Record { what })
}

// The change of a number.
fn read_change(alloc: Global, pieces: &Pieces, number: usize) -> Result<Written, NoMemory>
    requires pieces { All IsChangePiece pieces.now }
    requires number { number < length pieces.now }
    ensures what { IfOk result (λ what. slice_get (changes_in pieces.now) number ≡ Some what) }
{
    match pieces.get(number) {
        Some(piece) => read_piece(alloc, piece),
        None => unreachable!(),
    }
}

impl Kept {
    /// Nothing was kept. It takes no memory.
    pub fn new(alloc: Global) -> Self
        ensures { result ≡ [] }
    {
        Kept {
            alloc,
            roles: Vec::new(alloc),
            changes: Pieces::new(alloc),
            bytes: Vec::new(alloc),
        }
    }

    /// How many changes were made.
    pub fn len(&self) -> usize
        ensures { result ≡ length self.now }
    {
        self.roles.len()
    }

    /// The change of this number, from 0 on, which was made.
    pub fn at(&self, number: usize) -> Result<KeptRecord, NoMemory>
        requires { number < length self.now }
        ensures { IfOk result (λ one. slice_get self.now number ≡ Some one) }
    {
        let role = self.roles[number];
        let what = read_change(self.alloc, &self.changes, number)?;
        Ok(KeptRecord { role, what })
    }

    /// Notes the last change, of this role's store. Out of memory, it changes nothing.
    pub fn push(&mut self, role: RoleId, what: &Written) -> Result<(), NoMemory>
        requires { IsTrue (change_fits what.now) }
        ensures ok { OnOk result
            (self.new ≡ self.old ++ record { role = role; what = what.now } ∷ []) }
        ensures err { OnErr result (self.new ≡ self.old) }
    {
        self.roles.reserve(1)?;
        put_change(self.alloc, what, &mut self.bytes, &mut self.changes)?;
        self.roles.push_reserved(role);
        Ok(())
    }
}
