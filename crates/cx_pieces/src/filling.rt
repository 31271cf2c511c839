//! Pieces of bytes one after the other in one buffer.

ghost use Rattle.std.specs.Prelude.{◌≡◌, ◌++◌, ◌∷◌, ◌+◌, [], IfOk, OnOk, OnErr};

use cx_base::NoMemory;
use std::alloc::Global;
use std::marker::Model;

/// A buffer of pieces, and where each of them ends in four bytes.
#[derive(Drop)]
pub struct Filling {
    pub bytes: Vec<u8>,
    pub ends: Vec<u32>,
}

impl Model for Filling {
    ghost use Rattle.std.specs.Prelude.{ℕ, List, length};
    ghost use Rattle.cx_pieces.specs.Ends.{AreEnds, split_at_ends};

    ghost Value = { List (List ℕ) };

    ghost view = { λ f. split_at_ends 0 f.ends.items f.bytes.items };

    ghost invariant = { λ f. AreEnds 0 f.ends.items (length f.bytes.items) };
}

// The end of one more piece of this length.
fn end_after(total: usize, more: usize) -> Result<u32, NoMemory>
    ensures { IfOk result (λ end. end ≡ total + more) }
{
    match total.checked_add(more) {
        None => Err(NoMemory),
        Some(end) => match u32::try_from(end) {
            Ok(end) => Ok(end),
            Err(_) => Err(NoMemory),
        },
    }
}

impl Filling {
    /// No pieces, with room for this many pieces and bytes.
    pub fn with_capacity(alloc: Global, pieces: usize, bytes: usize) -> Result<Self, NoMemory>
        ensures { IfOk result (λ filling. filling ≡ []) }
    {
        Ok(Filling {
            bytes: Vec::with_capacity(alloc, bytes)?,
            ends: Vec::with_capacity(alloc, pieces)?,
        })
    }

    /// One piece more, after the others. Out of memory, it changes nothing; more than 4,294,967,295 bytes in all are answered
    /// as out of memory too.
    pub fn push(&mut self, piece: &[u8]) -> Result<(), NoMemory>
        ensures ok { OnOk result (self.new ≡ self.old ++ piece.now ∷ []) }
        ensures err { OnErr result (self.new ≡ self.old) }
    {
        let end = end_after(self.bytes.len(), piece.len())?;
        self.ends.reserve(1)?;
        self.bytes.extend_from_slice(piece)?;
        self.ends.push_reserved(end);
        Ok(())
    }
}
