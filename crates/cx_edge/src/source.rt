//! Sources of bytes.

ghost use Rattle.std.specs.Prelude.{◌≡◌, ◌≤◌, ℕ, Option, List};
ghost use Rattle.cx_base.specs.Faults.{Rises};
ghost use Rattle.cx_edge.specs.declared.source.ReadEnd.TheVariants.{Failed};
ghost use Rattle.cx_edge.specs.Source.{ReadsBytes, ReadKeepsCount, ReadsAll, ReadAllTellsFault, ReadAllKeepsCount};

use std::alloc::{AllocError, Global};

/// This many bytes were read, or the read failed.
#[derive(Clone, Copy, Debug, PartialEq, Eq)]
pub enum ReadEnd {
    /// This many bytes, which are now the first of the buffer.
    Got(usize),
    /// None, and the fault was counted.
    Failed,
}

/// Bytes that come in pieces, and reads that may fail.
pub trait Source {
    /// The bytes that are left, where they are known.
    ghost left: { Self → Option (List ℕ) };

    /// How often it has failed.
    ghost faults: { Self → ℕ };

    /// Reads the next bytes into the start of the buffer; no bytes, for a buffer that isn't empty, are the end. Where it
    /// fails nothing is lost, and the count of faults rises (or is at its end); else the count stays.
    fn read(&mut self, buffer: &mut [u8]) -> ReadEnd
        ensures bytes { ReadsBytes (left self.old) (left self.new) result buffer.new }
        ensures cause { result ≡ Failed → Rises (faults self.old) (faults self.new) }
        ensures still { ReadKeepsCount result (faults self.old) (faults self.new) }
        ensures later { faults self.old ≤ faults self.new };
}

/// The result of a whole reading.
#[derive(Drop)]
pub enum ReadAll {
    /// These are all bytes that were left.
    Whole(Vec<u8>),
    /// These are more bytes than the limit, and there may be others after them.
    TooLong(Vec<u8>),
    /// A read failed after these bytes.
    Failed(Vec<u8>),
    /// Out of memory.
    NoMemory,
}

const PIECE: usize = 4096;

/// Reads all bytes that are left, or more than `limit`, and returns what it has read. `Failed` comes exactly where a read
/// failed, and only then the count of faults changes. Out of memory, the bytes that it has read are lost.
pub fn read_all<S: Source>(alloc: Global, source: &mut S, limit: usize) -> ReadAll
    ensures bytes { ReadsAll limit (S.left source.old) (S.left source.new) result }
    ensures cause { ReadAllTellsFault result (S.faults source.old) (S.faults source.new) }
    ensures still { ReadAllKeepsCount result (S.faults source.old) (S.faults source.new) }
    ensures later { S.faults source.old ≤ S.faults source.new }
{
    let mut bytes = Vec::new(alloc);
    let mut piece = [0; PIECE];
    while bytes.len() <= limit {
        match source.read(&mut piece) {
            ReadEnd::Failed => return ReadAll::Failed(bytes),
            ReadEnd::Got(0) => return ReadAll::Whole(bytes),
            ReadEnd::Got(count) => {
                if let Err(AllocError) = bytes.extend_from_slice(&piece[..count]) {
                    return ReadAll::NoMemory;
                }
            }
        }
    }
    ReadAll::TooLong(bytes)
}
