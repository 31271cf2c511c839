//! Sinks for bytes.

ghost use Rattle.std.specs.Prelude.{◌≡◌, ◌≤◌, ℕ, Option, List, true, false};
ghost use Rattle.cx_base.specs.Faults.{Rises};
ghost use Rattle.cx_edge.specs.declared.sink.WriteEnd.TheVariants.{Failed};
ghost use Rattle.cx_edge.specs.Sink.{Writes, WriteKeepsCount, WritesAll};

use crate::Remark;

/// This many bytes were taken, or the write failed.
#[derive(Clone, Copy, Debug, PartialEq, Eq)]
pub enum WriteEnd {
    /// The first bytes of the piece, this many.
    Took(usize),
    /// None, and the fault was counted.
    Failed,
}

/// What takes bytes in pieces, by writes that may fail.
pub trait Sink {
    /// The bytes that it has taken, where they are known.
    ghost taken: { Self → Option (List ℕ) };

    /// How often it has failed.
    ghost faults: { Self → ℕ };

    /// Takes the first bytes of a piece, of one that isn't empty at least one. Where it fails nothing is taken, and the
    /// count of faults rises (or is at its end); else the count stays.
    fn write(&mut self, piece: &[u8]) -> WriteEnd
        ensures bytes { Writes (taken self.old) (taken self.new) result piece.now }
        ensures cause { result ≡ Failed → Rises (faults self.old) (faults self.new) }
        ensures still { WriteKeepsCount result (faults self.old) (faults self.new) }
        ensures later { faults self.old ≤ faults self.new };

    /// Hears what isn't for its reader but for whoever watches, and takes no byte of it. Without a body of its own it forgets it.
    fn remark(&mut self, _remark: Remark)
        ensures taken { taken self.new ≡ taken self.old }
        ensures still { faults self.new ≡ faults self.old }
    {}
}

/// Writes all bytes, and returns whether no write failed. Where one failed, a prefix of the bytes is written and the count
/// of faults has risen (or is at its end); else the count stays.
pub fn write_all<W: Sink>(sink: &mut W, bytes: &[u8]) -> bool
    ensures bytes { WritesAll (W.taken sink.old) (W.taken sink.new) result bytes.now }
    ensures cause { result ≡ false → Rises (W.faults sink.old) (W.faults sink.new) }
    ensures still { result ≡ true → W.faults sink.new ≡ W.faults sink.old }
    ensures later { W.faults sink.old ≤ W.faults sink.new }
{
    let mut done = 0;
    while done < bytes.len() {
        match sink.write(&bytes[done..]) {
            WriteEnd::Took(count) => done += count,
            WriteEnd::Failed => return false,
        }
    }
    true
}
