//! What a reader remembers of its records: its last turn.

ghost use Rattle.std.specs.Prelude.{◌≡◌, ◌+◌, ◌==◌, ◌&&◌, ◌||◌, nat_le};
ghost use Rattle.cx_model.specs.Reader.{last_turn, reader_after, reader_fits};

use crate::Reader;
use cx_letter::Record;

/// The last turn: after it no batch begins.
pub const LAST_TURN: u64 = u64::MAX;

// Whether a turn is the next one, or the first of a list.
fn may_follow(last: u64, turn: u64) -> bool
    ensures { result ≡ ((turn == last + 1 || last == 0) && nat_le turn last_turn) }
{
    last == 0 || (last < LAST_TURN && turn == last + 1)
}

impl Reader {
    /// Whether it could have appended this record: its next turn, or as the first record any, since its list may have been put anew.
    pub(crate) fn fits(&self, what: &Record) -> bool
        ensures { result ≡ reader_fits self.now.cluster self.now.me self.now.durable what.now }
    {
        match what {
            Record::Turn { turn } => may_follow(self.turn, *turn),
            _ => false,
        }
    }

    /// Remembers a record.
    pub(crate) fn remember(&mut self, what: &Record)
        ensures { self.new ≡ record self.old { durable = reader_after self.old.durable what.now } }
    {
        if let Record::Turn { turn } = what {
            self.turn = self.turn.max(*turn);
        }
    }
}
