//! What a recording node knows of its record.

ghost use Rattle.std.specs.Prelude.{◌≡◌, ◌+◌, ◌<◌, ◌++◌, ◌∷◌, [], ℕ, List, true, IfOk, OnOk, OnErr, Some, bytes_eq, if◌then◌else◌};
ghost use Rattle.indexmap.specs.IndexMap.{spare};
ghost use Rattle.cx_record.specs.Numbers.{blank, has_room, last_sent};
ghost use Rattle.cx_record.specs.Table.{datagram_number};

use cx_base::{MAX_LINES, NoMemory};
use cx_history::Sent;
use cx_letter::Datagram;
use cx_msg::encode_into;
use indexmap::IndexMap;
use std::alloc::Global;
use std::marker::Model;

/// A datagram that was sent, with its number: datagrams are numbered from 0, in the order of sending.
#[derive(Drop)]
pub struct Numbered {
    pub number: u64,
    pub datagram: Datagram,
}

impl Model for Numbered {
    ghost use Rattle.cx_record.specs.Numbers.{Numbered, numbered};

    ghost Value = { Numbered };

    ghost view = { λ n. numbered n.number n.datagram };
}

/// The datagrams that a recording node has sent, and how many lines its record has. Its memory grows with what is sent: each
/// datagram is held, and all different bytes once more, so that a datagram is found by its bytes without a search among all.
#[derive(Drop)]
pub struct Recorder {
    alloc: Global,
    sent: Sent,
    // Of all bytes that were sent the number of the last datagram with them.
    numbers: IndexMap<Vec<u8>, u64>,
    lines: u64,
}

impl Model for Recorder {
    ghost use Rattle.cx_record.specs.Numbers.{Recorded};
    ghost use Rattle.cx_record.specs.Table.{AreNumbers};

    ghost Value = { Recorded };

    ghost view = { λ r. record { sent = r.sent; lines = r.lines } };

    ghost invariant = { λ r. AreNumbers r.numbers.entries r.sent };
}

// The number beside these bytes.
fn datagram_number(numbers: &IndexMap<Vec<u8>, u64>, bytes: &[u8]) -> Option<u64>
    ensures { result ≡ datagram_number bytes.now numbers.now.entries }
{
    numbers.get(bytes).copied()
}

// Puts a number beside these bytes, in the place of the one before. Room was taken beforehand.
fn put_number(numbers: &mut IndexMap<Vec<u8>, u64>, bytes: Vec<u8>, number: u64)
    requires { 0 < spare numbers.old }
    ensures { (others : List ℕ) → datagram_number others numbers.new.entries
        ≡ (if bytes_eq bytes.items others then Some number
        else datagram_number others numbers.old.entries) }
{
    match numbers.insert(bytes, number) {
        Ok(_) => {}
        // There is room.
        Err(_) => unreachable!(),
    }
}

impl Recorder {
    /// Nothing was sent, and no line was written. It takes no memory.
    pub fn new(alloc: Global) -> Self
        ensures { result ≡ blank }
    {
        Recorder {
            alloc,
            sent: Sent::new(alloc),
            numbers: IndexMap::new(alloc),
            lines: 0,
        }
    }

    /// Whether the record has room for so many lines more: it has 65,535 at most.
    pub fn has_room(&self, more: u64) -> bool
        ensures { result ≡ has_room more self.now }
    {
        self.lines.saturating_add(more) <= MAX_LINES
    }

    /// Counts lines that were written.
    pub fn count(&mut self, more: u64)
        requires { has_room more self.old ≡ true }
        ensures { self.new ≡ record { sent = self.old.sent; lines = self.old.lines + more } }
    {
        self.lines += more;
    }

    /// Notes a datagram that is sent, under the next number. Out of memory, it changes nothing.
    pub fn note(&mut self, datagram: &Datagram) -> Result<(), NoMemory>
        ensures ok { OnOk result (self.new
            ≡ record { sent = self.old.sent ++ datagram.now ∷ []; lines = self.old.lines }) }
        ensures err { OnErr result (self.new ≡ self.old) }
    {
        let mut bytes = Vec::new(self.alloc);
        encode_into(self.alloc, datagram, &mut bytes)?;
        self.numbers.reserve(1)?;
        let number = self.sent.len();
        self.sent.push(datagram)?;
        put_number(&mut self.numbers, bytes, number);
        Ok(())
    }

    /// The last datagram with these bytes that was sent, None exactly where none was.
    pub fn find(&self, bytes: &[u8]) -> Result<Option<Numbered>, NoMemory>
        ensures { IfOk result (λ found. found ≡ last_sent bytes.now self.now.sent) }
    {
        let Some(number) = datagram_number(&self.numbers, bytes) else {
            return Ok(None);
        };
        match self.sent.get(number)? {
            Some(datagram) => Ok(Some(Numbered { number, datagram })),
            // Only what was sent has a number.
            None => unreachable!(),
        }
    }
}
