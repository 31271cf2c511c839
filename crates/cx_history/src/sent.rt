//! The datagrams that were sent.

ghost use Rattle.std.specs.Prelude.{◌≡◌, ◌<◌, ◌+◌, ◌-◌, ◌^◌, ◌++◌, ◌∷◌, [], if◌then◌else◌, IfOk, IfSome, OnOk, OnErr, length, option_map, slice_get};
ghost use Rattle.cx_msg.specs.Spelled.{IsShort, letter_of};
ghost use Rattle.cx_history.specs.Begins.{IsPrefix};
ghost use Rattle.cx_history.specs.Answers.{answers_in, read_answers_in};

use crate::kinds::{is_answer, is_read_answer};
use crate::short::{put_datagram, read_datagram, shared};
use bytes::Bytes;
use cx_base::NoMemory;
use cx_letter::Datagram;
use cx_pieces::Pieces;
use std::alloc::Global;
use std::marker::Model;

/// The datagrams that were sent, numbered from 0 in the order of sending. What is held of one is its bytes, but for those that the
/// others give: a datagram is read when it is asked for.
#[derive(Drop)]
pub struct Sent {
    alloc: Global,
    pieces: Pieces,
    // The bytes of one datagram on their way to the others.
    bytes: Vec<u8>,
    answers: u64,
    reads: u64,
}

impl Model for Sent {
    ghost use Rattle.std.specs.Prelude.{List};
    ghost use Rattle.cx_letter.specs.Letter.{Letter};
    ghost use Rattle.cx_history.specs.Short.{AreSentPieces, letters_of};

    ghost Value = { List Letter };

    ghost view = { λ s. letters_of s.pieces };

    ghost invariant = { λ s. AreSentPieces s.pieces s.answers s.reads };
}

// One more where there is one.
fn counted(count: u64, is_one: bool) -> u64
    requires { count < 2 ^ 64 - 1 }
    ensures { result ≡ (if is_one then count + 1 else count) }
{
    if is_one { count + 1 } else { count }
}

impl Sent {
    /// Nothing was sent. It takes no memory.
    pub fn new(alloc: Global) -> Self
        ensures { result ≡ [] }
    {
        Sent {
            alloc,
            pieces: Pieces::new(alloc),
            bytes: Vec::new(alloc),
            answers: 0,
            reads: 0,
        }
    }

    /// How many were sent.
    pub fn len(&self) -> u64
        ensures { result ≡ length self.now }
    {
        self.pieces.len() as u64
    }

    /// How many of them answer a command.
    pub fn answers(&self) -> u64
        ensures { result ≡ answers_in self.now }
    {
        self.answers
    }

    /// How many of them answer a read or a session read.
    pub fn read_answers(&self) -> u64
        ensures { result ≡ read_answers_in self.now }
    {
        self.reads
    }

    /// The bytes that spell the datagram of this number, None exactly where it wasn't sent. They share their chunk with others:
    /// no byte is copied.
    pub fn spelled(&self, number: u64) -> Result<Option<Bytes>, NoMemory>
        ensures short { IfOk result (λ bytes. IfSome bytes IsShort) }
        ensures letter { IfOk result
            (λ bytes. option_map letter_of bytes ≡ slice_get self.now number) }
    {
        let number = number as usize;
        if number >= self.pieces.len() {
            return Ok(None);
        }
        Ok(Some(shared(&self.pieces, number)?))
    }

    /// The datagram of this number, None exactly where it wasn't sent.
    pub fn get(&self, number: u64) -> Result<Option<Datagram>, NoMemory>
        ensures { IfOk result (λ datagram. datagram ≡ slice_get self.now number) }
    {
        let number = number as usize;
        if number >= self.pieces.len() {
            return Ok(None);
        }
        Ok(Some(read_datagram(self.alloc, &self.pieces, number)?))
    }

    /// Notes a datagram that was sent last. Out of memory, it changes nothing.
    pub fn push(&mut self, datagram: &Datagram) -> Result<(), NoMemory>
        ensures ok { OnOk result (self.new ≡ self.old ++ datagram.now ∷ []) }
        ensures err { OnErr result (self.new ≡ self.old) }
    {
        put_datagram(datagram, &mut self.bytes, &mut self.pieces)?;
        // How many were sent fits, and so does how many of them answer.
        let _ = self.pieces.len();
        self.answers = counted(self.answers, is_answer(datagram));
        self.reads = counted(self.reads, is_read_answer(datagram));
        Ok(())
    }

    /// Notes datagrams in the order of sending. After it ran out of memory the first of them may be noted.
    pub fn append(&mut self, datagrams: &[Datagram]) -> Result<(), NoMemory>
        ensures ok { OnOk result (self.new ≡ self.old ++ datagrams.now) }
        ensures err { OnErr result (IsPrefix self.old self.new) }
    {
        for datagram in datagrams {
            self.push(datagram)?;
        }
        Ok(())
    }
}
