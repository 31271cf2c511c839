//! Datagrams in memory: what was sent, what was taken, and what waits, all in room that was taken beforehand.

ghost use Rattle.std.specs.Prelude.{◌≡◌, ◌<◌, [], ℕ, true, false, IfOk, vec_len};
ghost use Rattle.std.specs.VecDeque.{deque_len, deque_capacity};
ghost use Rattle.std.specs.List.{All};
ghost use Rattle.cx_edge.specs.Notes.{Fits, FrontFits, NotesTake, keeping, with_sending};

use crate::TakeEnd;
use crate::pieces::{FrontRow, Piece, SentRow};
use cx_base::{NoMemory, RoleId};
use std::alloc::Global;
use std::collections::VecDeque;
use std::marker::Model;

/// A datagram from outside, which is put before all that wait just before the take with this number.
#[derive(Drop)]
pub struct Front {
    pub before: u64,
    pub bytes: Vec<u8>,
}

/// How much a link in memory can note.
#[derive(Clone, Copy)]
pub struct LinkRoom {
    /// Binds that succeed.
    pub binds: usize,
    /// Takes that don't fail.
    pub takes: usize,
    /// Sends, those that are lost included.
    pub sends: usize,
    /// The bytes of all sends.
    pub bytes: usize,
}

#[derive(Drop)]
pub(crate) struct Notes {
    bytes: Vec<u8>,
    taken: Vec<Option<Piece>>,
    sent: Vec<SentRow>,
    waiting: VecDeque<Piece>,
    fronts: Vec<FrontRow>,
}

impl Model for Notes {
    ghost use Rattle.std.specs.Prelude.{vec_len};
    ghost use Rattle.cx_edge.specs.Notes.{NotesState, NotesFit, notes_state};

    ghost Value = { NotesState };

    ghost view = { λ n. notes_state n.bytes.items n.taken.items n.sent.items n.waiting.items };

    ghost invariant = { λ n.
        NotesFit (vec_len n.bytes) n.taken.items n.sent.items n.waiting.items n.fronts.items };
}

/// Puts a datagram at the end, unless it is lost.
fn queue(waiting: &mut VecDeque<Piece>, piece: Piece, is_lost: bool)
    requires { deque_len waiting.old < deque_capacity waiting.old }
    ensures { waiting.new.items ≡ keeping is_lost waiting.old.items piece }
{
    if !is_lost {
        waiting.push_back_reserved(piece);
    }
}

/// Puts the datagram before all that wait if it has this number.
fn put_one(waiting: &mut VecDeque<Piece>, front: &FrontRow, call: u64)
    ensures { (n : ℕ) → FrontFits n front.now → All (Fits n) waiting.old.items
        → All (Fits n) waiting.new.items }
{
    if front.before == call && waiting.len() < waiting.capacity() {
        waiting.push_front_reserved(front.piece);
    }
}

/// Puts the datagrams of this number before all that wait.
fn put_all(waiting: &mut VecDeque<Piece>, fronts: &[FrontRow], call: u64)
    ensures { (n : ℕ) → All (FrontFits n) fronts.now → All (Fits n) waiting.old.items
        → All (Fits n) waiting.new.items }
{
    for front in fronts {
        put_one(waiting, front, call);
    }
}

impl Notes {
    /// Nothing noted, with room for all that is noted from here on.
    pub(crate) fn new(alloc: Global, room: LinkRoom, fronts: &[Front]) -> Result<Self, NoMemory>
        ensures { IfOk result (λ notes. notes ≡ record { taken = []; sent = []; waiting = [] }) }
    {
        let mut bytes = Vec::with_capacity(alloc, room.bytes.saturating_add(bytes_in(fronts)))?;
        let rows = front_rows(alloc, &mut bytes, fronts)?;
        Ok(Notes {
            bytes,
            taken: Vec::with_capacity(alloc, room.takes)?,
            sent: Vec::with_capacity(alloc, room.sends)?,
            waiting: VecDeque::with_capacity(alloc, room.sends.saturating_add(fronts.len()))?,
            fronts: rows,
        })
    }

    /// Notes what a role sends, and lets it wait unless it is lost. Without room nothing changes.
    pub(crate) fn send(&mut self, from: RoleId, port: u16, bytes: &[u8], is_lost: bool) -> bool
        ensures sent { result ≡ true
            → self.new ≡ with_sending is_lost
            (record { from = from; port = port; bytes = bytes.now }) self.old }
        ensures full { result ≡ false → self.new ≡ self.old }
    {
        if bytes.len() > self.bytes.capacity() - self.bytes.len()
            || self.sent.len() >= self.sent.capacity()
            || self.waiting.len() >= self.waiting.capacity()
        {
            return false;
        }
        let piece = Piece {
            start: self.bytes.len(),
            len: bytes.len(),
        };
        self.bytes.extend_from_slice(bytes).unwrap();
        self.sent.push_reserved(SentRow { from, port, piece });
        queue(&mut self.waiting, piece, is_lost);
        true
    }

    /// Puts those before all that wait that come before the take with this number.
    pub(crate) fn put_in_front(&mut self, call: u64)
        ensures taken { self.new.taken ≡ self.old.taken }
        ensures sent { self.new.sent ≡ self.old.sent }
    {
        put_all(&mut self.waiting, &self.fronts, call);
    }

    /// Takes the first that waits.
    pub(crate) fn take(&mut self, buffer: &mut [u8]) -> TakeEnd
        ensures { NotesTake self.old self.new buffer.new result }
    {
        if self.taken.len() >= self.taken.capacity() {
            return TakeEnd::Failed;
        }
        let piece = match self.waiting.pop_front() {
            Some(piece) => piece,
            None => {
                self.taken.push_reserved(None);
                return TakeEnd::Nothing;
            }
        };
        let count = piece.len.min(buffer.len());
        buffer[..count].copy_from_slice(&self.bytes[piece.start..piece.start + count]);
        self.taken.push_reserved(Some(Piece {
            start: piece.start,
            len: count,
        }));
        TakeEnd::Got(count)
    }
}

/// How many bytes the datagrams have that are put in front.
fn bytes_in(fronts: &[Front]) -> usize {
    let mut count = 0usize;
    for front in fronts {
        count = count.saturating_add(front.bytes.len());
    }
    count
}

/// Adds the bytes of each datagram that is put in front, and says where they are.
fn front_rows(
    alloc: Global,
    bytes: &mut Vec<u8>,
    fronts: &[Front],
) -> Result<Vec<FrontRow>, NoMemory>
    ensures { IfOk result (λ rows. All (FrontFits (vec_len bytes.new)) rows.items) }
{
    let mut rows = Vec::with_capacity(alloc, fronts.len())?;
    for front in fronts {
        let piece = Piece {
            start: bytes.len(),
            len: front.bytes.len(),
        };
        bytes.extend_from_slice(&front.bytes)?;
        rows.push(FrontRow {
            before: front.before,
            piece,
        })?;
    }
    Ok(rows)
}
