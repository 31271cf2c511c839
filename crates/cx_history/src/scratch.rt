//! What a request asks, as bytes.

ghost use Rattle.std.specs.Prelude.{◌≡◌, ◌≤◌, ◌+◌, ◌++◌, ◌∷◌, [], length};
ghost use Rattle.cx_history.specs.Requests.{asked, asked_op};

use cx_base::{Event, Key, Op, Text};
use std::marker::Model;

// Two bytes, a key and a text.
const MOST: usize = 98;

/// A few bytes that take no memory: as many as what a request asks needs, at most.
#[derive(Drop)]
pub struct Scratch {
    bytes: [u8; MOST],
    len: usize,
}

impl Model for Scratch {
    ghost use Rattle.std.specs.Prelude.{◌≡◌, ◌≤◌, ℕ, List, length, take};

    ghost Value = { List ℕ };

    ghost view = { λ s. take s.len s.bytes };

    ghost invariant = { λ s. (length s.bytes ≡ 98) × (s.len ≤ 98) };
}

impl Scratch {
    // No bytes.
    fn new() -> Self
        ensures { result ≡ [] }
    {
        Scratch {
            bytes: [0; MOST],
            len: 0,
        }
    }

    /// The bytes.
    pub fn as_bytes(&self) -> &[u8]
        ensures { result.now ≡ self.now }
    {
        &self.bytes[..self.len]
    }

    // More bytes after them.
    fn add(&mut self, more: &[u8])
        requires { length self.old + length more.now ≤ 98 }
        ensures { self.new ≡ self.old ++ more.now }
    {
        let end = self.len + more.len();
        self.bytes[self.len..end].copy_from_slice(more);
        self.len = end;
    }

    fn add_pair(&mut self, tag: u8, key: &Key, text: &Text)
        requires { self.old ≡ [] }
        ensures { self.new ≡ self.old ++ tag ∷ length key.now ∷ (key.now ++ text.now) }
    {
        let key = key.as_bytes();
        self.add(&[tag, key.len() as u8]);
        self.add(key);
        self.add(text.as_bytes());
    }

    fn add_key(&mut self, tag: u8, key: &Key)
        requires { self.old ≡ [] }
        ensures { self.new ≡ self.old ++ tag ∷ key.now }
    {
        self.add(&[tag]);
        self.add(key.as_bytes());
    }

    fn add_op(&mut self, op: &Op)
        requires { self.old ≡ [] }
        ensures { self.new ≡ self.old ++ asked_op op.now }
    {
        match op {
            Op::Put(key, text) => self.add_pair(1, key, text),
            Op::Del(key) => self.add_key(2, key),
            Op::App(key, text) => self.add_pair(3, key, text),
        }
    }

    /// What a request asks, as bytes; of another event none.
    pub fn of(event: &Event) -> Self
        ensures { result ≡ asked event.now }
    {
        let mut bytes = Scratch::new();
        match event {
            Event::Write { command, .. } => bytes.add_op(&command.op),
            Event::Read { key, .. } => bytes.add_key(0, key),
            Event::Session { key, .. } => bytes.add_key(4, key),
            _ => {}
        }
        bytes
    }
}
