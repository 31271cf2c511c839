//! Where a step puts the datagrams that it sends.
ghost use Rattle.std.specs.Prelude.{◌≡◌, ◌≤◌, ◌<◌, ◌+◌, ◌++◌, ◌∷◌, [], length, OnOk};
ghost use Rattle.cx_role.specs.Outbox.{Outgoing};

use cx_base::{MAX_SENDS, NoMemory};
use cx_letter::Datagram;
use std::alloc::Global;
use std::marker::Model;

// The clauses say the limit as a number.
const _: () = prove!(MAX_SENDS == 512);

/// The datagrams of a step, in the order of sending, with room that was taken beforehand.
#[derive(Drop)]
pub struct Outbox {
    list: Vec<Datagram>,
    spare: usize,
}

impl Model for Outbox {
    ghost use Rattle.std.specs.Prelude.{◌+◌, ◌≤◌, length, vec_len, vec_capacity};
    ghost use Rattle.cx_role.specs.Outbox.{Outgoing};

    ghost Value = { Outgoing };

    ghost view = { λ out. record { list = out.list.items; spare = out.spare } };

    ghost invariant = { λ out. (vec_len out.list + out.spare ≤ vec_capacity out.list)
        × (vec_len out.list + out.spare ≤ 512) };
}

impl Outbox {
    /// Nothing sent, and no room. It takes no memory.
    pub fn new(alloc: Global) -> Self
        ensures { result ≡ record { list = []; spare = 0 } }
    {
        Outbox {
            list: Vec::new(alloc),
            spare: 0,
        }
    }

    /// Makes room for n pushes, or nothing changes when out of memory. A step sends at most 512.
    pub fn room(&mut self, n: usize) -> Result<(), NoMemory>
        requires { length self.old.list + n ≤ 512 }
        ensures list { self.new.list ≡ self.old.list }
        ensures spare { OnOk result (n ≤ self.new.spare) }
        ensures grows { self.old.spare ≤ self.new.spare }
    {
        if n > self.spare {
            self.list.reserve(n)?;
            self.spare = n;
        }
        Ok(())
    }

    /// Adds a datagram, which takes no memory.
    pub fn push(&mut self, datagram: Datagram)
        requires { 0 < self.old.spare }
        ensures list { self.new.list ≡ self.old.list ++ datagram ∷ [] }
        ensures spare { self.new.spare + 1 ≡ self.old.spare }
    {
        self.list.push_reserved(datagram);
        self.spare -= 1;
    }

    /// How many were sent.
    pub fn len(&self) -> usize
        ensures { result ≡ length self.now.list }
    {
        self.list.len()
    }

    /// What was sent, in order.
    pub fn as_slice(&self) -> &[Datagram]
        ensures { result.now ≡ self.now.list }
    {
        &self.list
    }

    /// Forgets what was sent.
    pub fn clear(&mut self)
        ensures { self.new.list ≡ [] }
    {
        self.list.clear();
        self.spare = 0;
    }
}
