//! A link in memory: one queue, and lists of the calls that fail.

ghost use Rattle.std.specs.Prelude.{◌≡◌, Some, IfOk};
ghost use Rattle.std.specs.List.{list_any};
ghost use Rattle.cx_edge.specs.Link.{binds_either};
ghost use Rattle.cx_edge.specs.declared.mem_link.BindRow.{BindRow};
ghost use Rattle.cx_edge.specs.MemLink.{bind_of, no_history, link_told, link_faults, link_losses};

use crate::memory::is_failing;
use crate::notes::{Front, LinkRoom, Notes};
use crate::{Link, TakeEnd};
use cx_base::{Faults, NoMemory, RoleId};
use cx_disk::Failed;
use std::alloc::Global;
use std::marker::Model;

/// The numbers of the calls that fail. Each kind of call is counted from 0.
#[derive(Drop)]
pub struct LinkFailing {
    pub binds: Vec<u64>,
    pub sends: Vec<u64>,
    pub takes: Vec<u64>,
}

/// A role that was bound to a port.
#[derive(Clone, Copy)]
struct BindRow {
    role: RoleId,
    port: u16,
}

/// Carries datagrams in one queue: a send puts its bytes at the end, a take gives the first ones, cut to the buffer, and
/// nothing exactly where none wait. Its history is known until a send is lost because there is no room to note it.
#[derive(Drop)]
pub struct MemLink {
    notes: Notes,
    binds: Vec<BindRow>,
    is_silent: bool,
    failing: LinkFailing,
    bind: u64,
    send: u64,
    take: u64,
    faults: Faults,
    losses: Faults,
}

impl Model for MemLink {
    ghost use Rattle.cx_edge.specs.MemLink.{LinkState, mem_link_history};

    ghost Value = { LinkState };

    ghost view = { λ m. record {
      history = mem_link_history m.is_silent m.binds.items m.notes;
      faults = m.faults;
      losses = m.losses;
    } };
}

/// Whether the role or the port is bound.
fn is_bound(binds: &[BindRow], role: RoleId, port: u16) -> bool
    ensures { result
        ≡ list_any (λ (row : BindRow). binds_either role port (bind_of row)) binds.now }
{
    binds
        .iter()
        .any(|bind| role.is(bind.role) || port == bind.port)
}

impl MemLink {
    /// The link with nothing bound, sent or taken, which fails at the calls named. Each front is put before what waits at its
    /// take. All memory is taken here, none by a call: a bind or a take without room to be noted fails, and a send is lost.
    pub fn new(
        alloc: Global,
        room: LinkRoom,
        failing: LinkFailing,
        fronts: &[Front],
    ) -> Result<Self, NoMemory>
        ensures { IfOk result
            (λ link. link ≡ record { history = Some no_history; faults = 0; losses = 0 }) }
    {
        Ok(MemLink {
            notes: Notes::new(alloc, room, fronts)?,
            binds: Vec::with_capacity(alloc, room.binds)?,
            is_silent: false,
            failing,
            bind: 0,
            send: 0,
            take: 0,
            faults: Faults::none(),
            losses: Faults::none(),
        })
    }
}

impl Link for MemLink {
    ghost history = { link_told };

    ghost faults = { link_faults };

    ghost losses = { link_losses };

    fn bind(&mut self, role: RoleId, port: u16) -> Result<(), Failed> {
        let call = self.bind;
        self.bind = call.saturating_add(1);
        if is_failing(&self.failing.binds, call) || self.binds.len() >= self.binds.capacity() {
            self.faults.add();
            return Err(Failed);
        }
        if is_bound(&self.binds, role, port) {
            self.faults.add();
            return Err(Failed);
        }
        self.binds.push_reserved(BindRow { role, port });
        Ok(())
    }

    fn send(&mut self, from: RoleId, port: u16, bytes: &[u8]) -> Result<(), Failed> {
        let call = self.send;
        self.send = call.saturating_add(1);
        let is_lost = is_failing(&self.failing.sends, call);
        if !self.notes.send(from, port, bytes, is_lost) {
            self.is_silent = true;
            self.losses.add();
            return Err(Failed);
        }
        if is_lost {
            self.losses.add();
            return Err(Failed);
        }
        Ok(())
    }

    fn take(&mut self, buffer: &mut [u8]) -> TakeEnd {
        let call = self.take;
        self.take = call.saturating_add(1);
        self.notes.put_in_front(call);
        if is_failing(&self.failing.takes, call) {
            self.faults.add();
            return TakeEnd::Failed;
        }
        let end = self.notes.take(buffer);
        if let TakeEnd::Failed = end {
            self.faults.add();
        }
        end
    }
}
