//! What can happen in a run.

ghost use Rattle.std.specs.Prelude.{◌≡◌, IfOk};

use crate::command::Command;
use crate::grid::Grid;
use crate::memory::{Duplicate, NoMemory};
use crate::name::Key;
use crate::role::RoleId;
use crate::set::Set;
use crate::why::Why;
use std::alloc::Global;

/// Whether a role crashes while its store is changed by a step, and whether the change is then kept. A change is a record
/// put behind the others, or a renewed list in the place of all.
#[derive(Clone, Copy, Debug, PartialEq, Eq)]
pub enum Cut {
    /// The step is made whole.
    Whole,
    /// The role crashes, and the change is lost.
    Torn,
    /// The role crashes, and the change is kept.
    Kept,
}

/// What a leader is ordered, or, by `Replace`, a replacer, or, by `Offer`, a replica.
#[derive(Clone, Copy, Debug, PartialEq, Eq)]
pub enum Order {
    /// Begin a round above all that it has seen, with this grid.
    Lead(Grid),
    /// Go on with another grid in the next round of its own.
    Change(Grid),
    /// Retire all earlier rounds.
    Collect,
    /// Replace the matchmakers by this set.
    Replace(Set),
    /// Send another replica the values that are kept of 32 slots, from this one on.
    Offer { to: u16, slot: u64 },
}

/// One event of a run, and its atomic step: a client asks, or one role takes a datagram, a tick or an order, snaps, crashes or
/// is opened again.
#[derive(Clone, Copy, Debug, PartialEq, Eq)]
pub enum Event {
    /// A client hands its command to a batcher.
    Write {
        command: Command,
        batcher: u16,
    },
    /// A client asks a reader for a key, to be answered by a replica.
    Read {
        client: u16,
        seq: u64,
        floor: u64,
        reader: u16,
        replica: u16,
        key: Key,
    },
    /// A client asks one replica for a key, to be answered once that replica holds as many values as the client has heard of.
    Session {
        client: u16,
        seq: u64,
        floor: u64,
        replica: u16,
        key: Key,
    },
    /// The datagram of this number, counted from 0, reaches its role.
    Deliver {
        number: u64,
        cut: Cut,
    },
    /// A role sends again what it waits for.
    Tick(RoleId),
    /// A leader is given an order.
    Order {
        leader: u16,
        order: Order,
        cut: Cut,
    },
    /// A replacer is ordered to replace the matchmakers by this set.
    Replace {
        replacer: u16,
        set: Set,
        cut: Cut,
    },
    /// A replica is ordered to send another one the values that it keeps of 32 slots, from this one on.
    Offer {
        replica: u16,
        to: u16,
        slot: u64,
    },
    /// A replica, an acceptor or a reader puts its list anew. A replica forgets by it the values that no other replica will ask
    /// it for; the others forget nothing.
    Snap {
        role: RoleId,
        cut: Cut,
    },
    /// A role stops and forgets its volatile part.
    Crash(RoleId),
    /// A role is opened from what it kept.
    Restart(RoleId),
}

/// An event of the history, with its result.
#[derive(Clone, Copy)]
pub struct Happened {
    pub event: Event,
    pub why: Why,
}

impl Duplicate for Event {
    fn copy(&self, _alloc: Global) -> Result<Self, NoMemory> {
        Ok(*self)
    }
}
