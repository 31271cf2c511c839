//! What a role is given, what is done to it, and what it keeps.

use crate::datagram::Datagram;
use crate::kept::Record;
use cx_base::{Cut, Duplicate, NoMemory, Order, RoleId};
use std::alloc::Global;

/// What a running role is given.
#[derive(Drop)]
pub enum Input {
    /// A datagram.
    Take { datagram: Datagram },
    /// Time has passed.
    Tick,
    /// An order, which only leaders have.
    Order { order: Order },
}

/// What is done to a role.
#[derive(Drop)]
pub enum Act {
    /// It is given this, and may crash while its store is changed.
    Give { input: Input, cut: Cut },
    /// It forgets what no other role will ask it for, and may crash while its store is changed.
    Snap { cut: Cut },
    /// It stops, and forgets its volatile part.
    Stop,
    /// It is opened from what it kept.
    Wake,
}

/// A change of a role's store: a record behind the others, or, in the place of all, the list that forgets the values of the
/// slots below this one.
#[derive(Drop)]
pub enum Written {
    Record { what: Record },
    Snap { first: u64 },
}

impl Duplicate for Written {
    fn copy(&self, alloc: Global) -> Result<Self, NoMemory> {
        match self {
            Written::Record { what } => Ok(Written::Record {
                what: what.copy(alloc)?,
            }),
            Written::Snap { first } => Ok(Written::Snap { first: *first }),
        }
    }
}

/// An entry of the history of what was kept: a change, and whose store it changed.
#[derive(Drop)]
pub struct KeptRecord {
    pub role: RoleId,
    pub what: Written,
}

impl Duplicate for KeptRecord {
    fn copy(&self, alloc: Global) -> Result<Self, NoMemory> {
        Ok(KeptRecord {
            role: self.role,
            what: self.what.copy(alloc)?,
        })
    }
}
