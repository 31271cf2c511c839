//! The types that every crate speaks of: roles, rounds, grids, names, commands, replies, events.
//!
//! Its definitions say which of two rounds is earlier, what a grid is, which command of a list takes
//! effect, and what those commands leave in the map. Its theorems are the contracts of its
//! functions: each answers what its definition says, and `Grid::new` exactly the first rule that a
//! grid breaks.
#![tactic(auto)]

mod cluster;
mod command;
mod count;
mod event;
mod faults;
mod few;
mod fold;
mod greatest;
mod grid;
mod grid_fault;
mod limits;
mod memory;
mod name;
mod role;
mod round;
mod same;
mod set;
mod status;
mod why;

pub use cluster::Cluster;
pub use command::{
    Answered, Command, Commands, Floor, Note, Op, Pair, Placed, Reply, Value, Values,
};
pub use count::count_of;
pub use event::{Cut, Event, Happened, Order};
pub use faults::Faults;
pub use few::{Few, Series, copy_all};
pub use fold::acts;
pub use greatest::Greatest;
pub use grid::Grid;
pub use grid_fault::GridFault;
pub use limits::{
    ACCEPTORS, BATCH, CLIENTS, ENTRIES, IDS, JOINED, KEY_LENGTH, KEYS, MATCHMAKERS,
    MAX_DATAGRAM_LENGTH, MAX_F, MAX_HEADER_LENGTH, MAX_LINE_LENGTH, MAX_LINES, MAX_RECORD_LENGTH,
    MAX_SENDS, MEMBERS, NOTES, OUTSTANDING, PAIRS, PROXIES, READS, REPLACERS, ROLES, ROUNDS,
    SET_LENGTH, SLOTS, TEXT_LENGTH, WINDOW, WINDOW_LENGTH,
};
pub use memory::{Duplicate, NoMemory};
pub use name::{Key, Name, Text, is_name_byte};
pub use role::{Kind, RoleId};
pub use round::Round;
pub use same::{same_command, same_op, same_value};
pub use set::Set;
pub use status::Status;
pub use why::Why;
