//! The text of a run: a line for each event, one for each datagram that it sends, and the summary.
//!
//! The replay and the node print by it. Its theorems are: each call appends exactly the text that
//! its definition says; a printed event, datagram, slot or replica is appended whole or not at all.
#![tactic(auto)]

mod commands;
mod datagrams;
mod effect;
mod events;
mod pieces;
mod replies;
mod summary;

pub use commands::slot_into;
pub use datagrams::{datagram_into, put_told};
pub use effect::Effect;
pub use events::event_into;
pub use pieces::{put, put_number, put_request, put_role, put_role_at, undo_part};
pub use summary::{Folded, chosen_into, replica_into};
