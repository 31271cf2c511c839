//! A node: hosted roles that take datagrams from a link and keep their records in journals, a replica over two disks.
//!
//! Its theorem is the contract of `serve`: what was bound, sent, kept and printed is exactly the node's run over
//! what the link gave, or a prefix of each and a status that says why.
#![tactic(auto)]

mod acting;
mod binding;
mod care;
mod come;
mod commands;
mod examples;
mod header;
mod hosting;
mod input;
mod node;
mod orders;
mod remarking;
mod sending;
mod serving;
mod tending;
mod turning;
mod whom;

pub use come::Come;
pub use cx_seat::{
    Guest, OpenStop, Seat, WakeStop, close_seats, open_seats, stops_are_crashes, wake, wake_twin,
};
pub use examples::{beats, no_leader, queues, reports, waits};
pub use header::HeaderText;
pub use input::{Accepted, NodeInput, Refusal, listen};
pub use node::{Node, RunEnd, Stop};
pub use orders::no_vain_order;
pub use serving::serve;
pub use whom::Whom;
