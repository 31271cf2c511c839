//! The acceptor: it promises rounds and votes for values, and records both before it answers.
//!
//! Its theorem is the contract of `Role` at `acceptor_rules`.
#![tactic(auto)]

mod acceptor;
mod informing;
mod promising;
mod records;
mod snap;
mod votes;
mod voting;

pub use acceptor::Acceptor;
