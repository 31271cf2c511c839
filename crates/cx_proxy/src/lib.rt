//! Proxy leaders: they ask a column of acceptors for votes, and announce what is chosen (VLDB 2021).
//!
//! Their theorem is the contract of `Role` at `proxy_rules`; they keep no record.
#![tactic(auto)]

mod pendings;
mod proxy;
mod sends;
mod tending;

pub use proxy::Proxy;
