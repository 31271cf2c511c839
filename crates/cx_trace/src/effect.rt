//! The result of an event.

use cx_base::{RoleId, Why};

/// The result of an event.
#[derive(Clone, Copy)]
pub struct Effect {
    /// The event's number, counted from 1.
    pub event: u64,
    /// The role that took it: None exactly where a datagram was to be delivered that was not sent yet.
    pub who: Option<RoleId>,
    pub why: Why,
    /// The number of the first datagram that it sent, counted from 0 over the whole run.
    pub first: u64,
    /// The number after that of the last datagram that it sent.
    pub end: u64,
}
