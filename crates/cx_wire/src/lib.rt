//! Numbers on the wire, and what a format is: which values fit, how they are spelled and read.
//!
//! Formats of datagrams, records and journals are put together from it. Its theorem is: a format
//! made of exact ones is exact; so what it reads is spelled so, and what it spells is read again,
//! whatever follows.
#![tactic(auto)]

mod put;
mod take;

pub use put::{put_u8, put_u16, put_u32, put_u64};
pub use take::{take_u8, take_u16, take_u32, take_u64};

/// Fewer bytes are left than a number takes; both are counts of bytes.
#[derive(Clone, Copy, Debug, PartialEq, Eq)]
pub struct Short {
    pub need: usize,
    pub have: usize,
}
