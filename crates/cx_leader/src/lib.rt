//! The leader: it begins and retires rounds (JSys 2021), and gives each batch a slot (VLDB 2021).
//!
//! Its theorem is the contract of `Role` at `leader_rules`: each step is the model's row.
//!
//! A row is a function of the role's state and one input; it gives a word (`Why`), at most one record, the new volatile part, and
//! the datagrams to send. In contracts `Replies` and `IsReply` say so of a row without a record, `IsStep` of any, over any keeper
//! that stores its record; `MayKeep` says that the role may append the record, and `K.tells` whether contracts see what the
//! keeper has.
//!
//! What may run out of memory comes first in each body, before anything is changed, appended or sent.
//!
//! `cw` is the chosen watermark, a number of slots: all below are chosen, and f + 1 replicas hold them. Of numbers in
//! contracts, 32 is the window, the slots from `cw` on that may be proposed at; slots end at 2 ^ 40; an id is below 64.
//! A grid is the configuration of a round: its rows are phase 1 quorums, its columns phase 2 quorums.
#![tactic(auto)]

mod entries;
mod holding;
mod known;
mod leader;
mod leading;
mod learning;
mod matching;
mod opening;
mod promising;
mod proposals;
mod refusing;
mod retiring;
mod rounds;
mod sending;
mod tending;
mod ticks;

pub use leader::Leader;
