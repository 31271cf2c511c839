//! Windows of slots: at most one value for each of 32 slots, found at once.
//!
//! A replica's log, the first phase, leaders and proxy leaders hold their slots in it. Its theorem
//! is: a ring is the list of its values in the order in which their slots came (a list in proofs
//! alone, `GhostList`); `Ring::get` gives the one of a slot.
#![tactic(auto)]

mod ghost_list;
mod order;
mod ring;

pub use ghost_list::{GhostList, GhostListOf};
pub use order::Slotted;
pub use ring::Ring;
