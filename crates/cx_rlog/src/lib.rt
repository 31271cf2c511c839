//! A replica's log: the chosen values in slot order, and those that came before their turn.
//!
//! Its theorems are: the log is the list of its values from its first slot on; `Log::take` tells exactly
//! whether a slot is past, next, early or beyond the window; a value for the next slot brings with it
//! those that wait for it.
#![tactic(auto)]

mod early;
mod log;
mod packed;
mod taken;

pub use log::Log;
pub use taken::Taken;
