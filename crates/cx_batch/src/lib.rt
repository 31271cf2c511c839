//! Batchers, which gather commands, and unbatchers, which send each client its own answer (VLDB 2021).
//!
//! Their theorems are the contract of `Role` at `batcher_rules` and at `unbatcher_rules`; neither keeps a record.
#![tactic(auto)]

mod batcher;
mod unbatcher;

pub use batcher::Batcher;
pub use unbatcher::Unbatcher;
