//! How a leader retires the rounds below its own: garbage collection of configurations (JSys 2021).
//!
//! First a column of its grid learns how many slots enough replicas hold (this project's own), then
//! f + 1 matchmakers of one set forget the earlier rounds. Its theorems are: each answer counts once,
//! in its own stage alone; a stage ends exactly with the answer that completes it; where another set
//! is asked, it counts from nothing.
#![tactic(auto)]

mod collector;

pub use collector::Collector;
