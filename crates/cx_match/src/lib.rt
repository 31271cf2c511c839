//! The matchmaker: it records which grid each round uses, and reports it to later rounds (JSys 2021), until the set that it is of
//! is replaced by another one.
//!
//! Its theorem is the contract of `Role` at `matchmaker_rules`.
#![tactic(auto)]

mod entries;
mod matchmaker;
mod records;
mod replaced;
mod rows;
mod working;

pub use matchmaker::Matchmaker;
