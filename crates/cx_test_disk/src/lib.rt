//! Tests of disks, keepers, journals and twins: calls that fail or stop, and what is read again.
//!
//! They need only public calls, so they are here and not in the crates that they test: a crate with tests is proved twice.
//! Nothing builds on this crate.
#![tactic(auto)]

#[cfg(test)]
mod disk_tests;
#[cfg(test)]
mod file_tests;
#[cfg(test)]
mod journal_tests;
#[cfg(test)]
mod keeper_tests;
#[cfg(test)]
mod twin_tests;
