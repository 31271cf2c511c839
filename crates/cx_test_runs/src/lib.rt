//! Tests of texts that no whole run of the program shows.
//!
//! They need only public calls, so they are here and not in the crates that they test: a crate with tests is proved twice.
//! Nothing builds on this crate.
#![tactic(auto)]

#[cfg(test)]
mod cluster_tests;
