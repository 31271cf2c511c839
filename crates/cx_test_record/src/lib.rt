//! Tests of a node's record: the numbers of datagrams.
//!
//! They need only public calls, so they are here and not in the crate that they test: a crate with tests is proved twice.
//! Nothing builds on this crate.
#![tactic(auto)]

#[cfg(test)]
mod recorder_tests;
