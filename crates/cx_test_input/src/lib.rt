//! Tests of the streams, links and stores that bytes come from and go to.
//!
//! Tests that need only public calls are here and not in the crates that they test, since a crate with tests is proved twice:
//! once as the library that others build on, and once more with its tests. Nothing builds on this crate.
#![tactic(auto)]

#[cfg(test)]
mod depot_tests;
#[cfg(test)]
mod link_tests;
#[cfg(test)]
mod stream_tests;
