//! Tests of the spellings of messages and records, and of a copied log.
//!
//! Tests that need only public calls are here and not in the crates that they test, since a crate with tests is proved twice:
//! once as the library that others build on, and once more with its tests. Nothing builds on this crate.
#![tactic(auto)]

#[cfg(test)]
mod asking_tests;
#[cfg(test)]
mod log_tests;
#[cfg(test)]
mod message_tests;
#[cfg(test)]
mod session_tests;
#[cfg(test)]
mod set_tests;
#[cfg(test)]
mod vectors;
#[cfg(test)]
mod version_tests;
