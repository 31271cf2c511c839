//! Tests of a replica: it is opened from lists of records, and answers sessions.
//!
//! They need only public calls, so they are here and not in cx_replica: a crate with tests is proved twice. Nothing builds on
//! this crate.
#![tactic(auto)]

#[cfg(test)]
mod opening_tests;
#[cfg(test)]
mod session_tests;
