//! Tests of nodes whose replica puts its list anew: what is kept, and what a disk that stops leaves. Tests of nodes whose reader
//! is stopped within a batch, and of nodes that record.
//!
//! They need only public calls, so they are here and not in the crates that they test: a crate with tests is proved twice.
//! Nothing builds on this crate.
#![tactic(auto)]

#[cfg(test)]
mod hosting;
#[cfg(test)]
mod reader_tests;
#[cfg(test)]
mod record_tests;
#[cfg(test)]
mod remark_tests;
#[cfg(test)]
mod renewal_tests;
