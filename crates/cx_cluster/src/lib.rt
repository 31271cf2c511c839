//! The configuration of a cluster, which is the header of an input, in TOML.
//!
//! Its theorem is the contract of `read`: of any bytes it answers `header_cluster`, which is the
//! cluster or exactly the first fault.
#![tactic(auto)]

mod fault;
mod header;
mod key;

pub use fault::{ClusterFault, UnknownKey};
pub use header::read;
pub use key::ClusterKey;
