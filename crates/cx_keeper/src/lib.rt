//! A keeper in memory, and records as the bytes that spell them.
//!
//! The traits are in cx_keep, which it passes on. Its theorem is the traits' contracts at
//! `MemKeeper`: after an append answered with Ok the list has the record, after a failed one it has
//! it or not; `recover` gives the list; after a renewal answered with Ok the list is the new one,
//! after a failed one the old or the new. Out of memory, nothing changes.
#![tactic(auto)]

mod mem_keeper;
mod records;

pub use cx_keep::{KeepFault, Keeper, OpenFault, Renew};
pub use mem_keeper::MemKeeper;
pub use records::Records;
