//! What a keeper of the records of a role owes, so that they outlive its crash.
//!
//! Roles know the traits `Keeper` and `Renew` alone; cx_keeper has a keeper in memory, and journals
//! implement them too.
//!
//! Its theorem is what each keeper proves (`IsKeeperChange`): after an append answered with Ok the
//! list has the record, after a failed one it has it or not; after a renewal answered with Ok the
//! list is the new one, after a failed one the old or the new. Out of memory, nothing changes.
#![tactic(auto)]

mod keeper;

pub use keeper::{KeepFault, Keeper, OpenFault, Renew};
