//! What a role is: the traits `Role` and `Snaps`, and the outbox that takes what a role sends.
//!
//! The world and the node drive every role through it. Its theorems are the contract of `Role`, which
//! each role proves: a whole step is the row of its rules, over any keeper; a step that is out of
//! memory leaves everything as it was, and one whose append fails sends nothing; and
//! `own_records_open`: a role opens from what its own steps appended.
#![tactic(auto)]

mod keeping;
mod law;
mod names;
mod outbox;
mod role;
mod snaps;

/// Why a step was not made. After `Failed` nothing was sent, and the role has to be opened again from what the keeper recovers.
pub use cx_keep::KeepFault as StepFault;
pub use keeping::{keep, renew};
pub use law::own_records_open;
pub use names::{
    is_for, names_ballot, names_entries, names_grid, names_role, names_round, names_set,
    names_value,
};
pub use outbox::Outbox;
pub use role::{Role, WakeFault};
pub use snaps::Snaps;
