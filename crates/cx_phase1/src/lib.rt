//! A leader's first phase: who has promised, and what is then proposed (VLDB 2021).
//!
//! `Slots` is the leader's window of slots. Its theorems are: an answer counts once, and the phase ends
//! exactly when each live grid has a whole row; the plan is the model's, in each slot the value of
//! the greatest round reported, or a no-op.
#![tactic(auto)]

mod best;
mod phase1;
mod planning;
mod promises;
mod slots;
mod told;

pub use phase1::Phase1;
pub use slots::Slots;
pub use told::Told;
