//! The protocol in definitions: each role's rows, the run of events, what is chosen and promised.
//!
//! Each file of `specs/` has one subject; `src/` has the data that they speak of. Role crates prove
//! that their code is these rows, cx_world that its steps are this run. Its theorems are worked runs
//! (`specs/Examples*`, half of its files): each comes to the words, records, datagrams and values
//! that are written there.
#![tactic(auto)]

pub mod examples;
mod states;

pub use states::{
    Acked, Deferred, Halt, MatchAnswer, Mode, Pending, Plan, Promised, Replacing, Stage,
};
