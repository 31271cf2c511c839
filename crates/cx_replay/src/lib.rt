//! Runs a schedule as it is read, line by line, or the generated events of a seed.
//!
//! Its theorems are the contracts of `replay` and `run_gen`: what was written is exactly the
//! text of the run, or a prefix of it and a status that says why; of an input it is the trace and the
//! summary, of a seed the short summary; `replay` names exactly the first bad line; the run is lawful after each
//! event.
#![tactic(auto)]

mod generating;
mod header;
mod replaying;
mod running;
mod sending;
mod short;
mod step;
mod summing;

pub use generating::run_gen;
pub use replaying::replay;
pub use step::step_into;
