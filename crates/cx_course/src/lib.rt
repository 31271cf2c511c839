//! The run of a node's hosted roles, and the record of it: a schedule whose run has what the node did.
//!
//! Its theorem is `recorded_runs_follow`: whatever its link gives, at each moment between two steps a node
//! that records has sent and kept exactly what the model's run of its recorded events does; that run has
//! delivered each answer that a client took, it is lawful, and the lines of these events are read as them.
#![tactic(auto)]

mod doing;
mod law;
mod standing;

pub use doing::Doing;
pub use law::recorded_runs_follow;
pub use standing::Standing;
