//! The values that are chosen, from the kept votes and rounds alone.
//!
//! Its theorem is the contract of `chosen_prefix`: it gives the values chosen in slot 0, 1 and so on, up to the first slot
//! without one, as the model has them.
#![tactic(auto)]

mod chains;
mod choice;
mod enough;
mod of_round;
mod prefix;
mod rounds;
mod tally;

pub use choice::chosen_prefix;
pub use prefix::Chosen;
