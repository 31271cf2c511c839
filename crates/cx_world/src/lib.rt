//! The world: all roles of a cluster in one process, run event by event.
//!
//! Its theorem is the contract of `World::step`: the new world is the model's step of the old one;
//! so a world that isn't spent is the run of its events, and lawful (`World::law`); `chosen_prefix`
//! gives the one command list.
#![tactic(auto)]

mod change;
mod counts;
mod folded;
mod heard;
mod last_keeper;
mod seat;
mod turned;
mod world;

pub use counts::Counts;
pub use world::World;
