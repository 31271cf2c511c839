//! A hosted role beside its keeper: woken from its store, opened, asked, and given back.
//!
//! Its theorem is `stops_are_crashes`: a crash at any moment of an append or a renewal leaves the store of a run in
//! which that role crashed there.
#![tactic(auto)]

mod closing;
mod guest;
mod law;
mod noting;
mod opening;
mod seat;
mod waking;

pub use closing::close_seats;
pub use guest::Guest;
pub use law::stops_are_crashes;
pub use noting::{has_room, note_own, take_down};
pub use opening::{OpenStop, open_all, open_seats};
pub use seat::Seat;
pub use waking::{WakeStop, wake, wake_twin};
