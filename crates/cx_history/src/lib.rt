//! The histories of a run: the events, the datagrams that were sent, the changes of stores.
//!
//! `Sent` and `Kept` hold bytes, `Events` what was asked with each number. Its theorem is: contracts see
//! `Sent`, `Kept` and `Events` as the lists of what was pushed, which `Sent::get` and `Kept::at` read again
//! as it was; `Events::is_stale` is the model's test over all events.
#![tactic(auto)]

mod events;
mod kept;
mod kinds;
mod requests;
mod scratch;
mod sent;
mod short;

pub use events::Events;
pub use kept::Kept;
pub use sent::Sent;
