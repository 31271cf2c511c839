//! The record of a node's run: the lines of its events, and the numbers of the datagrams that it sent.
//!
//! Its theorems are: `line_into` appends exactly the line of an event, `Recorder::find` answers the last datagram that was
//! sent with these bytes; `written_lines_are_read`: a schedule's reader reads the lines of recorded events as these events;
//! and `spelled_events_are_recordable`: an event that some line spells can be recorded.
#![tactic(auto)]

mod examples;
mod law;
mod line;
mod ranges;
mod recorder;

pub use examples::worked;
pub use law::{spelled_events_are_recordable, written_lines_are_read};
pub use line::line_into;
pub use ranges::event_fits;
pub use recorder::{Numbered, Recorder};
