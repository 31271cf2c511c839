//! The language of inputs: the header's end, the events and requests of lines; generated events.
//!
//! Its theorems are: `line` answers exactly what the grammar says, the event or the first fault from
//! the left; `read_requests` stops exactly at the first bad line; `Gen` makes the events of its
//! sequence; all of these are valid in their cluster.
#![tactic(auto)]

mod decimal;
mod event;
mod fault;
mod generator;
mod grid;
mod header;
mod law;
mod lines;
mod place;
mod requests;
mod set;
mod split;
mod unended;
mod words;

pub use decimal::number;
pub use event::line;
pub use fault::LineFault;
pub use generator::{Gen, gen_cluster};
pub use header::split_header;
pub use law::{generated_events_are_taken, requests_rise, spelled_events_are_taken};
pub use lines::Schedule;
pub use requests::{read_requests, script};
pub use split::parted;
pub use unended::{is_long_header, settled_text};
