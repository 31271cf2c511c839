//! A client of a node: a list of requests, up to a window of them outstanding at a time, sent again
//! until answered.
//!
//! Its theorems are: each call is the model's step, and what a client sends is its own
//! (`sends_are_own`); a datagram completes an outstanding request exactly where it answers it, and
//! no other (`completes_once`); no uncompleted number is at or below a floor that is sent
//! (`floors_are_below`); what becomes outstanding is sent (`windows_move`); a session tells the
//! greatest number that an answer told its client (`sessions_tell_what_was_heard`); and a tick asks
//! others only of a client that is to ask others, the next ones each time (`ticks_ask_others`).
#![tactic(auto)]

mod asking;
mod client;
mod examples;
mod law;
mod sending;
mod window;

pub use asking::ClientOptions;
pub use client::{Client, ClientOutcome};
pub use examples::worked;
pub use law::{
    clients_stay, completes_once, floors_are_below, sends_are_own, sessions_tell_what_was_heard,
    ticks_ask_others, windows_move,
};
