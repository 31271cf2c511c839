//! Datagrams and records as values: their kinds, who sends and takes each, their formats.
//!
//! The code of their bytes is in cx_msg, which passes on what is here.
//!
//! Its theorem is: a `Datagram` goes from a role that sends its kind to one that gets it, with each
//! field in its range; whoever takes it apart knows so (`Datagram::msg`).
#![tactic(auto)]

mod copies;
mod datagram;
mod input;
mod kept;
mod letters;
mod message;
mod names;
mod read_letters;
mod set_letters;

pub use datagram::Datagram;
pub use input::{Act, Input, KeptRecord, Written};
pub use kept::Record;
pub use letters::{
    answer, batch, chosen, chosen_in, fetch, fetched, garbage_a, garbage_b, held, inform, informed,
    leads, match_a, match_b, match_nack, nack, phase1a, phase1b, phase2a, phase2b, propose,
    results, submit,
};
pub use message::Msg;
pub use names::{message_kind, name_of_kind};
pub use read_letters::{
    match_read, match_read_ack, pre_read, pre_read_ack, read_answer, read_req, replica_read,
    sess_read,
};
pub use set_letters::{
    boot_a, boot_b, next_a, next_b, sets_to_leader, sets_to_reader, sets_to_replacer, stop_a,
    stop_b, stop_nack,
};
