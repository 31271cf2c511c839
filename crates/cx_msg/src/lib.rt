//! The bytes of datagrams and records: how they are appended and read, and where they break.
//!
//! It passes on the values, which are in cx_letter: that crate is proved without these bytes.
//!
//! Its theorems are: `decode` answers the one datagram that the bytes spell, or exactly the first
//! test that they fail; `encode_into` appends that spelling, which begins no other datagram's
//! (`one_spelling`); `record_from` and `record_into` read and append records so.
#![tactic(auto)]

mod bodies;
mod broken;
mod decoding;
mod encoding;
mod fault;
mod floors;
mod header;
mod put_bodies;
mod put_read_bodies;
mod put_set_bodies;
mod read_bodies;
mod records;
mod roles;
mod set_bodies;
mod spelled;

pub use broken::break_of_part;
pub use cx_letter::{
    Act, Datagram, Input, KeptRecord, Msg, Record, Written, answer, batch, boot_a, boot_b, chosen,
    chosen_in, fetch, fetched, garbage_a, garbage_b, held, inform, informed, leads, match_a,
    match_b, match_nack, match_read, match_read_ack, nack, next_a, next_b, phase1a, phase1b,
    phase2a, phase2b, pre_read, pre_read_ack, propose, read_answer, read_req, replica_read,
    results, sess_read, sets_to_leader, sets_to_reader, sets_to_replacer, stop_a, stop_b,
    stop_nack, submit,
};
pub use decoding::{decode, one_spelling};
pub use encoding::{body_into, encode_into};
pub use fault::WireFault;
pub use floors::tells_floors;
pub use records::{record_from, record_into};
pub use spelled::{Spelled, short_into};
