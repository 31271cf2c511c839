//! The fields of messages and records, written and read: rounds, grids, commands, values, lists.
//!
//! Its theorems are: what is appended is what the field's format spells; a reader answers what the
//! format reads from the next bytes, or where the first bad field begins; each format is exact: what
//! it reads is spelled so, and what it spells is read again.
#![tactic(auto)]

mod command_fields;
mod fault;
mod fields;
mod items;
mod lists;
mod parts;
mod put;
mod ranges;
mod reader;

pub use command_fields::{command_from, commands_from, name_from, reply_from, value_from};
pub use fault::ReadFault;
pub use fields::{
    accepted_set_from, answers_from, asking_from, at_from, entries_from, found_from, grid_from,
    joined_from, mark_from, notes_from, pairs_from, reason_from, round_from, round0_from, seq_from,
    set_from, slot_from, token_from, values_from, votes_from,
};
pub use parts::{
    Answers, Asking, Entries, Entry, LogValues, NackReason, Notes, Pairs, Token, Vote, Votes,
};
pub use put::{
    put_answers, put_asking, put_at, put_command, put_commands, put_entries, put_found, put_grid,
    put_mark, put_name, put_notes, put_pairs, put_reason, put_reply, put_round, put_seq, put_set,
    put_slot, put_token, put_value, put_values, put_votes,
};
pub use ranges::{
    accepted_set_fits, command_fits, found_fits, grid_fits, name_fits, reason_fits, reply_fits,
    set_fits,
};
pub use reader::ByteReader;
