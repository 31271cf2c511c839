//! The reader of quorum reads: it finds how many slots the reads of a batch have to wait for (VLDB 2021; in batches this project's
//! own). A replica then answers each read.
//!
//! Its theorem is the contract of `Role` at `reader_rules`.
#![tactic(auto)]

mod asked;
mod batch;
mod begins;
mod learning;
mod matched;
mod reader;
mod reads;
mod records;
mod requests;
mod rows;
mod sends;
mod snap;

pub use reader::Reader;
