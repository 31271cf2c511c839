//! A replica's client table: up to which number each client is done, and the answers to its numbers above that.
//!
//! Only replicas and what folds their values use it. Its theorems are: `Table::judge` says exactly whether a number is
//! new, has an answer (which is given again) or is past; `Table::note` adds an answer, and `Table::note` and
//! `Table::tell` drop those with which a client is done.
#![tactic(auto)]

mod entries;
mod entry;
mod judge;
mod shown;
mod table;

pub use judge::Judge;
pub use table::Table;
