//! The replacer: it stops a set of matchmakers, has the next set decided among them, and lets its members begin with what the
//! earlier ones had (JSys 2021: matchmakers are replaced by a consensus among the old; the rows are this project's own).
//!
//! Its theorem is the contract of `Role` at `replacer_rules`.
#![tactic(auto)]

mod boot_b;
mod counted;
mod join;
mod next_b;
mod opening;
mod order;
mod replacer;
mod rounds;
mod sends;
mod sets;
mod stop_b;
mod stop_nack;
mod tick;

pub use replacer::Replacer;
