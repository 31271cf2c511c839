//! Strings of bytes, held in shared chunks.
//!
//! The histories of a run lie in it. Its theorem is: contracts see the list of what was pushed;
//! `Pieces::get` lends the one of a number, and `Pieces::shared` gives it as bytes that share
//! their chunk.
#![tactic(auto)]

mod chunk;
mod filling;
mod pieces;

pub use pieces::Pieces;
