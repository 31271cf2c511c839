//! The key-value map of a replica, and what executing commands leaves in it.
//!
//! Its theorems are: `Store::apply` is one step of the fold of commands, with its reply; so is
//! `PairMap::apply`, which can't fail, since room was taken beforehand; `apply_value` does those commands
//! of a value that take effect after others, which `ExecutedCommands` knows without holding all of these.
#![tactic(auto)]

mod acting;
mod append;
mod apply;
mod folding;
mod order;
mod pairs;
mod store;

pub use acting::ExecutedCommands;
pub use folding::apply_value;
pub use pairs::PairMap;
pub use store::Store;
