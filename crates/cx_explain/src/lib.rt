//! What is wrong with an input, said in words: where in its file, which rule, and what may be meant.
//!
//! Its theorems are: `explain` finds exactly the first bad line of a replay or a node, its place in
//! the file and the rule that it breaks; `check` reads an input and says exactly that in one line.
#![tactic(auto)]

mod checking;
mod finding;
mod header;
mod judging;
mod lines;
mod meant;
mod rule;
mod saying;
mod spot;

pub use checking::check;
pub use finding::{Finding, explain};
pub use judging::{Unjudged, read_finding};
pub use rule::Rule;
pub use saying::put_finding;
