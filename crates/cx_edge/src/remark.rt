//! What is said to whoever watches a node.

use cx_base::RoleId;
use std::fmt;

/// For so many beats no client of the node was told anything, and the first of this one's requests that isn't answered has this
/// number.
#[derive(Clone, Copy)]
pub struct Remark {
    pub client: RoleId,
    pub number: u64,
    pub beats: u32,
}

impl fmt::Display for Remark {
    fn fmt<W: fmt::Write>(&self, f: &mut fmt::Formatter<W>) -> fmt::Result {
        let kind = self.client.kind.text();
        let index = self.client.index;
        let number = self.number;
        let beats = self.beats;
        write!(
            f,
            "{kind}:{index}: nothing was answered to number {number} for {beats} beats: its number may not be above all that "
        )?;
        write!(f, "this client used before, or a role is down")
    }
}
