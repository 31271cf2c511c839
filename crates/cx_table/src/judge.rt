//! What the table says of a client's number.

use cx_base::Reply;

/// What the table says of a client's number.
#[derive(Clone, Copy, Debug, PartialEq, Eq)]
pub enum Judge {
    /// The client isn't done with it, and it has no answer.
    New,
    /// It has an answer: one more than the slot of its command, and the reply.
    Last { at: u64, reply: Reply },
    /// The client is done with it.
    Past,
}
