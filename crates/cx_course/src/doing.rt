//! What a hosted role is asked to do.

use cx_letter::Input;

/// What a hosted role is asked to do.
#[derive(Drop)]
pub enum Doing {
    /// A client begins with its outstanding requests.
    Begin,
    /// The role takes this input. Of a datagram that a recording node takes, the number is its own among those that the node
    /// sent; else it is 0.
    Give { number: u64, input: Input },
    /// A replica forgets values that no other will ask it for.
    Snap,
}
