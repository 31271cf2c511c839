//! Which roles tick.

use cx_base::Kind;

/// Those that are meant to tick.
#[derive(Clone, Copy)]
pub enum Whom {
    /// All of a kind.
    Kind { kind: Kind },
    /// All but clients.
    Others,
    /// The proxy leaders that wait for votes.
    Awaiting,
    /// The clients that have completed no request since the pass began.
    Overtaken,
}
