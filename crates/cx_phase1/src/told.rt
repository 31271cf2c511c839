//! The result of an acceptor's answer.

/// The result of an acceptor's answer.
#[derive(Clone, Copy, Debug, PartialEq, Eq)]
pub enum Told {
    /// It counts, and each live grid now has a whole row.
    Whole,
    /// It counts, and more are needed.
    Counted,
    /// The acceptor was counted before.
    Same,
    /// The acceptor is a member of no live grid.
    Unasked,
}
