//! Why a line is no event.

use thiserror::Error;

/// The first fault of a line: it is too long, or else its first word from the left that its place doesn't take. A word that
/// is missing, and one too many, are such words too.
#[derive(Clone, Copy, Debug, PartialEq, Eq, Error)]
pub enum LineFault {
    /// The line has more than 1,024 bytes.
    #[error("line above 1,024 bytes")]
    Long,
    /// No number of decimal digits, or one outside its range, which for a floor depends on the request's number. In the place of
    /// a set of matchmakers also other than 2f + 1 ids of the cluster's that rise.
    #[error("no number, or out of range")]
    Number,
    /// No role's text, another kind of role than the place has, or a role outside the cluster.
    #[error("no role of the cluster that may stand here")]
    Role,
    /// No grid, or one with a member outside the cluster.
    #[error("no grid of the cluster's acceptors")]
    Grid,
    /// No key or text.
    #[error("no key or text")]
    Key,
    /// Any other word, a missing word, or one too many.
    #[error("another word than may stand here")]
    Word,
}
