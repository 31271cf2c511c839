//! What becomes of a value that comes for a slot.

/// What becomes of a value that comes for a slot.
#[derive(Clone, Copy, Debug, PartialEq, Eq)]
pub enum Taken {
    /// The slot is held already.
    Past,
    /// The slot is too far ahead: 32 or more above the slots held.
    Full,
    /// The value waits for those before it.
    Early,
    /// It is the next slot's.
    Next,
}
