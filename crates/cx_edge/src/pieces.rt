//! Places in one list of bytes that only grows.

use cx_base::RoleId;

/// A number of bytes from a place on.
#[derive(Clone, Copy)]
pub(crate) struct Piece {
    pub(crate) start: usize,
    pub(crate) len: usize,
}

/// What a role was asked to send to a port.
#[derive(Clone, Copy)]
pub(crate) struct SentRow {
    pub(crate) from: RoleId,
    pub(crate) port: u16,
    pub(crate) piece: Piece,
}

/// What is put before all that wait just before the take with this number.
#[derive(Clone, Copy)]
pub(crate) struct FrontRow {
    pub(crate) before: u64,
    pub(crate) piece: Piece,
}
