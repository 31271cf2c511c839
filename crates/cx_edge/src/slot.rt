//! One store in memory.

use crate::Shelf;
use cx_disk::MemDisk;

/// A store in its place, and while it is out what it held before.
#[derive(Drop)]
pub(crate) struct Slot {
    pub(crate) place: Shelf,
    pub(crate) disk: Option<MemDisk>,
    pub(crate) before: Vec<u8>,
}
