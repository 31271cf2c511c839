//! Disks: what a read gives, and what a crash may leave of writes that were not synced.
//!
//! A `Disk` also says what a crash at any earlier moment might have left, so a contract can speak of
//! every moment inside a call. Its theorems are: `MemDisk`, whose calls fail or stop where a test
//! says so, is a `Disk`; `crash_image` gives bytes that a crash may leave.
#![tactic(auto)]

mod crash;
mod disk;
mod making;
mod memory;

pub use crash::Unsynced;
pub use disk::{Disk, Failed};
pub use making::DiskRoom;
pub use memory::{Call, MemDisk};
