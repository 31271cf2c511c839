//! The journal of a role: its records on a disk, which outlive a crash at any moment.
//!
//! Its theorems are: after an append answered with Ok every crash leaves the record, and a crash at any
//! moment of one leaves the records from before, or those and the one in flight; `open` gives
//! exactly the records of the bytes, or the first break with its place. One list over two disks has the
//! same, whatever a crash leaves of the one beside whatever it leaves of the other; and a crash at any
//! moment of a renewal leaves the old list or the new one.
#![tactic(auto)]

mod adding;
mod anew;
mod appending;
mod image;
mod journal;
mod keeping;
mod live;
mod longer;
mod opening;
mod pair;
mod payload;
mod recovery;
mod renewing;
mod split;
mod store;
mod twin;
mod twin_keeping;
mod two;
mod whole;

pub use image::Found;
pub use journal::Journal;
pub use store::RecordStore;
pub use twin::Twin;
