//! How a disk in memory is made, and looked at.
ghost use Rattle.std.specs.Prelude.{◌≡◌, IfOk};
ghost use Rattle.cx_disk.specs.Disk.{Only};
ghost use Rattle.cx_disk.specs.MemDiskViews.{mem_disk_bytes, IsCrashImage, failed_of};

use crate::MemDisk;
use cx_base::{Faults, NoMemory};
use std::alloc::Global;

/// For how much a disk in memory has room.
#[derive(Clone, Copy)]
pub struct DiskRoom {
    /// The most bytes that it may hold at a time. It has room at least for those that it begins with.
    pub bytes: usize,
    /// How many calls it can note: writes and cuts, also those that fail, and syncs.
    pub calls: usize,
    /// How many bytes all its writes may write in all.
    pub written: usize,
}

fn at_least(most: usize, least: usize) -> usize {
    if most < least { least } else { most }
}

/// A copy of the bytes, with room for more of them.
pub(crate) fn copy_in(alloc: Global, bytes: &[u8], room: usize) -> Result<Vec<u8>, NoMemory>
    ensures { IfOk result (λ v. v.items ≡ bytes.now) }
{
    let mut copy = Vec::with_capacity(alloc, room)?;
    copy.extend_from_slice(bytes)?;
    Ok(copy)
}

impl MemDisk {
    /// A disk that holds these bytes for certain. Its calls of `read`, `write_at`, `cut` and `sync` are numbered from 0; those
    /// with the numbers in `fails` fail. From the call with the number in `stop_after` on, if there is one, every call fails and
    /// changes nothing. All memory is taken here, and a call that would need more than this room fails too.
    pub fn new(
        alloc: Global,
        bytes: &[u8],
        room: DiskRoom,
        fails: Vec<u64>,
        stop_after: Option<u64>,
    ) -> Result<Self, NoMemory>
        ensures bytes { IfOk result (λ disk. mem_disk_bytes disk ≡ bytes.now) }
        ensures durable { IfOk result (λ disk. Only bytes.now (IsCrashImage disk)) }
        ensures faults { IfOk result (λ disk. failed_of disk ≡ 0) }
    {
        let most = at_least(room.bytes, bytes.len());
        Ok(MemDisk {
            first: bytes.to_vec(alloc)?,
            written: Vec::with_capacity(alloc, room.written)?,
            calls: Vec::with_capacity(alloc, room.calls)?,
            bytes: copy_in(alloc, bytes, most)?,
            synced: copy_in(alloc, bytes, most)?,
            fails,
            stop: stop_after,
            made: 0,
            faults: Faults::none(),
        })
    }

    /// What a read gives.
    pub fn bytes(&self) -> &[u8]
        ensures { result.now ≡ mem_disk_bytes self.now }
    {
        &self.bytes
    }
}
