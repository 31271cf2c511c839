//! What a crash of a disk in memory may leave, as bytes.
ghost use Rattle.std.specs.Prelude.{◌≡◌, IfOk, OnOk};
ghost use Rattle.cx_disk.specs.MemDisk.{fill, fill_after, filled};
ghost use Rattle.cx_disk.specs.MemDiskViews.{mem_disk_bytes, IsCrashImage, synced_by, filled_by};

use crate::MemDisk;
use crate::making::copy_in;
use crate::memory::{Call, write_over};
use cx_base::NoMemory;
use std::alloc::Global;

/// What becomes of the calls since the last sync.
#[derive(Clone, Copy)]
pub enum Unsynced {
    /// All of them are there.
    Kept,
    /// None of them is.
    Lost,
    /// Each range that was written, also by a call that failed, has bytes of 0xff; cuts are made.
    Filled,
}

fn fill(alloc: Global, file: &mut Vec<u8>, at: u64, len: usize) -> Result<(), NoMemory>
    ensures { OnOk result (file.new.items ≡ fill at len file.old.items) }
{
    if file.len() as u64 >= at {
        let bytes = vec![in alloc; 0xffu8; len]?;
        file.reserve(len)?;
        write_over(file, at as usize, &bytes);
    }
    Ok(())
}

fn fill_after(alloc: Global, synced: &[u8], file: &mut Vec<u8>, call: Call) -> Result<(), NoMemory>
    ensures { OnOk result (file.new.items ≡ fill_after synced.now file.old.items call) }
{
    match call {
        Call::Write { at, len, .. } => fill(alloc, file, at, len)?,
        Call::WriteFailed { at, len } => fill(alloc, file, at, len)?,
        Call::Cut { at } => file.truncate(at as usize),
        Call::CutFailed { .. } => {}
        Call::Sync => {
            file.clear();
            file.extend_from_slice(synced)?;
        }
    }
    Ok(())
}

fn filled(alloc: Global, synced: &[u8], calls: &[Call]) -> Result<Vec<u8>, NoMemory>
    ensures { IfOk result (λ v. v.items ≡ filled synced.now calls.now) }
{
    let mut file = copy_in(alloc, synced, synced.len())?;
    for call in calls {
        fill_after(alloc, synced, &mut file, *call)?;
    }
    Ok(file)
}

impl MemDisk {
    /// The bytes that a crash at this moment leaves, of those that it may leave.
    pub fn crash_image(&self, alloc: Global, unsynced: Unsynced) -> Result<Vec<u8>, NoMemory>
        ensures left { IfOk result (λ v. IsCrashImage self.now v.items) }
        ensures kept { unsynced ≡ Unsynced.Kept
            → IfOk result (λ v. v.items ≡ mem_disk_bytes self.now) }
        ensures lost { unsynced ≡ Unsynced.Lost → IfOk result (λ v. v.items ≡ synced_by self.now) }
        ensures filled { unsynced ≡ Unsynced.Filled
            → IfOk result (λ v. v.items ≡ filled_by self.now) }
    {
        match unsynced {
            Unsynced::Kept => copy_in(alloc, &self.bytes, self.bytes.len()),
            Unsynced::Lost => copy_in(alloc, &self.synced, self.synced.len()),
            Unsynced::Filled => filled(alloc, &self.synced, &self.calls),
        }
    }
}
