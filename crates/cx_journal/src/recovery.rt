//! The records on a disk that a crash may have left.
ghost use Rattle.std.specs.Prelude.{◌≡◌, ◌⊎◌, ◌<◌, ◌≤◌, true, is_some, List, ℕ, Some, Ok, length, IfOk, OnOk, IfErr, IsErrOf};
ghost use Rattle.cx_base.specs.Faults.{Rises};
ghost use Rattle.cx_disk.specs.Disk.{Elapses, HasCause, LeavesOnly};
ghost use Rattle.cx_journal.specs.Journal.{gates_from, IsAtRest};
ghost use Rattle.cx_journal.specs.Payload.{payloads, all_kept_by};
ghost use Rattle.cx_journal.specs.Image.{image, SameImage};
ghost use Rattle.cx_journal.specs.Found.{IsFaultOf};
ghost use Rattle.cx_journal.specs.State.{IsUnwritten};

use crate::Found;
use crate::adding::write_synced;
use crate::image::{first_gate, found_in};
use cx_base::{Kind, NoMemory};
use cx_disk::{Disk, Failed};
use cx_keep::OpenFault;
use std::alloc::Global;

pub(crate) fn zeros(alloc: Global, len: usize) -> Result<Vec<u8>, NoMemory>
    ensures { IfOk result (λ v. length v.items ≡ len) }
{
    Ok(vec![in alloc; 0u8; len]?)
}

/// Reads the whole disk into a vector of its length.
pub(crate) fn fill<D: Disk>(disk: &mut D, bytes: &mut Vec<u8>) -> Result<(), Failed>
    requires { length bytes.old.items ≡ D.size disk.old }
    ensures bytes { (file : List ℕ) → D.seen disk.old ≡ Some file
        → OnOk result (bytes.new.items ≡ file) }
    ensures length { length bytes.new.items ≡ length bytes.old.items }
    ensures seen { D.seen disk.new ≡ D.seen disk.old }
    ensures size { D.size disk.new ≡ D.size disk.old }
    ensures crash { (c : List ℕ) → D.may_leave disk.new c → D.may_leave disk.old c }
    ensures time { Elapses (D.moment disk.old) (D.moment disk.new) (D.left_since disk.old)
        (D.left_since disk.new) (D.may_leave disk.new) }
    ensures cause { HasCause (D.faults disk.old) (D.faults disk.new) result }
{
    disk.read(0, bytes)
}

/// Syncs the disk and reads its records, for a role of the kind or of any kind. Where the disk has at most one byte, it writes
/// the first closed gate. Out of memory, it writes nothing.
pub(crate) fn read_disk<D: Disk>(
    alloc: Global,
    kind: Option<Kind>,
    disk: &mut D,
) -> Result<Found, OpenFault>
    ensures found { (file : List ℕ) → D.seen disk.old ≡ Some file
        → IfOk result (λ f. image kind file ≡ Ok f.records.items) }
    ensures at_rest { (file : List ℕ) → D.seen disk.old ≡ Some file
        → IfOk result
        (λ f. IsAtRest D.seen D.may_leave disk.new f.gate (payloads f.records.items)) }
    ensures fit { IfOk result (λ f. all_kept_by kind f.records.items ≡ true) }
    ensures gates { IfOk result (λ f. f.gates.items ≡ gates_from 0 (payloads f.records.items)) }
    ensures broken { (file : List ℕ) → D.seen disk.old ≡ Some file
        → IfErr result (IsFaultOf kind file) }

    // What a read gives keeps its image, also where the call fails.
    ensures same { (file now : List ℕ) → D.seen disk.old ≡ Some file → D.seen disk.new ≡ Some now
        → SameImage now file }

    // A crash in the call leaves what one before it might have left, or bytes with the same image.
    ensures any_moment { (file : List ℕ) → D.seen disk.old ≡ Some file
        → LeavesOnly D.moment D.left_since disk.old disk.new
        (λ c. D.may_leave disk.old c ⊎ SameImage c file) }
    ensures gate { IfOk result (λ f. f.gate < D.size disk.new) }
    ensures tells { is_some (D.seen disk.new) ≡ is_some (D.seen disk.old) }
    ensures later { D.faults disk.old ≤ D.faults disk.new }
    ensures still { (IsErrOf result OpenFault.Failed → ⊥) → D.faults disk.new ≡ D.faults disk.old }
    ensures failed { IsErrOf result OpenFault.Failed
        → Rises (D.faults disk.old) (D.faults disk.new) }
    ensures unwritten { IsErrOf result OpenFault.NoMemory
        → IsUnwritten D.seen D.may_leave D.size disk.old disk.new }
{
    match disk.sync() {
        Ok(()) => {}
        Err(_) => return Err(OpenFault::Failed),
    }
    let len = disk.len();
    if len < 2 {
        let found = match first_gate(alloc) {
            Ok(found) => found,
            Err(_) => return Err(OpenFault::NoMemory),
        };
        return match write_synced(disk, 0, &[0]) {
            Ok(()) => Ok(found),
            Err(_) => Err(OpenFault::Failed),
        };
    }
    let mut bytes = match zeros(alloc, len as usize) {
        Ok(bytes) => bytes,
        Err(_) => return Err(OpenFault::NoMemory),
    };
    match fill(disk, &mut bytes) {
        Ok(()) => {}
        Err(_) => return Err(OpenFault::Failed),
    }
    found_in(alloc, kind, &bytes)
}
