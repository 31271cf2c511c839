//! A record put after the closed gate: its bytes first, then the gate, each with a sync of its own.
ghost use Rattle.std.specs.Prelude.{◌≡◌, ◌+◌, ◌<◌, ◌≤◌, ◌++◌, [], ◌∷◌, max, is_some, List, ℕ, Some, length, IfOk, IfErr, OnOk, IsErrOf};
ghost use Rattle.cx_base.specs.Faults.{Rises};
ghost use Rattle.cx_msg.specs.RecordBytes.{spelling};
ghost use Rattle.cx_disk.specs.Disk.{written, Torn, Only, LeavesOnly, HasCause};
ghost use Rattle.cx_journal.specs.Journal.{append_body, IsAtRest, IsBeforeOrAfter};

use cx_base::NoMemory;
use cx_disk::{Disk, Failed};
use cx_keep::KeepFault;
use cx_letter::Record;
use cx_msg::record_into;
use cx_wire::put_u32;
use std::alloc::Global;

/// Writes and syncs. A crash in between leaves what a torn write may leave.
pub(crate) fn write_synced<D: Disk>(disk: &mut D, at: u64, bytes: &[u8]) -> Result<(), Failed>
    requires { at ≤ D.size disk.old }
    ensures done { (file : List ℕ) → D.seen disk.old ≡ Some file → OnOk result
        ((D.seen disk.new ≡ Some (written at bytes.now file))
        × Only (written at bytes.now file) (D.may_leave disk.new)) }
    ensures any_moment { (file : List ℕ) → Only file (D.may_leave disk.old) →
        LeavesOnly D.moment D.left_since disk.old disk.new (Torn at (length bytes.now) file) }
    ensures tells { is_some (D.seen disk.new) ≡ is_some (D.seen disk.old) }
    ensures size { OnOk result (D.size disk.new ≡ max (D.size disk.old) (at + length bytes.now)) }
    ensures cause { HasCause (D.faults disk.old) (D.faults disk.new) result }
{
    disk.write_at(at, bytes)?;
    disk.sync()?;
    Ok(())
}

/// What comes after the gate of a record: its length, its bytes, and a closed gate.
pub(crate) fn body_of(alloc: Global, what: &Record) -> Result<Vec<u8>, NoMemory>
    ensures body { IfOk result (λ v. v.items ≡ append_body (spelling what.now)) }
    ensures most { IfOk result (λ _. length (spelling what.now) ≤ 30620) }
{
    let mut payload = Vec::new(alloc);
    record_into(alloc, what, &mut payload)?;
    let mut bytes = Vec::new(alloc);
    put_u32(&mut bytes, payload.len() as u32)?;
    bytes.extend_from_slice(&payload)?;
    bytes.push(0)?;
    Ok(bytes)
}

/// Puts a record after the closed gate at a place, and returns the place of the next one.
pub(crate) fn append_at<D: Disk>(
    alloc: Global,
    disk: &mut D,
    gate: u64,
    what: &Record,
) -> Result<u64, KeepFault>
    requires gate { gate < D.size disk.old }

    // At `Ok` the record is on the disk.
    ensures kept { (payloads : List (List ℕ)) → IsAtRest D.seen D.may_leave disk.old gate payloads
        → IfOk result
        (λ next. IsAtRest D.seen D.may_leave disk.new next (payloads ++ spelling what.now ∷ [])) }

    // A crash at any moment of the call leaves the records from before it, with the new one or without.
    ensures any_moment { (payloads : List (List ℕ))
        → IsAtRest D.seen D.may_leave disk.old gate payloads
        → LeavesOnly D.moment D.left_since disk.old disk.new
        (IsBeforeOrAfter payloads (spelling what.now)) }
    ensures next { IfOk result (λ next. next ≡ gate + (5 + length (spelling what.now))) }
    ensures gate { IfOk result (λ next. next < D.size disk.new) }
    ensures tells { is_some (D.seen disk.new) ≡ is_some (D.seen disk.old) }
    ensures later { D.faults disk.old ≤ D.faults disk.new }
    ensures still { (IsErrOf result KeepFault.Failed → ⊥) → D.faults disk.new ≡ D.faults disk.old }
    ensures failed { IsErrOf result KeepFault.Failed
        → Rises (D.faults disk.old) (D.faults disk.new) }
    ensures no_memory { IsErrOf result KeepFault.NoMemory → disk.new ≡ disk.old }
{
    let bytes = match body_of(alloc, what) {
        Ok(bytes) => bytes,
        Err(_) => return Err(KeepFault::NoMemory),
    };
    match write_synced(disk, gate + 1, &bytes) {
        Ok(()) => {}
        Err(_) => return Err(KeepFault::Failed),
    }
    match write_synced(disk, gate, &[1]) {
        Ok(()) => {}
        Err(_) => return Err(KeepFault::Failed),
    }
    Ok(gate + bytes.len() as u64)
}

/// The same, with the place of the next gate added to the others.
pub(crate) fn append_in<D: Disk>(
    alloc: Global,
    disk: &mut D,
    gates: &mut Vec<u64>,
    gate: u64,
    what: &Record,
) -> Result<u64, KeepFault>
    requires gate { gate < D.size disk.old }
    ensures kept { (payloads : List (List ℕ)) → IsAtRest D.seen D.may_leave disk.old gate payloads
        → IfOk result
        (λ next. IsAtRest D.seen D.may_leave disk.new next (payloads ++ spelling what.now ∷ [])) }
    ensures any_moment { (payloads : List (List ℕ))
        → IsAtRest D.seen D.may_leave disk.old gate payloads
        → LeavesOnly D.moment D.left_since disk.old disk.new
        (IsBeforeOrAfter payloads (spelling what.now)) }
    ensures gates { IfOk result (λ next. gates.new.items ≡ gates.old.items ++ next ∷ []) }
    ensures same_gates { IfErr result (λ _. gates.new.items ≡ gates.old.items) }
    ensures gate { IfOk result (λ next. next < D.size disk.new) }
    ensures tells { is_some (D.seen disk.new) ≡ is_some (D.seen disk.old) }
    ensures later { D.faults disk.old ≤ D.faults disk.new }
    ensures still { (IsErrOf result KeepFault.Failed → ⊥) → D.faults disk.new ≡ D.faults disk.old }
    ensures failed { IsErrOf result KeepFault.Failed
        → Rises (D.faults disk.old) (D.faults disk.new) }
    ensures no_memory { IsErrOf result KeepFault.NoMemory → disk.new ≡ disk.old }
{
    match gates.reserve(1) {
        Ok(()) => {}
        Err(_) => return Err(KeepFault::NoMemory),
    }
    match append_at(alloc, disk, gate, what) {
        Ok(next) => {
            gates.push_reserved(next);
            Ok(next)
        }
        Err(fault) => Err(fault),
    }
}
