//! A record appended over two disks, whichever of them is live.
ghost use Rattle.std.specs.Prelude.{◌≡◌, ◌+◌, ◌<◌, ◌≤◌, ◌++◌, [], ◌∷◌, is_some, true, Bool, if◌then◌else◌, List, ℕ, Option, Some, length, IfOk, OnOk, IfErr, IsErrOf};
ghost use Rattle.cx_base.specs.Faults.{Rises};
ghost use Rattle.cx_letter.specs.declared.kept.Record.{Record};
ghost use Rattle.cx_letter.specs.Records.{fits};
ghost use Rattle.cx_msg.specs.RecordBytes.{spelling};
ghost use Rattle.cx_disk.specs.Disk.{LeavesOnly};
ghost use Rattle.cx_journal.specs.Generation.{generation};
ghost use Rattle.cx_journal.specs.Journal.{frames};
ghost use Rattle.cx_journal.specs.Pair.{front_of, IsTwin, IsLive};
ghost use Rattle.cx_journal.specs.Payload.{payloads};
ghost use Rattle.cx_journal.specs.Twin.{IsAppended, IsEitherLive, TwoRest, LeavesTwo, IsPairImageOf};
ghost use Rattle.cx_journal.specs.TwinChanges.{OneRises};

use crate::adding::body_of;
use crate::appending::append_to;
use cx_disk::Disk;
use cx_keep::KeepFault;
use cx_letter::Record;
use std::alloc::Global;

// Puts a record after the closed gate of the live disk, and answers the place of the next gate.
fn append_live<D: Disk>(
    alloc: Global,
    disk: &mut D,
    gate: u64,
    what: &Record,
) -> Result<u64, KeepFault>
    requires gate { gate < D.size disk.old }
    ensures done { (second : Bool) (old : List Record) (live beside : List ℕ)
        → IsLive D.seen D.may_leave disk.old live → IsTwin second (payloads old) live beside
        → gate ≡ length (front_of (generation live) ++ frames (payloads old))
        → OnOk result (IsAppended D.seen D.may_leave second (old
        ++ what.now ∷ []) beside (generation live) disk.new) }
    ensures any_moment { (second : Bool) (old : List Record) (live beside : List ℕ)
        → IsLive D.seen D.may_leave disk.old live → IsTwin second (payloads old) live beside
        → gate ≡ length (front_of (generation live) ++ frames (payloads old))
        → LeavesOnly D.moment D.left_since disk.old disk.new (IsEitherLive second old (old
        ++ what.now ∷ []) beside) }
    ensures next { IfOk result (λ next. next ≡ gate + (5 + length (spelling what.now))) }
    ensures size { IfOk result (λ next. next < D.size disk.new) }
    ensures tells { is_some (D.seen disk.new) ≡ is_some (D.seen disk.old) }
    ensures later { D.faults disk.old ≤ D.faults disk.new }
    ensures still { (IsErrOf result KeepFault.Failed → ⊥) → D.faults disk.new ≡ D.faults disk.old }
    ensures failed { IsErrOf result KeepFault.Failed
        → Rises (D.faults disk.old) (D.faults disk.new) }
    ensures no_memory { IsErrOf result KeepFault.NoMemory → disk.new ≡ disk.old }
{
    let bytes = match body_of(alloc, what) {
        Ok(bytes) => bytes,
        Err(_) => return Err(KeepFault::NoMemory),
    };
    match append_to(disk, gate, &bytes) {
        Ok(()) => Ok(gate + bytes.len() as u64),
        Err(_) => Err(KeepFault::Failed),
    }
}

/// Appends a record to the live one of two disks.
pub(crate) fn append_two<D: Disk>(
    alloc: Global,
    first: &mut D,
    second: &mut D,
    second_lives: bool,
    gate: u64,
    what: &Record,
) -> Result<u64, KeepFault>
    requires gate { gate < (if second_lives then D.size second.old else D.size first.old) }

    // At `Ok` the live disk has the record, and every crash leaves it.
    ensures done { (old : List Record) (gen : Option ℕ)
        → TwoRest D.seen D.may_leave second_lives gen old first.old second.old
        → gate ≡ length (front_of gen ++ frames (payloads old))
        → OnOk result (TwoRest D.seen D.may_leave second_lives gen (old
        ++ what.now ∷ []) first.new second.new) }
    ensures lasts { (old : List Record) (gen : Option ℕ)
        → TwoRest D.seen D.may_leave second_lives gen old first.old second.old
        → gate ≡ length (front_of gen ++ frames (payloads old))
        → OnOk result ((a b : List ℕ) → D.may_leave first.new a → D.may_leave second.new b
        → IsPairImageOf (old ++ what.now ∷ []) a b) }

    // A crash at any moment of any device call leaves the records, or the records and this one.
    ensures any_moment { (old : List Record) (gen : Option ℕ)
        → TwoRest D.seen D.may_leave second_lives gen old first.old second.old
        → gate ≡ length (front_of gen ++ frames (payloads old))
        → LeavesTwo D.moment D.left_since first.old second.old first.new second.new old (old
        ++ what.now ∷ []) }
    ensures next { IfOk result (λ next. next ≡ gate + (5 + length (spelling what.now))) }
    ensures size { IfOk result
        (λ next. next < (if second_lives then D.size second.new else D.size first.new)) }
    ensures place { (old : List Record) (gen : Option ℕ)
        → gate ≡ length (front_of gen ++ frames (payloads old))
        → IfOk result (λ next. next ≡ length (front_of gen ++ frames (payloads (old
        ++ what.now ∷ [])))) }
    ensures no_memory { IsErrOf result KeepFault.NoMemory
        → (first.new ≡ first.old) × (second.new ≡ second.old) }
    ensures first_tells { is_some (D.seen first.new) ≡ is_some (D.seen first.old) }
    ensures second_tells { is_some (D.seen second.new) ≡ is_some (D.seen second.old) }
    ensures first_later { D.faults first.old ≤ D.faults first.new }
    ensures second_later { D.faults second.old ≤ D.faults second.new }
    ensures still { (IsErrOf result KeepFault.Failed → ⊥)
        → (D.faults first.new ≡ D.faults first.old) × (D.faults second.new ≡ D.faults second.old) }
    ensures failed { IsErrOf result KeepFault.Failed
        → OneRises D.faults first.old second.old first.new second.new }
{
    if second_lives {
        return match append_live(alloc, second, gate, what) {
            Ok(next) => Ok(next),
            Err(fault) => Err(fault),
        };
    }
    match append_live(alloc, first, gate, what) {
        Ok(next) => Ok(next),
        Err(fault) => Err(fault),
    }
}

/// The same, with the place of the next gate added to the others. The room for it is taken before the first call.
pub(crate) fn append_noted<D: Disk>(
    alloc: Global,
    first: &mut D,
    second: &mut D,
    second_lives: bool,
    gates: &mut Vec<u64>,
    gate: u64,
    what: &Record,
) -> Result<u64, KeepFault>
    requires gate { gate < (if second_lives then D.size second.old else D.size first.old) }
    ensures done { (old : List Record) (gen : Option ℕ)
        → TwoRest D.seen D.may_leave second_lives gen old first.old second.old
        → gate ≡ length (front_of gen ++ frames (payloads old))
        → OnOk result
        (TwoRest D.seen D.may_leave second_lives gen (old ++ what.now ∷ []) first.new second.new) }
    ensures lasts { (old : List Record) (gen : Option ℕ)
        → TwoRest D.seen D.may_leave second_lives gen old first.old second.old
        → gate ≡ length (front_of gen ++ frames (payloads old))
        → OnOk result ((a b : List ℕ) → D.may_leave first.new a → D.may_leave second.new b
        → IsPairImageOf (old ++ what.now ∷ []) a b) }
    ensures any_moment { (old : List Record) (gen : Option ℕ)
        → TwoRest D.seen D.may_leave second_lives gen old first.old second.old
        → gate ≡ length (front_of gen ++ frames (payloads old))
        → LeavesTwo D.moment D.left_since first.old second.old first.new second.new old
        (old ++ what.now ∷ []) }
    ensures gates { IfOk result (λ next. gates.new.items ≡ gates.old.items ++ next ∷ []) }
    ensures same_gates { IfErr result (λ _. gates.new.items ≡ gates.old.items) }
    ensures size { IfOk result
        (λ next. next < (if second_lives then D.size second.new else D.size first.new)) }
    ensures place { (old : List Record) (gen : Option ℕ)
        → gate ≡ length (front_of gen ++ frames (payloads old))
        → IfOk result
        (λ next. next ≡ length (front_of gen ++ frames (payloads (old ++ what.now ∷ [])))) }
    ensures no_memory { IsErrOf result KeepFault.NoMemory
        → (first.new ≡ first.old) × (second.new ≡ second.old) }
    ensures first_tells { is_some (D.seen first.new) ≡ is_some (D.seen first.old) }
    ensures second_tells { is_some (D.seen second.new) ≡ is_some (D.seen second.old) }
    ensures first_later { D.faults first.old ≤ D.faults first.new }
    ensures second_later { D.faults second.old ≤ D.faults second.new }
    ensures still { (IsErrOf result KeepFault.Failed → ⊥)
        → (D.faults first.new ≡ D.faults first.old) × (D.faults second.new ≡ D.faults second.old) }
    ensures failed { IsErrOf result KeepFault.Failed
        → OneRises D.faults first.old second.old first.new second.new }
{
    match gates.reserve(1) {
        Ok(()) => {}
        Err(_) => return Err(KeepFault::NoMemory),
    }
    match append_two(alloc, first, second, second_lives, gate, what) {
        Ok(next) => {
            gates.push_reserved(next);
            Ok(next)
        }
        Err(fault) => Err(fault),
    }
}
