//! A list put anew over two disks, whichever of them is live.
ghost use Rattle.std.specs.Prelude.{◌≡◌, ◌⊎◌, ◌+◌, ◌<◌, ◌≤◌, ◌++◌, length, if◌then◌else◌, not, is_some, true, List, ℕ, Some, IfOk, IsErrOf, IsTrue};
ghost use Rattle.cx_letter.specs.declared.kept.Record.{Record};
ghost use Rattle.cx_keep.specs.Keeper.{all_fit};
ghost use Rattle.cx_journal.specs.Generation.{IsGeneration};
ghost use Rattle.cx_journal.specs.Journal.{frames, gates_from};
ghost use Rattle.cx_journal.specs.Payload.{payloads};
ghost use Rattle.cx_journal.specs.Twin.{TwoRest, LeavesTwo, IsPairImageOf};
ghost use Rattle.cx_journal.specs.TwinChanges.{OneRises};

use crate::anew::{Renewed, renew_other};
use cx_disk::Disk;
use cx_keep::KeepFault;
use cx_letter::Record;
use std::alloc::Global;

/// Puts these records in the place of all, on the disk that is not live.
pub(crate) fn renew_two<D: Disk>(
    alloc: Global,
    first: &mut D,
    second: &mut D,
    second_lives: bool,
    live_generation: Option<u8>,
    records: &[Record],
) -> Result<Renewed, KeepFault>
    requires fits { IsTrue (all_fit records.now) }
    requires sound { IsGeneration live_generation }

    // At `Ok` the other disk is live, with these records, and every crash leaves them.
    ensures done { (old : List Record)
        → TwoRest D.seen D.may_leave second_lives live_generation old first.old second.old
        → IfOk result (λ r. TwoRest D.seen D.may_leave (not second_lives)
        (Some r.generation) records.now first.new second.new) }
    ensures lasts { (old : List Record)
        → TwoRest D.seen D.may_leave second_lives live_generation old first.old second.old
        → IfOk result (λ r. (a b : List ℕ) → D.may_leave first.new a → D.may_leave second.new b
        → IsPairImageOf records.now a b) }

    // A crash at any moment of any device call leaves the old records or the new ones.
    ensures any_moment { (old : List Record)
        → TwoRest D.seen D.may_leave second_lives live_generation old first.old second.old
        → LeavesTwo D.moment D.left_since first.old second.old first.new second.new old
        records.now }
    ensures generation { IfOk result (λ r. r.generation < 3) }
    ensures size { IfOk result
        (λ r. r.gate < (if second_lives then D.size first.new else D.size second.new)) }
    ensures gates { IfOk result (λ r. r.gates.items ≡ gates_from 2 (payloads records.now)) }
    ensures gate { IfOk result (λ r. r.gate ≡ 2 + length (frames (payloads records.now))) }
    ensures no_memory { IsErrOf result KeepFault.NoMemory
        → (first.new ≡ first.old) × (second.new ≡ second.old) }
    ensures first_tells { is_some (D.seen first.new) ≡ is_some (D.seen first.old) }
    ensures second_tells { is_some (D.seen second.new) ≡ is_some (D.seen second.old) }
    ensures first_later { D.faults first.old ≤ D.faults first.new }
    ensures second_later { D.faults second.old ≤ D.faults second.new }
    ensures still { (IsErrOf result KeepFault.Failed → ⊥)
        → (D.faults first.new ≡ D.faults first.old) × (D.faults second.new ≡ D.faults second.old) }
    ensures failed { IsErrOf result KeepFault.Failed
        → OneRises D.faults first.old second.old first.new second.new }
{
    if second_lives {
        return match renew_other(alloc, first, live_generation, records) {
            Ok(renewed) => Ok(renewed),
            Err(fault) => Err(fault),
        };
    }
    match renew_other(alloc, second, live_generation, records) {
        Ok(renewed) => Ok(renewed),
        Err(fault) => Err(fault),
    }
}
