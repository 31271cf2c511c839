//! A record put after the closed gate of the live disk: its bytes first, then the gate, each with a sync of its own.
ghost use Rattle.std.specs.Prelude.{◌≡◌, ◌⊎◌, ◌+◌, ◌<◌, ◌≤◌, ◌++◌, [], ◌∷◌, is_some, Bool, List, ℕ, Some, length, OnOk};
ghost use Rattle.cx_disk.specs.Disk.{Only, LeavesOnly, HasCause};
ghost use Rattle.cx_journal.specs.Generation.{generation};
ghost use Rattle.cx_journal.specs.Pair.{front_of, IsTwin, IsLive};
ghost use Rattle.cx_journal.specs.Journal.{append_body, frames};

use crate::adding::write_synced;
use cx_disk::{Disk, Failed};

/// Puts what comes after the gate of a record, and opens the gate, in four calls.
pub(crate) fn append_to<D: Disk>(disk: &mut D, gate: u64, bytes: &[u8]) -> Result<(), Failed>
    requires gate { gate < D.size disk.old }

    // At `Ok` the list has the record.
    ensures kept { (second : Bool) (payloads : List (List ℕ)) (payload live other : List ℕ)
        → length payload ≤ 32768 → bytes.now ≡ append_body payload
        → IsLive D.seen D.may_leave disk.old live → IsTwin second payloads live other
        → gate ≡ length (front_of (generation live) ++ frames payloads)
        → OnOk result ((file : List ℕ) × IsLive D.seen D.may_leave disk.new file
        × IsTwin second (payloads ++ payload ∷ []) file other
        × (generation file ≡ generation live)) }

    // At each moment the pair has the list, or the list and the record.
    ensures any_moment { (second : Bool) (payloads : List (List ℕ)) (payload live other : List ℕ)
        → length payload ≤ 32768 → bytes.now ≡ append_body payload
        → IsLive D.seen D.may_leave disk.old live → IsTwin second payloads live other
        → gate ≡ length (front_of (generation live) ++ frames payloads)
        → LeavesOnly D.moment D.left_since disk.old disk.new (λ c. IsTwin second payloads c other
        ⊎ IsTwin second (payloads ++ payload ∷ []) c other) }
    ensures size { OnOk result (gate + length bytes.now < D.size disk.new) }
    ensures tells { is_some (D.seen disk.new) ≡ is_some (D.seen disk.old) }
    ensures cause { HasCause (D.faults disk.old) (D.faults disk.new) result }
{
    write_synced(disk, gate + 1, bytes)?;
    write_synced(disk, gate, &[1])?;
    Ok(())
}
