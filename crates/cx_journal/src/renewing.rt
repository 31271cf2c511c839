//! A disk that is written anew: cleared first, then its bytes, then its first byte, each with a sync of its own.
ghost use Rattle.std.specs.Prelude.{◌≡◌, ◌+◌, ◌≤◌, [], ◌∷◌, max, take, is_some, List, ℕ, Option, Some, length, OnOk};
ghost use Rattle.cx_disk.specs.Disk.{written, Torn, TornCut, Only, LeavesOnly, HasCause};
ghost use Rattle.cx_journal.specs.Generation.{generation, IsBehind, IsOldOrNew};
ghost use Rattle.cx_journal.specs.Blank.{IsBlank};

use crate::adding::write_synced;
use cx_disk::{Disk, Failed};

/// Cuts and syncs. A crash in between leaves what a cut may leave.
pub(crate) fn cut_synced<D: Disk>(disk: &mut D, at: u64) -> Result<(), Failed>
    requires { at ≤ D.size disk.old }
    ensures done { (file : List ℕ) → D.seen disk.old ≡ Some file → OnOk result
        ((D.seen disk.new ≡ Some (take at file)) × Only (take at file) (D.may_leave disk.new)) }
    ensures any_moment { (file : List ℕ) → Only file (D.may_leave disk.old) →
        LeavesOnly D.moment D.left_since disk.old disk.new (TornCut at file) }
    ensures tells { is_some (D.seen disk.new) ≡ is_some (D.seen disk.old) }
    ensures size { OnOk result (D.size disk.new ≡ at) }
    ensures cause { HasCause (D.faults disk.old) (D.faults disk.new) result }
{
    disk.cut(at)?;
    disk.sync()?;
    Ok(())
}

/// Leaves a disk with one byte, a closed gate, whatever it had.
pub(crate) fn clear<D: Disk>(disk: &mut D) -> Result<(), Failed>
    ensures done { (file : List ℕ) → D.seen disk.old ≡ Some file → OnOk result
        ((D.seen disk.new ≡ Some (0 ∷ [])) × Only (0 ∷ []) (D.may_leave disk.new)) }

    // A disk that is not live stays one at each moment.
    ensures any_moment { (file : List ℕ) (live : Option ℕ) → D.seen disk.old ≡ Some file
        → Only file (D.may_leave disk.old) → IsBehind live (generation file)
        → LeavesOnly D.moment D.left_since disk.old disk.new (λ c. IsBehind live (generation c)) }

    // One without records has none at each moment.
    ensures blank { (file : List ℕ) → D.seen disk.old ≡ Some file → Only file (D.may_leave disk.old)
        → IsBlank file
        → LeavesOnly D.moment D.left_since disk.old disk.new (λ c. IsBlank c) }
    ensures tells { is_some (D.seen disk.new) ≡ is_some (D.seen disk.old) }
    ensures size { OnOk result (1 ≤ D.size disk.new) }
    ensures cause { HasCause (D.faults disk.old) (D.faults disk.new) result }
{
    let at = disk.len().min(1);
    cut_synced(disk, at)?;
    write_synced(disk, 0, &[0])?;
    Ok(())
}

/// Puts these bytes on a disk after a first byte, 4, which says that they are whole. In eight calls: a cut, the first byte, the
/// bytes after it, and the first byte again, each with a sync of its own.
pub(crate) fn put_anew<D: Disk>(disk: &mut D, bytes: &[u8]) -> Result<(), Failed>
    ensures done { (file : List ℕ) → D.seen disk.old ≡ Some file → OnOk result
        ((D.seen disk.new ≡ Some (4 ∷ bytes.now)) × Only (4 ∷ bytes.now) (D.may_leave disk.new)) }

    // A disk that is not live stays one at each moment, or has just these bytes.
    ensures any_moment { (file : List ℕ) (live : Option ℕ) → D.seen disk.old ≡ Some file
        → Only file (D.may_leave disk.old) → IsBehind live (generation file)
        → LeavesOnly D.moment D.left_since disk.old disk.new (IsOldOrNew live bytes.now) }
    ensures tells { is_some (D.seen disk.new) ≡ is_some (D.seen disk.old) }
    ensures size { OnOk result (1 + length bytes.now ≤ D.size disk.new) }
    ensures cause { HasCause (D.faults disk.old) (D.faults disk.new) result }
{
    clear(disk)?;
    write_synced(disk, 1, bytes)?;
    write_synced(disk, 0, &[4])?;
    Ok(())
}
