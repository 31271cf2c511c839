//! The records of a live disk. A first one without records and without a generation is cleared before it is written to.
ghost use Rattle.std.specs.Prelude.{◌≡◌, ◌+◌, ◌<◌, ◌≤◌, ◌^◌, [], ◌∷◌, is_some, true, List, ℕ, Option, Some, Ok, Err, length, IfOk, IfErr};
ghost use Rattle.cx_base.specs.Faults.{Rises};
ghost use Rattle.cx_base.specs.declared.role.Kind.{Kind};
ghost use Rattle.cx_keep.specs.declared.keeper.OpenFault.TheVariants as fault;
ghost use Rattle.cx_disk.specs.Disk.{LeavesOnly};
ghost use Rattle.cx_journal.specs.Blank.{IsBlank, IsSame};
ghost use Rattle.cx_journal.specs.Found.{IsFaultIn};
ghost use Rattle.cx_journal.specs.Generation.{generation};
ghost use Rattle.cx_journal.specs.Image.{Image};
ghost use Rattle.cx_journal.specs.Pair.{IsLive};
ghost use Rattle.cx_journal.specs.Payload.{all_kept_by};
ghost use Rattle.cx_journal.specs.State.{IsUnwritten};
ghost use Rattle.cx_journal.specs.Twin.{IsFoundLive, IsReadFirst, file_image};

use crate::Found;
use crate::image::{first_gate, found_after, found_in};
use crate::opening::is_blank;
use crate::recovery::{fill, zeros};
use crate::renewing::clear;
use cx_base::Kind;
use cx_disk::Disk;
use cx_keep::OpenFault;
use std::alloc::Global;

/// The records in the bytes of a live disk, which begin after its generation, if it has one.
fn records_of(
    alloc: Global,
    kind: Option<Kind>,
    bytes: &[u8],
    is_generational: bool,
) -> Result<Found, OpenFault>
    requires some { 1 ≤ length bytes.now }
    requires most { length bytes.now < 2 ^ 63 }
    ensures found { is_generational ≡ is_some (generation bytes.now) → (length bytes.now ≡ 1
        → bytes.now ≡ 0 ∷ []) → IfOk result (IsFoundLive kind bytes.now) }
    ensures broken { is_generational ≡ is_some (generation bytes.now)
        → IfErr result (IsFaultIn (file_image kind bytes.now) bytes.now) }
    ensures fit { IfOk result (λ f. all_kept_by kind f.records.items ≡ true) }
    ensures gates { IfOk result (λ f. length f.gates.items ≡ length f.records.items + 1) }
    ensures gate { IfOk result (λ f. f.gate < length bytes.now) }
    ensures cause { result ≡ Err fault.Failed → ⊥ }
{
    if bytes.len() < 2 {
        return match first_gate(alloc) {
            Ok(found) => Ok(found),
            Err(_) => Err(OpenFault::NoMemory),
        };
    }
    if is_generational {
        return found_after(alloc, kind, bytes);
    }
    found_in(alloc, kind, bytes)
}

/// The records of a live disk, which was synced.
pub(crate) fn read_live<D: Disk>(
    alloc: Global,
    kind: Option<Kind>,
    disk: &mut D,
    is_generational: bool,
) -> Result<Found, OpenFault>
    requires { 1 ≤ D.size disk.old }
    ensures found { (file : List ℕ) → IsLive D.seen D.may_leave disk.old file
        → is_generational ≡ is_some (generation file) → (length file ≡ 1 → file ≡ 0 ∷ [])
        → IfOk result (IsFoundLive kind file) }
    ensures broken { (file : List ℕ) → IsLive D.seen D.may_leave disk.old file
        → is_generational ≡ is_some (generation file)
        → IfErr result (IsFaultIn (file_image kind file) file) }
    ensures rests { (file : List ℕ) → IsLive D.seen D.may_leave disk.old file
        → IsLive D.seen D.may_leave disk.new file }
    ensures seen { D.seen disk.new ≡ D.seen disk.old }
    ensures size { D.size disk.new ≡ D.size disk.old }
    ensures crash { (c : List ℕ) → D.may_leave disk.new c → D.may_leave disk.old c }
    ensures quiet { LeavesOnly D.moment D.left_since disk.old disk.new (D.may_leave disk.old) }
    ensures fit { IfOk result (λ f. all_kept_by kind f.records.items ≡ true) }
    ensures gates { IfOk result (λ f. length f.gates.items ≡ length f.records.items + 1) }
    ensures gate { IfOk result (λ f. f.gate < D.size disk.new) }
    ensures later { D.faults disk.old ≤ D.faults disk.new }
    ensures still { (result ≡ Err fault.Failed → ⊥) → D.faults disk.new ≡ D.faults disk.old }
    ensures failed { result ≡ Err fault.Failed → Rises (D.faults disk.old) (D.faults disk.new) }
{
    let len = disk.len();
    let mut bytes = match zeros(alloc, len as usize) {
        Ok(bytes) => bytes,
        Err(_) => return Err(OpenFault::NoMemory),
    };
    match fill(disk, &mut bytes) {
        Ok(()) => {}
        Err(_) => return Err(OpenFault::Failed),
    }
    records_of(alloc, kind, &bytes, is_generational)
}

/// The records of a disk that has none, which was synced. It is cleared, but only once all memory is there.
fn read_blank<D: Disk>(alloc: Global, disk: &mut D) -> Result<Found, OpenFault>
    ensures found { (kind : Option Kind) (file : List ℕ) → IsLive D.seen D.may_leave disk.old file
        → IsBlank file → IfOk result (λ f. IsReadFirst D.seen D.may_leave kind file f disk.new) }
    ensures any_moment { (file : List ℕ) → IsLive D.seen D.may_leave disk.old file → IsBlank file
        → LeavesOnly D.moment D.left_since disk.old disk.new (λ c. IsSame c file) }
    ensures broken { (image : Image) (bytes : List ℕ) → IfErr result (IsFaultIn image bytes) }
    ensures unwritten { result ≡ Err fault.NoMemory
        → IsUnwritten D.seen D.may_leave D.size disk.old disk.new }
    ensures fit { (kind : Option Kind)
        → IfOk result (λ f. all_kept_by kind f.records.items ≡ true) }
    ensures gates { IfOk result (λ f. length f.gates.items ≡ length f.records.items + 1) }
    ensures gate { IfOk result (λ f. f.gate < D.size disk.new) }
    ensures tells { is_some (D.seen disk.new) ≡ is_some (D.seen disk.old) }
    ensures later { D.faults disk.old ≤ D.faults disk.new }
    ensures still { (result ≡ Err fault.Failed → ⊥) → D.faults disk.new ≡ D.faults disk.old }
    ensures failed { result ≡ Err fault.Failed → Rises (D.faults disk.old) (D.faults disk.new) }
{
    let found = match first_gate(alloc) {
        Ok(found) => found,
        Err(_) => return Err(OpenFault::NoMemory),
    };
    match clear(disk) {
        Ok(()) => Ok(found),
        Err(_) => Err(OpenFault::Failed),
    }
}

/// The records of the first disk where it is live, which was synced. One without records and without a generation is cleared.
/// Out of memory, nothing is written.
pub(crate) fn read_first<D: Disk>(
    alloc: Global,
    kind: Option<Kind>,
    disk: &mut D,
    is_generational: bool,
) -> Result<Found, OpenFault>
    ensures found { (file : List ℕ) → IsLive D.seen D.may_leave disk.old file
        → is_generational ≡ is_some (generation file)
        → IfOk result (λ f. IsReadFirst D.seen D.may_leave kind file f disk.new) }
    ensures broken { (file : List ℕ) → IsLive D.seen D.may_leave disk.old file
        → is_generational ≡ is_some (generation file)
        → IfErr result (IsFaultIn (file_image kind file) file) }

    // A crash in the call leaves the file, or another one without records, where it had none.
    ensures any_moment { (file : List ℕ) → IsLive D.seen D.may_leave disk.old file
        → LeavesOnly D.moment D.left_since disk.old disk.new (λ c. IsSame c file) }
    ensures unwritten { result ≡ Err fault.NoMemory
        → IsUnwritten D.seen D.may_leave D.size disk.old disk.new }
    ensures fit { IfOk result (λ f. all_kept_by kind f.records.items ≡ true) }
    ensures gates { IfOk result (λ f. length f.gates.items ≡ length f.records.items + 1) }
    ensures gate { IfOk result (λ f. f.gate < D.size disk.new) }
    ensures tells { is_some (D.seen disk.new) ≡ is_some (D.seen disk.old) }
    ensures later { D.faults disk.old ≤ D.faults disk.new }
    ensures still { (result ≡ Err fault.Failed → ⊥) → D.faults disk.new ≡ D.faults disk.old }
    ensures failed { result ≡ Err fault.Failed → Rises (D.faults disk.old) (D.faults disk.new) }
{
    let is_blank = match is_blank(disk) {
        Ok(is_blank) => is_blank,
        Err(_) => return Err(OpenFault::Failed),
    };
    if is_blank {
        return read_blank(alloc, disk);
    }
    read_live(alloc, kind, disk, is_generational)
}
