//! Two disks, opened and read.
ghost use Rattle.std.specs.Prelude.{◌≡◌, ◌+◌, ◌<◌, ◌≤◌, if◌then◌else◌, length, is_some, true, false, List, ℕ, Some, Ok, Err, IfOk, IfErr};
ghost use Rattle.cx_keep.specs.declared.keeper.OpenFault.TheVariants as fault;
ghost use Rattle.cx_disk.specs.Disk.{LeavesOnly};
ghost use Rattle.cx_letter.specs.declared.kept.Record.{Record};
ghost use Rattle.cx_journal.specs.Blank.{IsLeftOr, IsSame};
ghost use Rattle.cx_journal.specs.Files.{TwoFiles, front_in};
ghost use Rattle.cx_journal.specs.Found.{IsOutside};
ghost use Rattle.cx_journal.specs.Generation.{IsGeneration, generation, second_is_live};
ghost use Rattle.cx_journal.specs.Pair.{front_of};
ghost use Rattle.cx_journal.specs.Payload.{all_kept_by};
ghost use Rattle.cx_journal.specs.State.{IsUnwritten};
ghost use Rattle.cx_journal.specs.Twin.{BothTell, seen_pair_records, PairRests, IsFaultOfPair, HasImage, LeavesSame, SamePair, pair_image};
ghost use Rattle.cx_journal.specs.TwinChanges.{OneRises};

use crate::Found;
use crate::live::{read_first, read_live};
use crate::opening::{Live, PairFault, find_live};
use cx_base::Kind;
use cx_disk::Disk;
use cx_keep::OpenFault;
use std::alloc::Global;

/// Syncs both disks, finds the live one and reads its records, for a role of the kind or of any kind. A first one that is live and has
/// no records and no generation is cleared.
pub(crate) fn read_pair<D: Disk>(
    alloc: Global,
    kind: Option<Kind>,
    first: &mut D,
    second: &mut D,
) -> Result<(Live, Found), OpenFault>
    ensures image { (a b : List ℕ) → D.seen first.old ≡ Some a → D.seen second.old ≡ Some b
        → IfOk result (λ p. pair_image kind a b ≡ Ok p.1.records.items) }
    ensures rests { (a b : List ℕ) → D.seen first.old ≡ Some a → D.seen second.old ≡ Some b
        → IfOk result (λ p. PairRests D.seen D.may_leave kind p.0 p.1 first.new second.new) }
    ensures broken { (a b : List ℕ) → D.seen first.old ≡ Some a → D.seen second.old ≡ Some b
        → IfErr result (IsFaultOfPair kind a b) }

    // The records begin where the two files say.
    ensures front { (a b : List ℕ) → D.seen first.old ≡ Some a → D.seen second.old ≡ Some b
        → IfOk result (λ p. front_of p.0.generation ≡ front_in (TwoFiles a b)) }

    // A crash in the call leaves of each disk what it might have left before; of the first one also another file
    // without records, where it had none.
    ensures first_moment { (a : List ℕ) → D.seen first.old ≡ Some a
        → LeavesOnly D.moment D.left_since first.old first.new (IsLeftOr (D.may_leave first.old)) }
    ensures second_moment { LeavesOnly D.moment D.left_since second.old second.new
        (D.may_leave second.old) }
    ensures same { (a now : List ℕ) → D.seen first.old ≡ Some a → D.seen first.new ≡ Some now
        → IsSame now a }

    // Out of memory, nothing was written.
    ensures first_unwritten { result ≡ Err fault.NoMemory
        → IsUnwritten D.seen D.may_leave D.size first.old first.new }
    ensures second_unwritten { result ≡ Err fault.NoMemory
        → IsUnwritten D.seen D.may_leave D.size second.old second.new }
    ensures fit { IfOk result (λ p. all_kept_by kind p.1.records.items ≡ true) }
    ensures sound { IfOk result (λ p. IsGeneration p.0.generation) }
    ensures gates { IfOk result (λ p. length p.1.gates.items ≡ length p.1.records.items + 1) }
    ensures gate { IfOk result
        (λ p. p.1.gate < (if p.0.second then D.size second.new else D.size first.new)) }
    ensures first_tells { is_some (D.seen first.new) ≡ is_some (D.seen first.old) }
    ensures second_seen { D.seen second.new ≡ D.seen second.old }
    ensures first_later { D.faults first.old ≤ D.faults first.new }
    ensures second_later { D.faults second.old ≤ D.faults second.new }
    ensures still { (result ≡ Err fault.Failed → ⊥)
        → (D.faults first.new ≡ D.faults first.old) × (D.faults second.new ≡ D.faults second.old) }
    ensures failed { result ≡ Err fault.Failed
        → OneRises D.faults first.old second.old first.new second.new }
{
    let live = match find_live(first, second) {
        Ok(live) => live,
        Err(PairFault::Failed) => return Err(OpenFault::Failed),
        Err(PairFault::Bad(byte)) => {
            return Err(OpenFault::NotJournal {
                at: 1,
                byte: Some(byte),
            });
        }
    };
    let is_generational = live.generation.is_some();
    if live.second {
        return match read_live(alloc, kind, second, is_generational) {
            Ok(found) => Ok((live, found)),
            Err(fault) => Err(fault),
        };
    }
    match read_first(alloc, kind, first, is_generational) {
        Ok(found) => Ok((live, found)),
        Err(fault) => Err(fault),
    }
}

/// The same, said of both disks at once.
pub(crate) fn read_both<D: Disk>(
    alloc: Global,
    kind: Option<Kind>,
    first: &mut D,
    second: &mut D,
) -> Result<(Live, Found), OpenFault>
    ensures image { (a b : List ℕ) → D.seen first.old ≡ Some a → D.seen second.old ≡ Some b
        → IfOk result (λ p. pair_image kind a b ≡ Ok p.1.records.items) }
    ensures rests { (a b : List ℕ) → D.seen first.old ≡ Some a → D.seen second.old ≡ Some b
        → IfOk result (λ p. PairRests D.seen D.may_leave kind p.0 p.1 first.new second.new) }
    ensures broken { (a b : List ℕ) → D.seen first.old ≡ Some a → D.seen second.old ≡ Some b
        → IfErr result (IsFaultOfPair kind a b) }

    // The records begin where the two files say.
    ensures front { (a b : List ℕ) → D.seen first.old ≡ Some a → D.seen second.old ≡ Some b
        → IfOk result (λ p. front_of p.0.generation ≡ front_in (TwoFiles a b)) }

    // Where the two have records, these are read, and there is no break.
    ensures list { (records : List Record) → BothTell D.seen first.old second.old
        → HasImage D.seen kind first.old second.old records
        → IfOk result (λ p. p.1.records.items ≡ records) }
    ensures never { (records : List Record) → BothTell D.seen first.old second.old
        → HasImage D.seen kind first.old second.old records → IfErr result (λ e. IsOutside e) }

    // What a read gives keeps its records, or its break, also where the call fails.
    ensures records { seen_pair_records D.seen first.new second.new
        ≡ seen_pair_records D.seen first.old second.old }
    ensures same { (a b c d : List ℕ) → D.seen first.old ≡ Some a → D.seen second.old ≡ Some b
        → D.seen first.new ≡ Some c → D.seen second.new ≡ Some d → SamePair c d a b }

    // A crash in the call leaves what one before it might have left, or two files with the same records or break.
    ensures any_moment { BothTell D.seen first.old second.old
        → LeavesSame D.may_leave D.moment D.left_since first.old second.old first.new second.new }

    // Out of memory, nothing was written.
    ensures first_unwritten { result ≡ Err fault.NoMemory
        → IsUnwritten D.seen D.may_leave D.size first.old first.new }
    ensures second_unwritten { result ≡ Err fault.NoMemory
        → IsUnwritten D.seen D.may_leave D.size second.old second.new }
    ensures fit { IfOk result (λ p. all_kept_by kind p.1.records.items ≡ true) }
    ensures sound { IfOk result (λ p. IsGeneration p.0.generation) }
    ensures gates { IfOk result (λ p. length p.1.gates.items ≡ length p.1.records.items + 1) }
    ensures gate { IfOk result
        (λ p. p.1.gate < (if p.0.second then D.size second.new else D.size first.new)) }
    ensures first_tells { is_some (D.seen first.new) ≡ is_some (D.seen first.old) }
    ensures second_tells { is_some (D.seen second.new) ≡ is_some (D.seen second.old) }
    ensures first_later { D.faults first.old ≤ D.faults first.new }
    ensures second_later { D.faults second.old ≤ D.faults second.new }
    ensures still { (result ≡ Err fault.Failed → ⊥)
        → (D.faults first.new ≡ D.faults first.old) × (D.faults second.new ≡ D.faults second.old) }
    ensures failed { result ≡ Err fault.Failed
        → OneRises D.faults first.old second.old first.new second.new }
{
    read_pair(alloc, kind, first, second)
}
