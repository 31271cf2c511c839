//! How a role is woken from its store.

ghost use Rattle.std.specs.Prelude.{◌≡◌, ◌≤◌, List, ℕ, Some, true, is_some, IfOk, IfErr, IsTrue, MatchResult};
ghost use Rattle.cx_base.specs.Faults.{Rises};
ghost use Rattle.cx_base.specs.declared.role.Kind.TheVariants as kind;
ghost use Rattle.cx_journal.specs.Files.{OneFile, TwoFiles, both_told, one_told};
ghost use Rattle.cx_journal.specs.Image.{SameImage};
ghost use Rattle.cx_journal.specs.State.{told_records, IsImageOf};
ghost use Rattle.cx_journal.specs.Twin.{BothTell, IsPairImageOf, SamePair, seen_pair_records};
ghost use Rattle.cx_journal.specs.TwinChanges.{OneRises};
ghost use Rattle.cx_model.specs.Names.{names_role};
ghost use Rattle.cx_model.specs.Replica.{replica_rules};
ghost use Rattle.cx_seat.specs.declared.waking.WakeStop.TheVariants as wake_stop;
ghost use Rattle.cx_seat.specs.Wake.{IsBadStore, IsWoken};

use cx_base::{Cluster, RoleId};
use cx_disk::Disk;
use cx_journal::{Journal, Twin};
use cx_keep::OpenFault;
use cx_replica::Replica;
use cx_role::{Role, WakeFault};
use std::alloc::Global;

/// Why a role could not be woken.
#[derive(Clone, Copy)]
pub enum WakeStop {
    /// The store failed.
    Failed,
    /// The store has other bytes at this place, in bytes, than a journal of this role. Of two files it is a place in the live one, or 1 where their generations do not fit.
    Bad { at: u64 },
    NoMemory,
}

/// Wakes a role from its store: its journal is opened, and the role from the records that were read. `Failed` comes
/// exactly where the disk's count rose; `Bad` names exactly the first break of the bytes, or the place of the first
/// record that the role could not have appended, or the end of records that end too early. The disk is given back with
/// the fault, and its records are as they were.
pub fn wake<D: Disk, R: Role>(
    alloc: Global,
    cluster: &Cluster,
    me: RoleId,
    disk: D,
) -> Result<(Journal<D>, R), (WakeStop, D)>
    requires kind { me.kind ≡ R.rules.kind }
    requires named { IsTrue (names_role cluster.now me) }
    ensures role { IfOk result (λ p. IsWoken R.rules cluster.now me (one_told (D.seen disk))
        (one_told (D.seen p.0.disk)) p.0.gates (R.state p.1)) }
    ensures whole { IfOk result (λ p. p.0.whole ≡ true) }
    ensures lasts { is_some (D.seen disk) ≡ true
        → IfOk result (λ p.
        (c : List ℕ) → D.may_leave p.0.disk c → IsImageOf (told_records (D.seen p.0.disk)) c) }
    ensures bad { (file : List ℕ) (at : ℕ) → D.seen disk ≡ Some file
        → IfErr result
        (λ e. e.0 ≡ wake_stop.Bad at → IsBadStore R.rules cluster.now me (OneFile file) at) }
    ensures same { (file now : List ℕ) → D.seen disk ≡ Some file
        → IfErr result (λ e. D.seen e.1 ≡ Some now → SameImage now file) }
    ensures tells { IfErr result (λ e. is_some (D.seen e.1) ≡ is_some (D.seen disk)) }
    ensures failed { IfErr result
        (λ e. e.0 ≡ wake_stop.Failed → Rises (D.faults disk) (D.faults e.1)) }
    ensures later { MatchResult result (λ p. D.faults disk ≤ D.faults p.0.disk)
        (λ e. D.faults disk ≤ D.faults e.1) }
    ensures still { MatchResult result (λ p. D.faults p.0.disk ≡ D.faults disk)
        (λ e. (e.0 ≡ wake_stop.Failed → ⊥) → D.faults e.1 ≡ D.faults disk) }
{
    match Journal::open(alloc, disk, me.kind) {
        Ok((journal, records)) => match R::open(alloc, cluster, me, &records) {
            Ok(role) => Ok((journal, role)),
            Err(WakeFault::Record { index }) => {
                let at = journal.place(index);
                Err((WakeStop::Bad { at }, journal.into_disk()))
            }
            Err(WakeFault::NoMemory) => Err((WakeStop::NoMemory, journal.into_disk())),
        },
        Err((OpenFault::NotJournal { at, .. }, disk)) => Err((WakeStop::Bad { at }, disk)),
        Err((OpenFault::Failed, disk)) => Err((WakeStop::Failed, disk)),
        Err((OpenFault::NoMemory, disk)) => Err((WakeStop::NoMemory, disk)),
    }
}

/// Wakes a replica from its two stores, as `wake` does from one: of these one is live, and an older store that is a plain
/// journal is the first of them, beside an empty one. `Failed` comes exactly where the count of a disk rose; `Bad` names
/// the place in the live file. The disks are given back with the fault, and their records are as they were.
pub fn wake_twin<D: Disk>(
    alloc: Global,
    cluster: &Cluster,
    me: RoleId,
    first: D,
    second: D,
) -> Result<(Twin<D>, Replica), (WakeStop, D, D)>
    requires kind { me.kind ≡ kind.Replica }
    requires named { IsTrue (names_role cluster.now me) }
    ensures role { IfOk result (λ p. IsWoken replica_rules cluster.now me (both_told (D.seen first)
        (D.seen second)) (both_told (D.seen p.0.first) (D.seen p.0.second)) p.0.gates p.1) }
    ensures whole { IfOk result (λ p. p.0.whole ≡ true) }
    ensures lasts { BothTell D.seen first second
        → IfOk result (λ p. (a b : List ℕ) → D.may_leave p.0.first a → D.may_leave p.0.second b
        → IsPairImageOf (seen_pair_records D.seen p.0.first p.0.second) a b) }
    ensures bad { (a b : List ℕ) (at : ℕ) → D.seen first ≡ Some a → D.seen second ≡ Some b
        → IfErr result
        (λ e. e.0 ≡ wake_stop.Bad at → IsBadStore replica_rules cluster.now me (TwoFiles a b) at) }
    ensures same { (a b now now_second : List ℕ) → D.seen first ≡ Some a → D.seen second ≡ Some b
        → IfErr result
        (λ e. D.seen e.1 ≡ Some now → D.seen e.2 ≡ Some now_second → SamePair now now_second a b) }
    ensures first_tells { IfErr result (λ e. is_some (D.seen e.1) ≡ is_some (D.seen first)) }
    ensures second_tells { IfErr result (λ e. is_some (D.seen e.2) ≡ is_some (D.seen second)) }
    ensures failed { IfErr result
        (λ e. e.0 ≡ wake_stop.Failed → OneRises D.faults first second e.1 e.2) }
    ensures first_later { MatchResult result (λ p. D.faults first ≤ D.faults p.0.first)
        (λ e. D.faults first ≤ D.faults e.1) }
    ensures second_later { MatchResult result (λ p. D.faults second ≤ D.faults p.0.second)
        (λ e. D.faults second ≤ D.faults e.2) }
    ensures still { MatchResult result
        (λ p. (D.faults p.0.first ≡ D.faults first) × (D.faults p.0.second ≡ D.faults second))
        (λ e. (e.0 ≡ wake_stop.Failed → ⊥)
        → (D.faults e.1 ≡ D.faults first) × (D.faults e.2 ≡ D.faults second)) }
{
    match Twin::open(alloc, first, second) {
        Ok((twin, records)) => match Replica::open(alloc, cluster, me, &records) {
            Ok(role) => Ok((twin, role)),
            Err(WakeFault::Record { index }) => {
                let at = twin.place(index);
                let (first, second) = twin.into_disks();
                Err((WakeStop::Bad { at }, first, second))
            }
            Err(WakeFault::NoMemory) => {
                let (first, second) = twin.into_disks();
                Err((WakeStop::NoMemory, first, second))
            }
        },
        Err((OpenFault::NotJournal { at, .. }, first, second)) => {
            Err((WakeStop::Bad { at }, first, second))
        }
        Err((OpenFault::Failed, first, second)) => Err((WakeStop::Failed, first, second)),
        Err((OpenFault::NoMemory, first, second)) => Err((WakeStop::NoMemory, first, second)),
    }
}
