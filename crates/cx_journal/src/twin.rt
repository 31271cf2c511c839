//! A journal over two disks, whose list can be put anew.
ghost use Rattle.std.specs.Prelude.{◌≡◌, ◌⊎◌, ◌+◌, ◌<◌, ◌≤◌, ◌++◌, ◌==◌, [], ◌∷◌, true, not, is_some, IsTrue, List, ℕ, Some, None, Ok, length, slice_index, take, IfOk, OnOk, IfErr, IsErrOf, MatchResult};
ghost use Rattle.cx_base.specs.declared.role.Kind.TheVariants as kind;
ghost use Rattle.cx_keep.specs.Keeper.{all_fit};
ghost use Rattle.cx_keep.specs.declared.keeper.OpenFault.TheVariants as fault;
ghost use Rattle.cx_letter.specs.Records.{fits};
ghost use Rattle.cx_journal.specs.Appends.{count_append, count_open};
ghost use Rattle.cx_journal.specs.Files.{TwoFiles, front_in};
ghost use Rattle.cx_journal.specs.Found.{IsOutside};
ghost use Rattle.cx_journal.specs.Journal.{frames};
ghost use Rattle.cx_journal.specs.Pair.{front_of};
ghost use Rattle.cx_journal.specs.Payload.{all_kept_by, payloads};
ghost use Rattle.cx_journal.specs.State.{IsUnwritten, has_some};
ghost use Rattle.cx_journal.specs.Twin.{BothTell, seen_pair_records, pair_image, IsFaultOfPair, SamePair, LeavesSame, LeavesTwo, IsPairImageOf};
ghost use Rattle.cx_journal.specs.TwinChanges.{OneRises};

use crate::longer::append_noted;
use crate::pair::read_both;
use crate::two::renew_two;
use cx_base::{Faults, Kind};
use cx_disk::Disk;
use cx_keep::{KeepFault, OpenFault};
use cx_letter::Record;
use std::alloc::Global;
use std::marker::Model;

/// The records of a replica over two disks: the live one has them, and the other takes the next renewal. After a change that
/// failed, they are read again before the next one.
#[derive(Drop)]
pub struct Twin<D: Disk> {
    alloc: Global,
    first: D,
    second: D,
    second_lives: bool,
    generation: Option<u8>,
    gates: Vec<u64>,
    gate: u64,
    pub(crate) whole: bool,
    faults: Faults,
}

impl<D: Disk> Model for Twin<D> {
    ghost use Rattle.cx_journal.specs.Twin.{TwinState, IsTwinReady};

    ghost Value = { TwinState D };

    ghost view = { λ t. record {
      first = t.first;
      second = t.second;
      second_lives = t.second_lives;
      generation = t.generation;
      gates = t.gates.items;
      gate = t.gate;
      whole = t.whole;
      faults = t.faults;
    } };

    ghost invariant = { λ t. IsTwinReady D.seen D.may_leave D.size
        (record {
          first = t.first;
          second = t.second;
          second_lives = t.second_lives;
          generation = t.generation;
          gates = t.gates.items;
          gate = t.gate;
          whole = t.whole;
          faults = t.faults;
        }) };
}

fn gate_of(gates: &[u64], index: usize) -> u64
    requires { index < length gates.now }
    ensures { result ≡ slice_index gates.now index }
{
    gates[index]
}

// Whether the closed gate is the only one.
fn is_single(gates: &[u64]) -> bool
    ensures { result ≡ (length gates.now == 1) }
{
    gates.len() == 1
}

impl<D: Disk> Twin<D> {
    /// Reads the records of a replica, and returns them. `NotJournal` names the byte of a generation that is above 2 or that of
    /// both disks, else the first break of the live disk; and `Failed` comes exactly where the count of a disk rose. The disks
    /// are given back with the fault.
    pub fn open(
        alloc: Global,
        first: D,
        second: D,
    ) -> Result<(Self, Vec<Record>), (OpenFault, D, D)>
        ensures records { (a b : List ℕ) → D.seen first ≡ Some a → D.seen second ≡ Some b
            → IfOk result (λ p. pair_image (Some kind.Replica) a b ≡ Ok p.1.items) }
        ensures kept { BothTell D.seen first second
            → IfOk result (λ p. seen_pair_records D.seen p.0.first p.0.second ≡ p.1.items) }
        ensures fit { IfOk result (λ p. all_kept_by (Some kind.Replica) p.1.items ≡ true) }
        ensures fits { IfOk result (λ p. IsTrue (all_fit p.1.items)) }
        ensures broken { (a b : List ℕ) → D.seen first ≡ Some a → D.seen second ≡ Some b
            → IfErr result (λ e. IsFaultOfPair (Some kind.Replica) a b e.0) }

        // The records begin where the two files say.
        ensures front { (a b : List ℕ) → D.seen first ≡ Some a → D.seen second ≡ Some b
            → IfOk result (λ p. front_of p.0.generation ≡ front_in (TwoFiles a b)) }

        // Every crash from then on leaves the records.
        ensures lasts { BothTell D.seen first second → IfOk result
            (λ p. (a b : List ℕ) → D.may_leave p.0.first a → D.may_leave p.0.second b
            → IsPairImageOf p.1.items a b) }
        ensures whole { IfOk result (λ p. p.0.whole ≡ true) }

        // Each record has a place, and so has the closed gate after them.
        ensures gates { IfOk result (λ p. length p.0.gates ≡ length p.1.items + 1) }

        // What a read gives keeps its records or its break, also where the call fails.
        ensures same { (a b c d : List ℕ) → D.seen first ≡ Some a → D.seen second ≡ Some b
            → MatchResult result
            (λ p. D.seen p.0.first ≡ Some c → D.seen p.0.second ≡ Some d → SamePair c d a b)
            (λ e. D.seen e.1 ≡ Some c → D.seen e.2 ≡ Some d → SamePair c d a b) }

        // A crash in the call leaves what one before it might have left, or two files with the same records or break.
        ensures any_moment { BothTell D.seen first second → MatchResult result
            (λ p. LeavesSame D.may_leave D.moment D.left_since first second p.0.first p.0.second)
            (λ e. LeavesSame D.may_leave D.moment D.left_since first second e.1 e.2) }
        ensures first_tells { MatchResult result
            (λ p. is_some (D.seen p.0.first) ≡ is_some (D.seen first))
            (λ e. is_some (D.seen e.1) ≡ is_some (D.seen first)) }
        ensures second_tells { MatchResult result
            (λ p. is_some (D.seen p.0.second) ≡ is_some (D.seen second))
            (λ e. is_some (D.seen e.2) ≡ is_some (D.seen second)) }
        ensures faults { IfOk result (λ p. p.0.faults ≡ 0) }
        ensures first_later { MatchResult result (λ p. D.faults first ≤ D.faults p.0.first)
            (λ e. D.faults first ≤ D.faults e.1) }
        ensures second_later { MatchResult result (λ p. D.faults second ≤ D.faults p.0.second)
            (λ e. D.faults second ≤ D.faults e.2) }
        ensures still { MatchResult result
            (λ p. (D.faults p.0.first ≡ D.faults first) × (D.faults p.0.second ≡ D.faults second))
            (λ e. (e.0 ≡ fault.Failed → ⊥)
            → (D.faults e.1 ≡ D.faults first) × (D.faults e.2 ≡ D.faults second)) }
        ensures failed { IfErr result
            (λ e. e.0 ≡ fault.Failed → OneRises D.faults first second e.1 e.2) }

        // Out of memory, nothing was written.
        ensures first_unwritten { IfErr result
            (λ e. e.0 ≡ fault.NoMemory → IsUnwritten D.seen D.may_leave D.size first e.1) }
        ensures second_unwritten { IfErr result
            (λ e. e.0 ≡ fault.NoMemory → IsUnwritten D.seen D.may_leave D.size second e.2) }
    {
        let mut first = first;
        let mut second = second;
        match read_both(alloc, Some(Kind::Replica), &mut first, &mut second) {
            Ok((live, found)) => Ok((
                Twin {
                    alloc,
                    first,
                    second,
                    second_lives: live.second,
                    generation: live.generation,
                    gates: found.gates,
                    gate: found.gate as u64,
                    whole: true,
                    faults: Faults::none(),
                },
                found.records,
            )),
            Err(fault) => Err((fault, first, second)),
        }
    }

    /// Puts these records in the place of all. Out of memory, nothing changes. After `Failed`, which comes exactly where the
    /// count of a disk rose, the records have to be read again.
    pub fn renew_records(&mut self, records: &[Record]) -> Result<(), KeepFault>
        requires fits { IsTrue (all_fit records.now) }
        requires whole { self.old.whole ≡ true }

        // At `Ok` the list is the new one, and every crash leaves it.
        ensures kept { BothTell D.seen self.old.first self.old.second
            → OnOk result (seen_pair_records D.seen self.new.first self.new.second ≡ records.now) }
        ensures lasts { BothTell D.seen self.old.first self.old.second
            → OnOk result ((a b : List ℕ) → D.may_leave self.new.first a
            → D.may_leave self.new.second b → IsPairImageOf records.now a b) }

        // A crash at any moment of the call leaves the old list or the new one.
        ensures any_moment { BothTell D.seen self.old.first self.old.second
            → LeavesTwo D.moment D.left_since self.old.first self.old.second self.new.first
            self.new.second (seen_pair_records D.seen self.old.first self.old.second) records.now }
        ensures old_or_new { BothTell D.seen self.old.first self.old.second
            → IsErrOf result KeepFault.Failed
            → (seen_pair_records D.seen self.new.first self.new.second
            ≡ seen_pair_records D.seen self.old.first self.old.second)
            ⊎ (seen_pair_records D.seen self.new.first self.new.second ≡ records.now) }
        ensures whole { OnOk result (self.new.whole ≡ true) }
        ensures gates { OnOk result (length self.new.gates ≡ length records.now + 1) }
        ensures first_tells { is_some (D.seen self.new.first) ≡ is_some (D.seen self.old.first) }
        ensures second_tells { is_some (D.seen self.new.second) ≡ is_some (D.seen self.old.second) }
        ensures first_later { D.faults self.old.first ≤ D.faults self.new.first }
        ensures second_later { D.faults self.old.second ≤ D.faults self.new.second }
        ensures still { (IsErrOf result KeepFault.Failed → ⊥)
            → (D.faults self.new.first ≡ D.faults self.old.first)
            × (D.faults self.new.second ≡ D.faults self.old.second) }
        ensures failed { IsErrOf result KeepFault.Failed
            → OneRises D.faults self.old.first self.old.second self.new.first self.new.second }
        ensures counted { self.new.faults ≡ count_append result self.old.faults }
        ensures no_memory { IsErrOf result KeepFault.NoMemory → self.new ≡ self.old }
    {
        match renew_two(
            self.alloc,
            &mut self.first,
            &mut self.second,
            self.second_lives,
            self.generation,
            records,
        ) {
            Ok(renewed) => {
                self.second_lives = !self.second_lives;
                self.generation = Some(renewed.generation);
                self.gates = renewed.gates;
                self.gate = renewed.gate;
                Ok(())
            }
            Err(KeepFault::NoMemory) => Err(KeepFault::NoMemory),
            Err(KeepFault::Failed) => {
                self.whole = false;
                self.faults.add();
                Err(KeepFault::Failed)
            }
        }
    }

    /// Adds a record at the end. Out of memory, nothing changes. After `Failed`, which comes exactly where the count of a disk
    /// rose, the records have to be read again.
    pub fn append_record(&mut self, what: &Record) -> Result<(), KeepFault>
        requires fits { IsTrue (fits what.now) }
        requires whole { self.old.whole ≡ true }

        // At `Ok` the list has the record, and every crash leaves it.
        ensures kept { BothTell D.seen self.old.first self.old.second
            → OnOk result (seen_pair_records D.seen self.new.first self.new.second
            ≡ seen_pair_records D.seen self.old.first self.old.second ++ what.now ∷ []) }
        ensures lasts { BothTell D.seen self.old.first self.old.second
            → OnOk result
            ((a b : List ℕ) → D.may_leave self.new.first a → D.may_leave self.new.second b
            → IsPairImageOf (seen_pair_records D.seen self.old.first self.old.second ++ what.now
            ∷ []) a b) }

        // A crash at any moment of the call leaves the list from before it, or that list with the record.
        ensures any_moment { BothTell D.seen self.old.first self.old.second
            → LeavesTwo D.moment D.left_since self.old.first self.old.second self.new.first
            self.new.second (seen_pair_records D.seen self.old.first self.old.second)
            (seen_pair_records D.seen self.old.first self.old.second ++ what.now ∷ []) }
        ensures lost_or_kept { BothTell D.seen self.old.first self.old.second
            → IsErrOf result KeepFault.Failed
            → (seen_pair_records D.seen self.new.first self.new.second
            ≡ seen_pair_records D.seen self.old.first self.old.second)
            ⊎ (seen_pair_records D.seen self.new.first self.new.second
            ≡ seen_pair_records D.seen self.old.first self.old.second ++ what.now ∷ []) }
        ensures whole { OnOk result (self.new.whole ≡ true) }
        ensures gates { OnOk result (length self.new.gates ≡ length self.old.gates + 1) }
        ensures first_tells { is_some (D.seen self.new.first) ≡ is_some (D.seen self.old.first) }
        ensures second_tells { is_some (D.seen self.new.second) ≡ is_some (D.seen self.old.second) }
        ensures first_later { D.faults self.old.first ≤ D.faults self.new.first }
        ensures second_later { D.faults self.old.second ≤ D.faults self.new.second }
        ensures still { (IsErrOf result KeepFault.Failed → ⊥)
            → (D.faults self.new.first ≡ D.faults self.old.first)
            × (D.faults self.new.second ≡ D.faults self.old.second) }
        ensures failed { IsErrOf result KeepFault.Failed
            → OneRises D.faults self.old.first self.old.second self.new.first self.new.second }
        ensures counted { self.new.faults ≡ count_append result self.old.faults }
        ensures no_memory { IsErrOf result KeepFault.NoMemory → self.new ≡ self.old }
    {
        match append_noted(
            self.alloc,
            &mut self.first,
            &mut self.second,
            self.second_lives,
            &mut self.gates,
            self.gate,
            what,
        ) {
            Ok(next) => {
                self.gate = next;
                Ok(())
            }
            Err(KeepFault::NoMemory) => Err(KeepFault::NoMemory),
            Err(KeepFault::Failed) => {
                self.whole = false;
                self.faults.add();
                Err(KeepFault::Failed)
            }
        }
    }

    /// Reads the records again. Out of memory, the twin stays as it was, and nothing is written; after another fault they have to
    /// be read again before a change. `Failed` comes exactly where the count of a disk rose, and `NotJournal` never where the
    /// bytes of both are known.
    pub fn recover_records(&mut self) -> Result<Vec<Record>, OpenFault>
        ensures list { BothTell D.seen self.old.first self.old.second
            → IfOk result
            (λ records. records.items ≡ seen_pair_records D.seen self.old.first self.old.second) }
        ensures ranges { IfOk result (λ records. all_kept_by None records.items ≡ true) }
        ensures same { seen_pair_records D.seen self.new.first self.new.second
            ≡ seen_pair_records D.seen self.old.first self.old.second }
        ensures whole { IfOk result (λ _. self.new.whole ≡ true) }
        ensures gates { IfOk result (λ records. length self.new.gates ≡ length records.items + 1) }

        // A crash in the call leaves what one before it might have left, or two files with the same records or break.
        ensures any_moment { BothTell D.seen self.old.first self.old.second
            → LeavesSame D.may_leave D.moment D.left_since self.old.first self.old.second
            self.new.first self.new.second }
        ensures never { BothTell D.seen self.old.first self.old.second
            → IfErr result (λ e. IsOutside e) }
        ensures first_tells { is_some (D.seen self.new.first) ≡ is_some (D.seen self.old.first) }
        ensures second_tells { is_some (D.seen self.new.second) ≡ is_some (D.seen self.old.second) }
        ensures first_later { D.faults self.old.first ≤ D.faults self.new.first }
        ensures second_later { D.faults self.old.second ≤ D.faults self.new.second }
        ensures still { (IsErrOf result OpenFault.Failed → ⊥)
            → (D.faults self.new.first ≡ D.faults self.old.first)
            × (D.faults self.new.second ≡ D.faults self.old.second) }
        ensures failed { IsErrOf result OpenFault.Failed
            → OneRises D.faults self.old.first self.old.second self.new.first self.new.second }
        ensures counted { MatchResult result (λ _. self.new.faults ≡ self.old.faults)
            (λ e. self.new.faults ≡ count_open e self.old.faults) }
        ensures no_memory { IsErrOf result OpenFault.NoMemory
            → self.new ≡ record self.old { first = self.new.first; second = self.new.second } }
        ensures first_unwritten { IsErrOf result OpenFault.NoMemory
            → IsUnwritten D.seen D.may_leave D.size self.old.first self.new.first }
        ensures second_unwritten { IsErrOf result OpenFault.NoMemory
            → IsUnwritten D.seen D.may_leave D.size self.old.second self.new.second }
    {
        match read_both(self.alloc, None, &mut self.first, &mut self.second) {
            Ok((live, found)) => {
                self.second_lives = live.second;
                self.generation = live.generation;
                self.gates = found.gates;
                self.gate = found.gate as u64;
                self.whole = true;
                Ok(found.records)
            }
            Err(OpenFault::NoMemory) => Err(OpenFault::NoMemory),
            Err(OpenFault::Failed) => {
                self.whole = false;
                self.faults.add();
                Err(OpenFault::Failed)
            }
            Err(OpenFault::NotJournal { at, byte }) => {
                self.whole = false;
                Err(OpenFault::NotJournal { at, byte })
            }
        }
    }

    /// The same before a change. That there are no records any more, which only disks whose bytes are not known can say, is a
    /// failure too.
    pub(crate) fn read_again(&mut self) -> Result<(), KeepFault>
        ensures same { seen_pair_records D.seen self.new.first self.new.second
            ≡ seen_pair_records D.seen self.old.first self.old.second }
        ensures whole { OnOk result (self.new.whole ≡ true) }
        ensures any_moment { BothTell D.seen self.old.first self.old.second
            → LeavesSame D.may_leave D.moment D.left_since self.old.first self.old.second
            self.new.first self.new.second }
        ensures first_tells { is_some (D.seen self.new.first) ≡ is_some (D.seen self.old.first) }
        ensures second_tells { is_some (D.seen self.new.second) ≡ is_some (D.seen self.old.second) }
        ensures first_later { D.faults self.old.first ≤ D.faults self.new.first }
        ensures second_later { D.faults self.old.second ≤ D.faults self.new.second }
        ensures still { (IsErrOf result KeepFault.Failed → ⊥)
            → (D.faults self.new.first ≡ D.faults self.old.first)
            × (D.faults self.new.second ≡ D.faults self.old.second) }
        ensures failed { IsErrOf result KeepFault.Failed
            → BothTell D.seen self.old.first self.old.second
            → OneRises D.faults self.old.first self.old.second self.new.first self.new.second }
        ensures counted { self.new.faults ≡ count_append result self.old.faults }
    {
        match self.recover_records() {
            Ok(_) => Ok(()),
            Err(OpenFault::NoMemory) => Err(KeepFault::NoMemory),
            Err(OpenFault::Failed) => Err(KeepFault::Failed),
            Err(OpenFault::NotJournal { .. }) => {
                self.faults.add();
                Err(KeepFault::Failed)
            }
        }
    }

    /// The disks, given back: the first and the second.
    pub fn into_disks(self) -> (D, D)
        ensures { result ≡ (self.first, self.second) }
    {
        (self.first, self.second)
    }

    /// The place of a record's gate on the live disk, and of the closed gate at the number of records.
    pub fn place(&self, index: usize) -> u64
        requires { index < length self.now.gates }
        ensures gate { result ≡ slice_index self.now.gates index }

        // It is as many bytes from the start as the generation and the records before it take.
        ensures place { self.now.whole ≡ true → BothTell D.seen self.now.first self.now.second
            → result ≡ length (front_of self.now.generation
            ++ frames (payloads (take index
            (seen_pair_records D.seen self.now.first self.now.second)))) }
    {
        gate_of(&self.gates, index)
    }

    /// Whether it has no record.
    pub fn is_empty(&self) -> bool
        ensures gates { result ≡ (length self.now.gates == 1) }
        ensures empty { self.now.whole ≡ true → BothTell D.seen self.now.first self.now.second
            → result ≡ not (has_some (seen_pair_records D.seen self.now.first self.now.second)) }
    {
        is_single(&self.gates)
    }
}
