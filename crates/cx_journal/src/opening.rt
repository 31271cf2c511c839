//! Which of two disks is live: both are synced before either is read.
ghost use Rattle.std.specs.Prelude.{◌≡◌, ◌+◌, ◌≤◌, [], ◌∷◌, is_some, true, false, List, ℕ, Bool, Option, Some, None, Ok, Err, Result, length, IfOk, OnOk, OnErr, IfErr};
ghost use Rattle.cx_disk.specs.Disk.{Only, LeavesOnly, HasCause};
ghost use Rattle.cx_journal.specs.Generation.{IsGeneration, generation, second_is_live};
ghost use Rattle.cx_journal.specs.Pair.{IsLive};
ghost use Rattle.cx_journal.specs.Blank.{IsBlank, IsLiveOfTwo, IsBadPair};
ghost use Rattle.cx_journal.specs.TwinChanges.{OneRises};
ghost use Rattle.cx_journal.specs.declared.opening.PairFault.TheVariants as fault;

use cx_disk::{Disk, Failed};

/// Which of two disks is live, and its generation, if it has one.
#[derive(Clone, Copy, Debug)]
pub struct Live {
    pub second: bool,
    pub generation: Option<u8>,
}

/// Why no disk is live: a call failed, or a generation is above 2 or that of both.
#[derive(Clone, Copy, Debug, PartialEq, Eq)]
pub enum PairFault {
    Failed,
    Bad(u8),
}

/// Syncs a disk. A crash from then on leaves what a read gives.
fn sync_disk<D: Disk>(disk: &mut D) -> Result<(), Failed>
    ensures rests { (file : List ℕ) → D.seen disk.old ≡ Some file
        → OnOk result (IsLive D.seen D.may_leave disk.new file) }
    ensures seen { D.seen disk.new ≡ D.seen disk.old }
    ensures size { D.size disk.new ≡ D.size disk.old }
    ensures crash { (c : List ℕ) → D.may_leave disk.new c → D.may_leave disk.old c }
    ensures quiet { LeavesOnly D.moment D.left_since disk.old disk.new (D.may_leave disk.old) }
    ensures cause { HasCause (D.faults disk.old) (D.faults disk.new) result }
{
    disk.sync()?;
    Ok(())
}

/// The generation of a disk, if it has one.
fn generation_of<D: Disk>(disk: &mut D) -> Result<Option<u8>, Failed>
    ensures value { (file : List ℕ) → D.seen disk.old ≡ Some file
        → IfOk result (λ g. g ≡ generation file) }
    ensures long { IfOk result (λ g. is_some g ≡ true → 3 ≤ D.size disk.old) }
    ensures seen { D.seen disk.new ≡ D.seen disk.old }
    ensures size { D.size disk.new ≡ D.size disk.old }
    ensures crash { (c : List ℕ) → D.may_leave disk.new c → D.may_leave disk.old c }
    ensures quiet { LeavesOnly D.moment D.left_since disk.old disk.new (D.may_leave disk.old) }
    ensures cause { HasCause (D.faults disk.old) (D.faults disk.new) result }
{
    if disk.len() < 3 {
        return Ok(None);
    }
    let mut front = [0u8; 2];
    disk.read(0, &mut front)?;
    if front[0] == 4 {
        return Ok(Some(front[1]));
    }
    Ok(None)
}

/// Which of two disks is live; or the generation that is above 2, or the second of two that are equal.
fn choose(first: Option<u8>, second: Option<u8>) -> Result<bool, u8>
    ensures choice { result ≡ second_is_live first second }
    ensures sound { IfOk result (λ _. IsGeneration first × IsGeneration second) }
{
    match first {
        None => match second {
            None => Ok(false),
            Some(other) => { if other < 3 { Ok(true) } else { Err(other) } }
        },
        Some(one) => {
            if one >= 3 {
                return Err(one);
            }
            match second {
                None => Ok(false),
                Some(other) => {
                    if other >= 3 || one == other {
                        Err(other)
                    } else {
                        Ok(other == (one + 1) % 3)
                    }
                }
            }
        }
    }
}

/// Whether a disk has at most two bytes that are no open gate with something after it.
pub(crate) fn is_blank<D: Disk>(disk: &mut D) -> Result<bool, Failed>
    ensures yes { (file : List ℕ) → D.seen disk.old ≡ Some file → result ≡ Ok true → IsBlank file }
    ensures no { (file : List ℕ) → D.seen disk.old ≡ Some file → result ≡ Ok false
        → IsBlank file → ⊥ }
    ensures long { result ≡ Ok false → 2 ≤ D.size disk.old }
    ensures seen { D.seen disk.new ≡ D.seen disk.old }
    ensures size { D.size disk.new ≡ D.size disk.old }
    ensures crash { (c : List ℕ) → D.may_leave disk.new c → D.may_leave disk.old c }
    ensures quiet { LeavesOnly D.moment D.left_since disk.old disk.new (D.may_leave disk.old) }
    ensures cause { HasCause (D.faults disk.old) (D.faults disk.new) result }
{
    let len = disk.len();
    if len > 2 {
        return Ok(false);
    }
    if len < 2 {
        return Ok(true);
    }
    let mut front = [0u8; 1];
    disk.read(0, &mut front)?;
    Ok(front[0] != 1)
}

/// The generations of both, each synced before either is read.
fn generations<D: Disk>(first: &mut D, second: &mut D) -> Result<(Option<u8>, Option<u8>), Failed>
    ensures values { (a b : List ℕ) → D.seen first.old ≡ Some a → D.seen second.old ≡ Some b
        → IfOk result (λ p. (p.0 ≡ generation a) × (p.1 ≡ generation b)) }
    ensures first_rests { (a : List ℕ) → D.seen first.old ≡ Some a
        → OnOk result (IsLive D.seen D.may_leave first.new a) }
    ensures second_rests { (b : List ℕ) → D.seen second.old ≡ Some b
        → OnOk result (IsLive D.seen D.may_leave second.new b) }
    ensures first_seen { D.seen first.new ≡ D.seen first.old }
    ensures second_seen { D.seen second.new ≡ D.seen second.old }
    ensures first_size { D.size first.new ≡ D.size first.old }
    ensures second_size { D.size second.new ≡ D.size second.old }
    ensures first_crash { (c : List ℕ) → D.may_leave first.new c → D.may_leave first.old c }
    ensures second_crash { (c : List ℕ) → D.may_leave second.new c → D.may_leave second.old c }
    ensures long { IfOk result (λ p. (is_some p.0 ≡ true → 3 ≤ D.size first.old)
        × (is_some p.1 ≡ true → 3 ≤ D.size second.old)) }
    ensures first_quiet { LeavesOnly D.moment D.left_since first.old first.new
        (D.may_leave first.old) }
    ensures second_quiet { LeavesOnly D.moment D.left_since second.old second.new
        (D.may_leave second.old) }
    ensures first_later { D.faults first.old ≤ D.faults first.new }
    ensures second_later { D.faults second.old ≤ D.faults second.new }
    ensures still { OnOk result ((D.faults first.new ≡ D.faults first.old)
        × (D.faults second.new ≡ D.faults second.old)) }
    ensures failed { OnErr result (OneRises D.faults first.old second.old first.new second.new) }
{
    sync_disk(first)?;
    sync_disk(second)?;
    let one = generation_of(first)?;
    let other = generation_of(second)?;
    Ok((one, other))
}

/// Syncs two disks and finds the live one. Nothing is written.
pub(crate) fn find_live<D: Disk>(first: &mut D, second: &mut D) -> Result<Live, PairFault>
    ensures chosen { (a b : List ℕ) → D.seen first.old ≡ Some a → D.seen second.old ≡ Some b
        → IfOk result (IsLiveOfTwo a b) }
    ensures broken { (a b : List ℕ) → D.seen first.old ≡ Some a → D.seen second.old ≡ Some b
        → IfErr result (IsBadPair a b) }
    ensures first_rests { (a : List ℕ) → D.seen first.old ≡ Some a
        → OnOk result (IsLive D.seen D.may_leave first.new a) }
    ensures second_rests { (b : List ℕ) → D.seen second.old ≡ Some b
        → OnOk result (IsLive D.seen D.may_leave second.new b) }
    ensures first_seen { D.seen first.new ≡ D.seen first.old }
    ensures second_seen { D.seen second.new ≡ D.seen second.old }
    ensures first_size { D.size first.new ≡ D.size first.old }
    ensures second_size { D.size second.new ≡ D.size second.old }
    ensures first_crash { (c : List ℕ) → D.may_leave first.new c → D.may_leave first.old c }
    ensures second_crash { (c : List ℕ) → D.may_leave second.new c → D.may_leave second.old c }
    ensures first_quiet { LeavesOnly D.moment D.left_since first.old first.new
        (D.may_leave first.old) }
    ensures second_quiet { LeavesOnly D.moment D.left_since second.old second.new
        (D.may_leave second.old) }
    ensures sound { IfOk result (λ l. IsGeneration l.generation) }
    ensures long { IfOk result (λ l. l.second ≡ true → 1 ≤ D.size second.new) }
    ensures first_later { D.faults first.old ≤ D.faults first.new }
    ensures second_later { D.faults second.old ≤ D.faults second.new }
    ensures still { (result ≡ Err fault.Failed → ⊥)
        → (D.faults first.new ≡ D.faults first.old) × (D.faults second.new ≡ D.faults second.old) }
    ensures failed { result ≡ Err fault.Failed
        → OneRises D.faults first.old second.old first.new second.new }
{
    let (one, other) = match generations(first, second) {
        Ok(both) => both,
        Err(_) => return Err(PairFault::Failed),
    };
    let is_second = match choose(one, other) {
        Ok(is_second) => is_second,
        Err(byte) => return Err(PairFault::Bad(byte)),
    };
    if is_second {
        return Ok(Live {
            second: true,
            generation: other,
        });
    }
    Ok(Live {
        second: false,
        generation: one,
    })
}
