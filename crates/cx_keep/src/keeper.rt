//! A keeper of records, and why it may refuse.

ghost use Rattle.std.specs.Prelude.{◌≡◌, ◌≤◌, ℕ, Bool, true, List, Option, Result, IfOk, IsTrue, Err};
ghost use Rattle.cx_base.specs.Faults.{Rises};
ghost use Rattle.cx_letter.specs.declared.kept.Record.{Record};
ghost use Rattle.cx_letter.specs.Records.{fits};
ghost use Rattle.cx_keep.specs.declared.keeper.KeepFault.{KeepFault};
ghost use Rattle.cx_keep.specs.declared.keeper.KeepFault.TheVariants as fault;
ghost use Rattle.cx_keep.specs.declared.keeper.OpenFault.TheVariants as open_fault;
ghost use Rattle.cx_keep.specs.Keeper.{IsAppend, IsKeeperChange, Renewal, all_fit};

use cx_base::NoMemory;
use cx_letter::Record;
use std::alloc::{AllocError, AllocFailed};
use thiserror::Error;

/// Why a record was not kept for certain.
#[derive(Debug, Drop, Error)]
pub enum KeepFault {
    /// The store failed: the record is kept or lost, and `recover` says which.
    #[error("a record could not be kept")]
    Failed,
    #[error("no memory")]
    NoMemory,
}

impl From<NoMemory> for KeepFault {
    ghost from_gives = { λ _ e. e ≡ fault.NoMemory };

    fn from(_: NoMemory) -> Self {
        KeepFault::NoMemory
    }
}

impl From<AllocError> for KeepFault {
    ghost from_gives = { λ _ e. e ≡ fault.NoMemory };

    fn from(_: AllocError) -> Self {
        KeepFault::NoMemory
    }
}

impl<T: Drop> From<AllocFailed<T>> for KeepFault {
    ghost from_gives = { λ _ e. e ≡ fault.NoMemory };

    fn from(_: AllocFailed<T>) -> Self {
        KeepFault::NoMemory
    }
}

/// Why records could not be read.
#[derive(Debug, Drop, Error)]
pub enum OpenFault {
    /// The bytes are no list of records. The first break is at this place, in bytes: at this byte, or at the end.
    #[error("no journal at {at}")]
    NotJournal { at: u64, byte: Option<u8> },
    #[error("the store failed")]
    Failed,
    #[error("no memory")]
    NoMemory,
}

impl From<NoMemory> for OpenFault {
    ghost from_gives = { λ _ e. e ≡ open_fault.NoMemory };

    fn from(_: NoMemory) -> Self {
        OpenFault::NoMemory
    }
}

/// A list of records that outlives a crash. A crash inside an append keeps or loses that one record.
pub trait Keeper {
    /// Whether what it keeps is known. Of a file of the operating system it isn't.
    ghost tells: { Self → Bool };

    /// The records that it keeps, where they are known.
    ghost kept: { Self → List Record };

    /// How often it has failed.
    ghost faults: { Self → ℕ };

    /// What an append may answer, and leave.
    ghost append_gives: { Self → Record → Result (Unit {0}) KeepFault → Self → Type 0 };

    /// Adds a record at the end. Out of memory, nothing changes. After `Failed` the record is kept or lost, and an append
    /// may follow as well as `recover`.
    fn append(&mut self, what: &Record) -> Result<(), KeepFault>
        requires { IsTrue (fits what.now) }
        ensures gives { append_gives self.old what.now result self.new }
        ensures tells_same { tells self.new ≡ tells self.old };

    /// Reads the records again, which changes none of them. `Failed` comes exactly where the count of faults rose, and
    /// `NotJournal` never where what it keeps is known.
    fn recover(&mut self) -> Result<Vec<Record>, OpenFault>
        ensures list { IfOk result
            (λ records. tells self.old ≡ true → records.items ≡ kept self.old) }
        ensures ranges { IfOk result (λ records. IsTrue (all_fit records.items)) }
        ensures same { kept self.new ≡ kept self.old }
        ensures tells_same { tells self.new ≡ tells self.old }
        ensures cause { result ≡ Err open_fault.Failed → Rises (faults self.old) (faults self.new) }
        ensures never { tells self.old ≡ true → (at : ℕ) (byte : Option ℕ)
            → result ≡ Err (open_fault.NotJournal at byte) → ⊥ }
        ensures still { (result ≡ Err open_fault.Failed → ⊥) → faults self.new ≡ faults self.old }
        ensures later { faults self.old ≤ faults self.new };

    ghost append_is: { (old : Self) (r : Record) (answer : Result (Unit {0}) KeepFault) (new : Self)
        → append_gives old r answer new → IsAppend tells kept faults old r answer new };
}

/// A keeper whose list can be put anew. A crash inside a renewal leaves the old list or the new one.
pub trait Renew: Keeper {
    /// What a renewal may answer, and leave.
    ghost renew_gives: { Self → List Record → Result (Unit {0}) KeepFault → Self → Type 0 };

    /// Puts these records in the place of all. Out of memory, nothing changes. After `Failed` the list is the old one or the
    /// new one, and an append or a renewal may follow as well as `recover`.
    fn renew(&mut self, records: &[Record]) -> Result<(), KeepFault>
        requires { IsTrue (all_fit records.now) }
        ensures gives { renew_gives self.old records.now result self.new }
        ensures tells_same { Self.Keeper.tells self.new ≡ Self.Keeper.tells self.old };

    ghost renew_is: { (old : Self) (records : List Record) (answer : Result (Unit {0}) KeepFault)
        (new : Self) → renew_gives old records answer new
        → IsKeeperChange Self.Keeper.tells Self.Keeper.kept Self.Keeper.faults old (Renewal records)
        answer new };
}
