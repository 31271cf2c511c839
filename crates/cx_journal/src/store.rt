//! The store of a role: a journal on one disk, or a twin over two.

ghost use Rattle.std.specs.Prelude.{◌≡◌, ◌==◌, true, not, is_some, length};
ghost use Rattle.cx_keep.specs.Keeper.{Append, Renewal};
ghost use Rattle.cx_journal.specs.Files.{files_records};
ghost use Rattle.cx_journal.specs.State.{has_some};
ghost use Rattle.cx_journal.specs.Store.{IsStoreChange, store_faults, store_gates, store_told, store_whole};
ghost use Rattle.cx_journal.specs.StoreLaw.{store_change_is};

use crate::{Journal, Twin};
use cx_disk::Disk;
use cx_keep::{KeepFault, Keeper, OpenFault, Renew};
use cx_letter::Record;

/// Where a role's records are kept. A list over two disks can be put anew; one on a single disk can't.
#[derive(Drop)]
pub enum RecordStore<D: Disk> {
    One { journal: Journal<D> },
    Two { twin: Twin<D> },
}

impl<D: Disk> RecordStore<D> {
    /// Whether it has no record.
    pub fn is_empty(&self) -> bool
        ensures gates { result ≡ (length (store_gates self.now) == 1) }
        ensures empty { store_whole self.now ≡ true → is_some (store_told D.seen self.now) ≡ true
            → result ≡ not (has_some (files_records (store_told D.seen self.now))) }
    {
        match self {
            RecordStore::One { journal } => journal.is_empty(),
            RecordStore::Two { twin } => twin.is_empty(),
        }
    }
}

impl<D: Disk> Keeper for RecordStore<D> {
    ghost tells = { λ s. is_some (store_told D.seen s) };

    ghost kept = { λ s. files_records (store_told D.seen s) };

    ghost faults = { store_faults };

    ghost append_gives = { λ old r answer new. IsStoreChange D.Disk old (Append r) answer new };

    ghost append_is = { λ old r answer new given. store_change_is
        (record {
          seen = D.seen;
          may_leave = D.may_leave;
          moment = D.moment;
          left_since = D.left_since;
          faults = D.faults;
          size = D.size;
        })
        old (Append r) answer new given };

    fn append(&mut self, what: &Record) -> Result<(), KeepFault> {
        match self {
            RecordStore::One { journal } => journal.append(what),
            RecordStore::Two { twin } => twin.append(what),
        }
    }

    fn recover(&mut self) -> Result<Vec<Record>, OpenFault> {
        match self {
            RecordStore::One { journal } => journal.recover(),
            RecordStore::Two { twin } => twin.recover(),
        }
    }
}

impl<D: Disk> Renew for RecordStore<D> {
    ghost renew_gives = { λ old records answer new.
        IsStoreChange D.Disk old (Renewal records) answer new };

    ghost renew_is = { λ old records answer new given. store_change_is
        (record {
          seen = D.seen;
          may_leave = D.may_leave;
          moment = D.moment;
          left_since = D.left_since;
          faults = D.faults;
          size = D.size;
        })
        old (Renewal records) answer new given };

    /// A journal on one disk refuses, and counts that as a failure.
    fn renew(&mut self, records: &[Record]) -> Result<(), KeepFault> {
        match self {
            RecordStore::One { journal } => Err(journal.refuse()),
            RecordStore::Two { twin } => twin.renew(records),
        }
    }
}
