//! A twin as a keeper whose list can be put anew. What it keeps is known where the bytes of both disks are.
ghost use Rattle.cx_keep.specs.Keeper.{Append, Renewal};
ghost use Rattle.cx_journal.specs.Twin.{seen_pair_records};
ghost use Rattle.cx_journal.specs.TwinChanges.{both_tell, IsTwinChange};

use crate::Twin;
use cx_disk::Disk;
use cx_keep::{KeepFault, Keeper, OpenFault, Renew};
use cx_letter::Record;

impl<D: Disk> Keeper for Twin<D> {
    ghost tells = { λ t. both_tell D.seen t.first t.second };

    ghost kept = { λ t. seen_pair_records D.seen t.first t.second };

    ghost faults = { λ t. t.faults };

    ghost append_gives = { λ old r answer new.
        IsTwinChange D.seen D.may_leave D.moment D.left_since D.faults old (Append r) answer new };

    ghost append_is = { λ old r answer new given. given.changes };

    /// After a change that failed, it reads the records again first. `Failed` comes only where the count of a disk rose, or where
    /// disks whose bytes are not known have no records any more.
    fn append(&mut self, what: &Record) -> Result<(), KeepFault> {
        if self.whole {
            return self.append_record(what);
        }
        match self.read_again() {
            Ok(()) => self.append_record(what),
            Err(fault) => Err(fault),
        }
    }

    fn recover(&mut self) -> Result<Vec<Record>, OpenFault> {
        self.recover_records()
    }
}

impl<D: Disk> Renew for Twin<D> {
    ghost renew_gives = { λ old records answer new. IsTwinChange D.seen D.may_leave D.moment
        D.left_since D.faults old (Renewal records) answer new };

    ghost renew_is = { λ old records answer new given. given.changes };

    /// As of an append.
    fn renew(&mut self, records: &[Record]) -> Result<(), KeepFault> {
        if self.whole {
            return self.renew_records(records);
        }
        match self.read_again() {
            Ok(()) => self.renew_records(records),
            Err(fault) => Err(fault),
        }
    }
}
