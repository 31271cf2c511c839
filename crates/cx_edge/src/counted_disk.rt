//! A disk that counts from its opening on how often it has failed.

ghost use Rattle.std.specs.Prelude.{◌≡◌};

use cx_disk::{Disk, Failed};
use std::marker::Model;

/// A disk, and how often its calls have failed since it was put in here.
#[derive(Drop)]
pub struct CountedDisk<D> {
    disk: D,
    faults: u64,
}

impl<D> Model for CountedDisk<D> {
    ghost use Rattle.cx_edge.specs.Outside.{CountedAdapter};

    ghost Value = { CountedAdapter D };

    ghost view = { λ c. record { inner = c.disk; faults = c.faults } };
}

impl<D> CountedDisk<D> {
    /// The disk with no fault counted yet.
    pub fn new(disk: D) -> Self
        ensures { result ≡ record { inner = disk; faults = 0 } }
    {
        CountedDisk { disk, faults: 0 }
    }

    /// The disk, and how often it has failed.
    pub fn into_parts(self) -> (D, u64)
        ensures { result ≡ (self.inner, self.faults) }
    {
        (self.disk, self.faults)
    }
}

impl<D: Disk> Disk for CountedDisk<D> {
    ghost seen = { λ c. D.seen c.inner };

    ghost may_leave = { λ c. D.may_leave c.inner };

    ghost moment = { λ c. D.moment c.inner };

    ghost left_since = { λ c. D.left_since c.inner };

    ghost faults = { λ c. c.faults };

    ghost size = { λ c. D.size c.inner };

    ghost told_size = { λ c. D.told_size c.inner };

    ghost told_is_left = { λ c. D.told_is_left c.inner };

    ghost size_fits = { λ c. D.size_fits c.inner };

    ghost counts_now = { λ c. D.counts_now c.inner };

    ghost only_now = { λ c. D.only_now c.inner };

    fn len(&self) -> u64 {
        self.disk.len()
    }

    fn read(&mut self, at: u64, buf: &mut [u8]) -> Result<(), Failed> {
        match self.disk.read(at, buf) {
            Ok(()) => Ok(()),
            Err(failed) => {
                self.faults = self.faults.saturating_add(1);
                Err(failed)
            }
        }
    }

    fn write_at(&mut self, at: u64, bytes: &[u8]) -> Result<(), Failed> {
        match self.disk.write_at(at, bytes) {
            Ok(()) => Ok(()),
            Err(failed) => {
                self.faults = self.faults.saturating_add(1);
                Err(failed)
            }
        }
    }

    fn cut(&mut self, at: u64) -> Result<(), Failed> {
        match self.disk.cut(at) {
            Ok(()) => Ok(()),
            Err(failed) => {
                self.faults = self.faults.saturating_add(1);
                Err(failed)
            }
        }
    }

    fn sync(&mut self) -> Result<(), Failed> {
        match self.disk.sync() {
            Ok(()) => Ok(()),
            Err(failed) => {
                self.faults = self.faults.saturating_add(1);
                Err(failed)
            }
        }
    }
}
