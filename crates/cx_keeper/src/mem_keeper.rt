//! A keeper in memory.

ghost use Rattle.std.specs.Prelude.{◌≡◌, ◌≤◌, ◌+◌, [], IfOk, IsTrue, length, drop, option_to_list};
ghost use Rattle.cx_keep.specs.Keeper.{all_fit};
ghost use Rattle.cx_keeper.specs.MemKeeper.{tells_of, kept_of, faults_of, mem_append_gives, mem_append_is, mem_renew_gives, mem_renew_is};

use crate::Records;
use cx_base::{Cut, Faults, NoMemory};
use cx_keep::{KeepFault, Keeper, OpenFault, Renew};
use cx_letter::Record;
use std::alloc::Global;
use std::marker::Model;

/// Keeps records in memory. An append or a renewal fails where `cut` says so.
#[derive(Drop)]
pub struct MemKeeper {
    alloc: Global,
    kept: Records,
    cut: Cut,
    faults: Faults,
}

impl Model for MemKeeper {
    ghost use Rattle.std.specs.Prelude.{IsTrue};
    ghost use Rattle.cx_keep.specs.Keeper.{all_fit};
    ghost use Rattle.cx_keeper.specs.MemKeeper.{MemKeeperState};

    ghost Value = { MemKeeperState };

    ghost view = { λ keeper.
        record { kept = keeper.kept; cut = keeper.cut; faults = keeper.faults } };

    ghost invariant = { λ keeper. IsTrue (all_fit keeper.kept) };
}

impl MemKeeper {
    /// No records, and whole changes.
    pub fn new(alloc: Global) -> Self
        ensures { result ≡ record { kept = []; cut = Cut.Whole; faults = 0 } }
    {
        MemKeeper {
            alloc,
            kept: Records::new(alloc),
            cut: Cut::Whole,
            faults: Faults::none(),
        }
    }

    /// How many records it keeps.
    pub fn len(&self) -> usize
        ensures { result ≡ length self.now.kept }
    {
        self.kept.len()
    }

    /// The record that was kept since there were `count`, if one was.
    pub fn kept_since(&self, count: usize) -> Result<Option<Record>, NoMemory>
        requires least { count ≤ length self.now.kept }
        requires most { length self.now.kept ≤ count + 1 }
        ensures last { IfOk result (λ r. option_to_list r ≡ drop count self.now.kept) }
        ensures ranges { IfOk result (λ r. IsTrue (all_fit (option_to_list r))) }
    {
        self.kept.get(count)
    }

    /// How appends and renewals go from here on: `Torn` leaves the old list and fails, `Kept` the new one and fails.
    pub fn cut(&mut self, cut: Cut)
        ensures { self.new ≡ record self.old { cut = cut } }
    {
        self.cut = cut;
    }
}

impl Keeper for MemKeeper {
    ghost tells = { tells_of };

    ghost kept = { kept_of };

    ghost faults = { faults_of };

    ghost append_gives = { mem_append_gives };

    ghost append_is = { mem_append_is };

    fn append(&mut self, what: &Record) -> Result<(), KeepFault> {
        match self.cut {
            Cut::Whole => {
                self.kept.push(what)?;
                Ok(())
            }
            Cut::Torn => {
                self.faults.add();
                Err(KeepFault::Failed)
            }
            Cut::Kept => {
                self.kept.push(what)?;
                self.faults.add();
                Err(KeepFault::Failed)
            }
        }
    }

    fn recover(&mut self) -> Result<Vec<Record>, OpenFault> {
        Ok(self.kept.all()?)
    }
}

impl Renew for MemKeeper {
    ghost renew_gives = { mem_renew_gives };

    ghost renew_is = { mem_renew_is };

    fn renew(&mut self, records: &[Record]) -> Result<(), KeepFault> {
        let renewed = Records::of(self.alloc, records)?;
        match self.cut {
            Cut::Whole => {
                self.kept = renewed;
                Ok(())
            }
            Cut::Torn => {
                self.faults.add();
                Err(KeepFault::Failed)
            }
            Cut::Kept => {
                self.kept = renewed;
                self.faults.add();
                Err(KeepFault::Failed)
            }
        }
    }
}
