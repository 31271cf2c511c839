//! A keeper that holds the last change of its list alone.

ghost use Rattle.std.specs.Prelude.{◌≡◌, ◌++◌, ◌∷◌, ℕ, [], IfOk, IsTrue, None, true, OnOk, OnErr, Some, option_to_list};
ghost use Rattle.cx_history.specs.Kept.{all_changes_fit};
ghost use Rattle.cx_keep.specs.Keeper.{all_fit};
ghost use Rattle.cx_letter.specs.Records.{fits};
ghost use Rattle.cx_letter.specs.declared.input.Written.TheVariants as written;
ghost use Rattle.cx_world.specs.LastKeeper.{faults_kept, first_slot_of, is_renewal, last_append_gives, last_append_is, last_renew_gives, last_renew_is, list_kept, base_slot, tells_nothing};

use cx_base::{Cut, Duplicate, Faults, NoMemory};
use cx_keep::{KeepFault, Keeper, OpenFault, Renew};
use cx_keeper::Records;
use cx_letter::{Record, Written};
use cx_ring::{GhostList, GhostListOf};
use std::alloc::Global;
use std::marker::Model;

struct NoRecords;

impl GhostListOf<(), Record> for NoRecords {
    ghost list_shown = { λ _. [] };
}

struct OneMore;

impl<'a> GhostListOf<(&'a GhostList<Record>, &'a Record), Record> for OneMore {
    ghost list_shown = { λ x. x.0.now.items ++ x.1.now ∷ [] };
}

struct Anew;

impl<'a> GhostListOf<&'a Records, Record> for Anew {
    ghost list_shown = { λ x. x.now };
}

/// Lets a change fail where `cut` says so, and holds the last change alone, with the list where that was put anew: whoever has it
/// notes the others elsewhere.
#[derive(Drop)]
pub struct LastKeeper {
    alloc: Global,
    records: GhostList<Record>,
    last: Option<Written>,
    // The list that was put anew, where that is the last change.
    renewed: Records,
    cut: Cut,
    faults: Faults,
}

impl Model for LastKeeper {
    ghost use Rattle.cx_world.specs.LastKeeper.{IsLastKeeperState, LastState};

    ghost Value = { LastState };

    ghost view = { λ keeper. record {
      store = record { kept = keeper.records.items; cut = keeper.cut; faults = keeper.faults };
      last = keeper.last;
    } };

    ghost invariant = { λ keeper.
        IsLastKeeperState keeper.records.items keeper.last keeper.renewed };
}

fn base_slot(what: &Record) -> u64
    ensures { result ≡ base_slot what.now }
{
    match what {
        Record::Base { first, .. } => *first,
        _ => 0,
    }
}

// The first slot of a list that begins anew.
fn first_slot_of(records: &[Record]) -> u64
    ensures { result ≡ first_slot_of records.now }
{
    match records {
        [] => 0,
        [base, ..] => base_slot(base),
    }
}

fn copied(alloc: Global, last: &Option<Written>) -> Result<Option<Written>, NoMemory>
    ensures { IfOk result (λ r. r ≡ last.now) }
{
    match last {
        Some(one) => Ok(Some(one.copy(alloc)?)),
        None => Ok(None),
    }
}

impl LastKeeper {
    /// No records, and whole changes. It takes no memory.
    pub fn new(alloc: Global) -> Self
        ensures { result
            ≡ record { store = record { kept = []; cut = Cut.Whole; faults = 0 }; last = None } }
    {
        LastKeeper {
            alloc,
            records: GhostList::of::<(), NoRecords>(&()),
            last: None,
            renewed: Records::new(alloc),
            cut: Cut::Whole,
            faults: Faults::none(),
        }
    }

    /// The last change since `cut` was called, if there was one.
    pub fn last(&self) -> &Option<Written>
        ensures last { result.now ≡ self.now.last }
        ensures ranges { IsTrue (all_changes_fit (option_to_list result.now)) }
    {
        &self.last
    }

    /// A copy of the last change since `cut` was called, if there was one.
    pub fn changed(&self) -> Result<Option<Written>, NoMemory>
        ensures last { IfOk result (λ last. last ≡ self.now.last) }
        ensures ranges { IfOk result (λ last. IsTrue (all_changes_fit (option_to_list last))) }
    {
        copied(self.alloc, &self.last)
    }

    /// The list, which was put anew by the last change.
    pub fn renewed(&self) -> Result<Vec<Record>, NoMemory>
        requires { is_renewal self.now.last ≡ true }
        ensures list { IfOk result (λ list. list.items ≡ self.now.store.kept) }
        ensures ranges { IfOk result (λ list. IsTrue (all_fit list.items)) }
    {
        self.renewed.all()
    }

    /// How changes go from here on: `Torn` loses them and fails, `Kept` keeps them and fails. It forgets which was the last.
    pub fn cut(&mut self, cut: Cut)
        ensures { self.new ≡ record { store = record self.old.store { cut = cut }; last = None } }
    {
        self.last = None;
        self.renewed = Records::new(self.alloc);
        self.cut = cut;
    }

    // The record is the last one. Out of memory, it changes nothing.
    fn add(&mut self, what: &Record) -> Result<(), NoMemory>
        requires { IsTrue (fits what.now) }
        ensures ok { OnOk result (self.new ≡ record {
          store = record self.old.store { kept = self.old.store.kept ++ what.now ∷ [] };
          last = Some (written.Record what.now);
        }) }
        ensures err { OnErr result (self.new ≡ self.old) }
    {
        let last = what.copy(self.alloc)?;
        self.records = GhostList::of::<(&GhostList<Record>, &Record), OneMore>(&(
            &self.records,
            what,
        ));
        self.last = Some(Written::Record { what: last });
        Ok(())
    }

    // These records are the list. Out of memory, it changes nothing.
    fn put_anew(&mut self, records: &[Record]) -> Result<(), NoMemory>
        requires { IsTrue (all_fit records.now) }
        ensures ok { OnOk result (self.new ≡ record {
          store = record self.old.store { kept = records.now };
          last = Some (written.Snap (first_slot_of records.now));
        }) }
        ensures err { OnErr result (self.new ≡ self.old) }
    {
        let renewed = Records::of(self.alloc, records)?;
        self.records = GhostList::of::<&Records, Anew>(&&renewed);
        self.renewed = renewed;
        self.last = Some(Written::Snap {
            first: first_slot_of(records),
        });
        Ok(())
    }
}

impl Keeper for LastKeeper {
    ghost tells = { tells_nothing };

    ghost kept = { list_kept };

    ghost faults = { faults_kept };

    ghost append_gives = { last_append_gives };

    ghost append_is = { last_append_is };

    fn append(&mut self, what: &Record) -> Result<(), KeepFault> {
        match self.cut {
            Cut::Whole => {
                self.add(what)?;
                Ok(())
            }
            Cut::Torn => {
                self.faults.add();
                Err(KeepFault::Failed)
            }
            Cut::Kept => {
                self.add(what)?;
                self.faults.add();
                Err(KeepFault::Failed)
            }
        }
    }

    /// It fails: the records are in the world's history, and a role that stopped still knows its own.
    fn recover(&mut self) -> Result<Vec<Record>, OpenFault> {
        self.faults.add();
        Err(OpenFault::Failed)
    }
}

impl Renew for LastKeeper {
    ghost renew_gives = { last_renew_gives };

    ghost renew_is = { last_renew_is };

    fn renew(&mut self, records: &[Record]) -> Result<(), KeepFault> {
        match self.cut {
            Cut::Whole => {
                self.put_anew(records)?;
                Ok(())
            }
            Cut::Torn => {
                self.faults.add();
                Err(KeepFault::Failed)
            }
            Cut::Kept => {
                self.put_anew(records)?;
                self.faults.add();
                Err(KeepFault::Failed)
            }
        }
    }
}
