//! What a matchmaker remembers of its records.

ghost use Rattle.std.specs.Prelude.{◌≡◌, Ok, Err, IsErrOf, false};
ghost use Rattle.cx_role.specs.Prelude.{true, IfOk, OnOk, OnErr, IsTrue};
ghost use Rattle.cx_model.specs.Matchmaker.{matchmaker_after, matchmaker_fits};
ghost use Rattle.cx_letter.specs.Records.{fits as record_fits};
ghost use Rattle.cx_role.specs.Role.{Refuses};

use crate::Matchmaker;
use crate::entries::{are_before, has_place, make_room, retire};
use cx_base::{NoMemory, copy_all};
use cx_field::Entry;
use cx_keep::Keeper;
use cx_letter::Record;
use cx_role::{StepFault, keep, names_ballot, names_entries, names_grid, names_round, names_set};

/// Keeps the record of a step. A record that goes out of use here is no burden to the rows.
pub fn keep_own<K: Keeper>(keeper: &mut K, live: &mut bool, what: Record) -> Result<(), StepFault>
    requires { IsTrue (record_fits what) }
    ensures kept { IfOk result (λ _. K.append_gives keeper.old what (Ok tt) keeper.new) }
    ensures lives { OnOk result (live.new ≡ live.old) }
    ensures refused { IsErrOf result StepFault.NoMemory
        → Refuses K.append_gives keeper.old keeper.new }
    ensures tells_same { K.tells keeper.new ≡ K.tells keeper.old }
    ensures lives_on { IsErrOf result StepFault.NoMemory → live.new ≡ live.old }
    ensures failed { IsErrOf result StepFault.Failed
        → K.append_gives keeper.old what (Err StepFault.Failed) keeper.new }
    ensures dead { IsErrOf result StepFault.Failed → live.new ≡ false }
{
    keep(keeper, live, &what)
}

impl Matchmaker {
    /// Whether it could have appended this record.
    pub(crate) fn fits(&self, what: &Record) -> bool
        ensures { result ≡ matchmaker_fits self.now.cluster self.now.me self.now.durable what.now }
    {
        match what {
            Record::Match { round, grid } => {
                self.is_at_work()
                    && names_round(&self.cluster, *round)
                    && names_grid(&self.cluster, grid)
                    && !round.is_before(&self.watermark)
                    && are_before(&self.entries, *round)
                    && has_place(&self.cluster, grid, &self.entries)
            }
            Record::Garbage { round, grid } => {
                self.is_at_work()
                    && names_round(&self.cluster, *round)
                    && names_grid(&self.cluster, grid)
                    && self.watermark.is_before(round)
            }
            Record::Stop { round } => {
                self.is_booted()
                    && names_ballot(&self.cluster, *round)
                    && self.ballot.is_before(round)
            }
            Record::Next { round, set } => {
                self.is_booted()
                    && names_ballot(&self.cluster, *round)
                    && names_set(&self.cluster, set)
                    && !round.is_before(&self.ballot)
                    && *round != self.accepted
            }
            Record::Boot {
                set,
                watermark,
                entries,
            } => {
                !self.is_booted()
                    && set.contains(self.me.index)
                    && names_set(&self.cluster, set)
                    && names_round(&self.cluster, *watermark)
                    && names_entries(&self.cluster, entries.as_slice())
            }
            _ => false,
        }
    }

    /// Remembers a record that it could have appended.
    pub(crate) fn remember(&mut self, what: &Record) -> Result<(), NoMemory>
        requires ranges { IsTrue (record_fits what.now) }
        requires own { matchmaker_fits self.old.cluster self.old.me self.old.durable what.now
            ≡ true }
        ensures ok { OnOk result
            (self.new ≡ record self.old { durable = matchmaker_after self.old.durable what.now }) }
        ensures err { OnErr result (self.new ≡ self.old) }
    {
        match what {
            Record::Match { round, grid } => {
                self.entries.reserve(1)?;
                make_room(&mut self.entries, self.watermark, grid);
                self.entries.push_reserved(Entry {
                    round: *round,
                    grid: *grid,
                });
                Ok(())
            }
            Record::Garbage { round, grid } => {
                self.entries.reserve(1)?;
                self.watermark = *round;
                retire(&mut self.entries, *round, *grid);
                Ok(())
            }
            Record::Stop { round } => {
                self.ballot = *round;
                Ok(())
            }
            Record::Next { round, set } => {
                self.ballot = *round;
                self.accepted = *round;
                self.next = *set;
                Ok(())
            }
            Record::Boot {
                set,
                watermark,
                entries,
            } => {
                let begun = copy_all(self.alloc, entries.as_slice())?;
                self.booted = Some(*set);
                self.watermark = *watermark;
                self.entries = begun;
                Ok(())
            }
            _ => Ok(()),
        }
    }
}
