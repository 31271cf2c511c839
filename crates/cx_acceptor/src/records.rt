//! What an acceptor remembers of its records.

ghost use Rattle.std.specs.Prelude.{◌≡◌};
ghost use Rattle.cx_role.specs.Prelude.{true, OnOk, OnErr, IsTrue, Vote, list_all, names_round};
ghost use Rattle.cx_role.specs.Prelude.kept;
ghost use Rattle.cx_model.specs.Acceptor.{acceptor_after, acceptor_fits};
ghost use Rattle.cx_model.specs.Names.{names_vote};
ghost use Rattle.cx_field.specs.Fields as field;
ghost use Rattle.cx_letter.specs.Records.{fits as record_fits};

use crate::Acceptor;
use crate::votes::{has_vote_in_round, is_in_window, keep_from, place};
use cx_base::{Cluster, Duplicate, NoMemory, Round, copy_all};
use cx_field::Vote;
use cx_letter::Record;
use cx_role::{names_round, names_value};

fn names_votes(cluster: &Cluster, votes: &[Vote]) -> bool
    ensures { result ≡ list_all (λ (v : Vote). names_vote cluster.now v) votes.now }
{
    votes.iter().all(|vote| names_round(cluster, vote.round) && names_value(cluster, &vote.value))
}

impl Acceptor {
    /// Whether it could have appended this record.
    pub(crate) fn fits(&self, what: &Record) -> bool
        ensures { result ≡ acceptor_fits self.now.cluster self.now.me self.now.durable what.now }
    {
        match what {
            Record::Promise { round } => {
                names_round(&self.cluster, *round) && self.promise.is_before(round)
            }
            Record::Vote {
                round,
                slot,
                cw,
                value,
            } => {
                names_round(&self.cluster, *round)
                    && names_value(&self.cluster, value)
                    && !round.is_before(&self.promise)
                    && self.cw <= *slot
                    && is_in_window(*cw, *slot)
                    && !has_vote_in_round(&self.votes, *slot, *round)
            }
            Record::Water { round, mark } => {
                names_round(&self.cluster, *round)
                    && !round.is_before(&self.promise)
                    && (self.promise.is_before(round) || self.cw < *mark)
            }
            Record::Voted { round, votes, .. } => {
                !Round::ZERO.is_before(&self.promise)
                    && names_round(&self.cluster, *round)
                    && names_votes(&self.cluster, votes.as_slice())
            }
            _ => false,
        }
    }

    /// Remembers a record that it could have appended.
    pub(crate) fn remember(&mut self, what: &Record) -> Result<(), NoMemory>
        requires ranges { IsTrue (record_fits what.now) }
        requires own { acceptor_fits self.old.cluster self.old.me self.old.durable what.now ≡ true }
        ensures ok { OnOk result
            (self.new ≡ record self.old { durable = acceptor_after self.old.durable what.now }) }
        ensures err { OnErr result (self.new ≡ self.old) }
    {
        match what {
            Record::Promise { round } => {
                self.promise = *round;
                Ok(())
            }
            Record::Vote {
                round,
                slot,
                cw,
                value,
            } => {
                let vote = Vote {
                    round: *round,
                    slot: *slot,
                    value: value.copy(self.alloc)?,
                };
                self.votes.reserve(1)?;
                self.promise = *round;
                self.cw = self.cw.max(*cw);
                self.top = self.top.max(*slot + 1);
                keep_from(&mut self.votes, self.cw);
                place(&mut self.votes, vote);
                Ok(())
            }
            Record::Water { round, mark } => {
                self.raise(*round, *mark);
                Ok(())
            }
            Record::Voted {
                round,
                top,
                cw,
                votes,
            } => {
                self.votes = copy_all(self.alloc, votes.as_slice())?;
                self.promise = *round;
                self.cw = *cw;
                self.top = *top;
                Ok(())
            }
            _ => Ok(()),
        }
    }

    /// Remembers that a leader of this round informed how many slots enough replicas hold.
    pub(crate) fn raise(&mut self, round: Round, mark: u64)
        requires round { IsTrue (field.round.fits round) }
        requires mark { IsTrue (field.mark.fits mark) }
        requires named { IsTrue (names_round self.old.cluster round) }
        ensures { self.new ≡ record self.old {
          durable = acceptor_after self.old.durable (kept.Water round mark);
        } }
    {
        self.promise = round;
        self.cw = self.cw.max(mark);
        keep_from(&mut self.votes, self.cw);
    }
}
