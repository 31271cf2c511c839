//! An acceptor puts its list anew: it forgets nothing of what it knows, but how it came to know it.

ghost use Rattle.std.specs.Prelude.{◌≡◌, IfOk, IsTrue};
ghost use Rattle.cx_letter.specs.Records.{fits as record_fits};
ghost use Rattle.cx_letter.specs.declared.kept.Record.TheVariants as kept;
ghost use Rattle.cx_model.specs.Acceptor.{acceptor_rules};
ghost use Rattle.cx_model.specs.Prelude.{no_round};
ghost use Rattle.cx_role.specs.Prelude.{true, is_before};
ghost use Rattle.cx_role.specs.Snap.{MayRenew};

use crate::Acceptor;
use cx_base::{NoMemory, Round, Why};
use cx_keep::Renew;
use cx_letter::Record;
use cx_role::{Outbox, Snaps, StepFault, renew};
use std::array::from_ref;

impl Acceptor {
    // Whether it has a record: each promises a real round.
    fn has_promised(&self) -> bool
        ensures is { result ≡ is_before no_round self.now.durable.promise }
        ensures fits { MayRenew acceptor_rules self.now }
    {
        Round::ZERO.is_before(&self.promise)
    }

    // All that its records left, as one record.
    fn voted(&self) -> Result<Record, NoMemory>
        requires { is_before no_round self.now.durable.promise ≡ true }
        ensures is { IfOk result (λ what. what ≡ kept.Voted self.now.durable.promise
            self.now.durable.top self.now.durable.cw self.now.durable.votes) }
        ensures fits { IfOk result (λ what. IsTrue (record_fits what)) }
    {
        let votes = self.told_votes()?;
        Ok(Record::Voted {
            round: self.promise,
            top: self.top,
            cw: self.cw,
            votes,
        })
    }
}

impl Snaps for Acceptor {
    /// Its list begins anew, with its promise, where its votes end, its chosen watermark and its votes from there on (this
    /// project's own). It is idle where it has no record.
    fn snap<K: Renew>(&mut self, keeper: &mut K, _out: &mut Outbox) -> Result<Why, StepFault> {
        if !self.has_promised() {
            return Ok(Why::Idle);
        }
        let what = self.voted()?;
        renew(keeper, &mut self.live, from_ref(&what))?;
        Ok(Why::Snapped)
    }
}
