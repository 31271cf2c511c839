//! A reader puts its list anew: what is left is its last turn.

ghost use Rattle.std.specs.Prelude.{◌≡◌, nat_lt, true, IsTrue};
ghost use Rattle.cx_letter.specs.Records.{fits as record_fits};
ghost use Rattle.cx_letter.specs.declared.kept.Record.TheVariants as kept;
ghost use Rattle.cx_model.specs.Reader.{reader_rules};
ghost use Rattle.cx_role.specs.Snap.{MayRenew};

use crate::Reader;
use cx_base::Why;
use cx_keep::Renew;
use cx_letter::Record;
use cx_role::{Outbox, Snaps, StepFault, renew};
use std::array::from_ref;

impl Reader {
    // Whether it has a record.
    fn has_turn(&self) -> bool
        ensures is { result ≡ nat_lt 0 self.now.durable.turn }
        ensures fits { MayRenew reader_rules self.now }
        ensures spelled { nat_lt 0 self.now.durable.turn ≡ true
            → IsTrue (record_fits (kept.Turn self.now.durable.turn)) }
    {
        0 < self.turn
    }
}

impl Snaps for Reader {
    /// Its list begins anew with its last turn (this project's own). It is idle where it has no turn. It takes no memory.
    fn snap<K: Renew>(&mut self, keeper: &mut K, _out: &mut Outbox) -> Result<Why, StepFault> {
        if !self.has_turn() {
            return Ok(Why::Idle);
        }
        let what = Record::Turn { turn: self.turn };
        renew(keeper, &mut self.live, from_ref(&what))?;
        Ok(Why::Snapped)
    }
}
