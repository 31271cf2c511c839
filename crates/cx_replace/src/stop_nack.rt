//! Who refuses a replacer's ballot, and reports a greater one.

ghost use Rattle.cx_role.specs.Prelude.{[], Replies};
ghost use Rattle.cx_model.specs.Replacer.{replacer_rules, stop_nack_row};

use crate::Replacer;
use crate::rounds::{is_same, later_round};
use cx_base::{Round, Why};
use cx_model::Replacing;

impl Replacer {
    /// A matchmaker has promised a greater ballot, which is noted whatever the answer; a replacer that still needs the known set
    /// gives its own up.
    pub(crate) fn stop_nack(&mut self, ballot: Round, other: Round) -> Why
        ensures { let s = self.old in
            Replies replacer_rules s (stop_nack_row s.durable s.volatile ballot other) result
            self.new [] }
    {
        self.seen = later_round(self.seen, other);
        if !is_same(ballot, self.own)
            || matches!(self.mode, Replacing::Idle)
            || matches!(self.mode, Replacing::Booting)
        {
            return Why::Old;
        }
        self.mode = Replacing::Idle;
        Why::Nacked
    }
}
