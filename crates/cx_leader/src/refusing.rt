//! Who refuses a leader's round, and reports a greater one.

ghost use Rattle.cx_role.specs.Prelude.{[], Replies};
ghost use Rattle.cx_model.specs.Leader.{nack_row, match_nack_row, leader_rules};

use crate::Leader;
use crate::entries::later_round;
use crate::rounds::{is_same, round_of};
use cx_base::{RoleId, Round, Why};
use cx_field::NackReason;
use cx_model::Mode;

impl Leader {
    /// An acceptor has promised a greater round, which is noted whatever the answer; a leader of the refused round
    /// gives it up.
    pub(crate) fn nack(&mut self, round: Round, promise: Round) -> Why
        ensures { let s = self.old in
            Replies leader_rules s (nack_row s.durable s.volatile round promise) result
            self.new [] }
    {
        self.seen = later_round(self.seen, promise);
        if matches!(self.mode, Mode::Idle) || !is_same(round, round_of(&self.own)) {
            return Why::Old;
        }
        // The rest stays until it begins another round.
        self.mode = Mode::Idle;
        Why::Nacked
    }

    /// A matchmaker does not record the round, and reports another one, which is noted whatever the answer; where it has no
    /// room the leader goes on, as others may record it.
    pub(crate) fn match_nack(
        &mut self,
        from: RoleId,
        round: Round,
        reason: NackReason,
        other: Round,
    ) -> Why
        ensures { let s = self.old in
            Replies leader_rules s (match_nack_row s.durable s.volatile from round reason other)
            result self.new [] }
    {
        self.seen = later_round(self.seen, other);
        if matches!(self.mode, Mode::Idle)
            || !is_same(round, round_of(&self.own))
            || !self.set.contains(from.index)
        {
            return Why::Old;
        }
        if matches!(reason, NackReason::Full) {
            return Why::Full;
        }
        self.mode = Mode::Idle;
        Why::Nacked
    }
}
