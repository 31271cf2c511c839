//! Worked parts of a tended turn. What is expected was worked out by hand.
#![tactic(auto, unfolding(cx_course::specs::Tending::care_after_turn, cx_course::specs::Tending::is_beat, cx_course::specs::Tending::first_leader, cx_course::specs::Tending::held_by_role, cx_course::specs::Tending::reported, cx_course::specs::Tending::heeded, cx_course::specs::Tending::paused, cx_course::specs::Tending::kind_ticks, cx_course::specs::Tending::collected, cx_course::specs::Tending::tend_ordered, cx_course::specs::Tending::is_time, cx_course::specs::Tending::asks_again, cx_course::specs::Run::ordered, cx_course::specs::Course::does_at, cx_course::specs::Hosted::does))]

ghost use Rattle.cx_node.specs.TendingExamples.{Beats, CatchesUp, NoLeader, Pauses, Queues, Reports, Waits};

/// When a turn ends with a beat.
pub fn beats()
    ensures { Beats }
{}

/// When a replica reports how many slots it holds.
pub fn reports()
    ensures { Reports }
{}

/// When a replica that lags asks for the next value.
pub fn catches_up()
    ensures { CatchesUp }
{}

/// When proxy leaders ask again in a pause.
pub fn pauses()
    ensures { Pauses }
{}

/// Where leader 0 isn't hosted it gets no order.
pub fn no_leader()
    ensures { NoLeader }
{}

/// When clients ask again, and when a spent leader changes.
pub fn waits()
    ensures { Waits }
{}

/// In which order clients that wait ask again.
pub fn queues()
    ensures { Queues }
{}
