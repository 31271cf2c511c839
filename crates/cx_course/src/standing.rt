//! What a beat asks of a leader.

/// What a beat asks of a leader: whether it may be ordered to lead, its chosen watermark, whether it gave away a slot
/// that too few replicas hold, whether its ticks can do no more for such slots, and whether an order to collect would
/// begin.
#[derive(Clone, Copy)]
pub struct Standing {
    pub may_lead: bool,
    pub cw: u64,
    pub has_open: bool,
    pub is_spent: bool,
    pub can_collect: bool,
}
