//! What the leader proposes when the phase is over: in each slot the value of the greatest round voted there (VLDB 2021).

ghost use Rattle.std.specs.Prelude.{◌≡◌, ◌-◌, All, IfOk, map};
ghost use Rattle.cx_base.specs.Lists.{numbers};
ghost use Rattle.cx_ring.specs.Ring.{value_at};
ghost use Rattle.cx_model.specs.Plan.{end_told, voted_value};
ghost use Rattle.cx_phase1.specs.Best.{slot_of, plan_of};
ghost use Rattle.cx_phase1.specs.Sound.{IsVote};

use crate::best::Best;
use cx_base::{Duplicate, NoMemory, Value, Values};
use cx_field::Vote;
use cx_model::Plan;
use std::alloc::Global;

/// One more than the greatest slot of these votes, and at least this one.
pub fn end_of(low: u64, cw: u64, votes: &[Vote]) -> u64
    requires { All (IsVote cw) votes.now }
    ensures { result ≡ end_told low votes.now }
{
    let mut end = low;
    for vote in votes {
        end = end.max(vote.slot + 1);
    }
    end
}

// A slot at which nobody reported a vote has nothing to do.
fn voted_value(alloc: Global, slot: u64, best: &Best) -> Result<Value, NoMemory>
    ensures { IfOk result (λ value. value ≡ voted_value (value_at slot_of slot best.now.items)) }
{
    match best.get(slot) {
        None => Ok(Value::Noop),
        Some(vote) => vote.value.copy(alloc),
    }
}

// The values of the slots from the first one to before the end.
fn values_between(alloc: Global, first: u64, end: u64, best: &Best) -> Result<Values, NoMemory>
    ensures { IfOk result
        (λ values. values ≡ map (λ s. voted_value (value_at slot_of s best.now.items))
        (numbers first (end - first))) }
{
    let mut values = Vec::new(alloc);
    for slot in first..end {
        values.push(voted_value(alloc, slot, best)?)?;
    }
    Ok(Values::from_vec(values))
}

/// The plan of the best votes, from the window's beginning, and at least from `low`, to this end.
pub fn plan(alloc: Global, low: u64, best: &Best, end: u64) -> Result<Plan, NoMemory>
    ensures { IfOk result (λ found. found ≡ plan_of low best.now end) }
{
    let cw = low.max(best.first());
    let end = cw.max(end);
    let values = values_between(alloc, cw, end, best)?;
    Ok(Plan { cw, end, values })
}
