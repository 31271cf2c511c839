//! The best vote reported for each slot: that of the greatest round, and of one round the first reported (VLDB 2021).

ghost use Rattle.std.specs.Prelude.{◌≡◌, ◌≤◌, ◌<◌, ◌+◌, ◌^◌, true, All};
ghost use Rattle.std.specs.Option.{option_copied};
ghost use Rattle.cx_ring.specs.Ring.{raise_ring};
ghost use Rattle.cx_phase1.specs.Best.{slot_of, replaces, best_with_vote, with_votes};
ghost use Rattle.cx_phase1.specs.Sound.{IsVote};

use cx_field::Vote;
use cx_ring::{Ring, Slotted};

/// Votes by their slots.
pub struct BySlot;

impl Slotted<Vote> for BySlot {
    ghost at = { slot_of };

    fn slot(one: &Vote) -> u64 {
        one.slot
    }
}

/// The best vote reported for each slot of a window.
pub type Best = Ring<Vote, BySlot>;

// Whether a vote goes into the place of the best one so far of its slot: there is none, or it is of a greater round.
fn replaces(vote: &Vote, best: Option<&Vote>) -> bool
    ensures { result ≡ replaces vote.now (option_copied best.entry) }
{
    match best {
        None => true,
        Some(first) => first.round.is_before(&vote.round),
    }
}

// Holds a vote where its slot is not below the window and none as good is there.
fn hold(best: &mut Best, vote: Vote)
    requires room { best.old.room ≡ true }
    requires high { vote.slot < best.old.first + 32 }
    ensures { best.new ≡ best_with_vote vote best.old }
{
    if vote.slot < best.first() {
        return;
    }
    if replaces(&vote, best.get(vote.slot)) {
        best.put(vote);
    }
}

// Holds the best of these votes, one after the other.
fn hold_all(best: &mut Best, votes: Vec<Vote>)
    requires room { best.old.room ≡ true }
    requires high { All (λ v. v.slot < best.old.first + 32) votes.items }
    ensures { best.new ≡ with_votes votes.items best.old }
{
    for vote in votes {
        hold(best, vote);
    }
}

/// Holds the best of what an acceptor reported from the slot `cw` on, and nothing below it.
pub fn take_in(best: &mut Best, cw: u64, votes: Vec<Vote>)
    requires room { best.old.room ≡ true }
    requires cw { cw ≤ 2 ^ 40 }
    requires votes { All (IsVote cw) votes.items }
    ensures { best.new ≡ with_votes votes.items (raise_ring slot_of cw best.old) }
{
    best.raise(cw);
    hold_all(best, votes);
}
