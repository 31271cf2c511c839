//! The votes of an acceptor: at most one at each slot, by rising slot.

ghost use Rattle.std.specs.Prelude.{◌≡◌, ◌≤◌, ◌<◌};
ghost use Rattle.cx_role.specs.Prelude.{nat_le, position, vec_len, vec_capacity, Vote, in_window};
ghost use Rattle.cx_model.specs.Acceptor.{is_of_round, vote_at, votes_from_slot, with_vote};

use cx_base::{Round, WINDOW};
use cx_field::Vote;

/// Whether a slot lies in the window that begins at a chosen watermark.
pub fn is_in_window(cw: u64, slot: u64) -> bool
    ensures { result ≡ in_window cw slot }
{
    cw <= slot && slot - cw < WINDOW
}

/// Whether the vote at a slot, if there is one, is of this round.
pub fn has_vote_in_round(votes: &[Vote], slot: u64, round: Round) -> bool
    ensures { result ≡ is_of_round round (vote_at slot votes.now) }
{
    for vote in votes {
        if vote.slot == slot {
            return vote.round == round;
        }
    }
    false
}

/// Forgets the votes below a slot.
pub fn keep_from(votes: &mut Vec<Vote>, low: u64)
    ensures items { votes.new.items ≡ votes_from_slot low votes.old.items }
    ensures fewer { vec_len votes.new ≤ vec_len votes.old }
    ensures room { vec_capacity votes.new ≡ vec_capacity votes.old }
{
    votes.retain(|vote| vote.slot >= low);
}

// The place of the first vote at a slot or above it.
fn first_from(votes: &[Vote], slot: u64) -> Option<usize>
    ensures { result ≡ position (λ (v : Vote). nat_le slot v.slot) votes.now }
{
    votes.iter().position(|vote| vote.slot >= slot)
}

/// Puts a vote in the place of that of its slot, or where its slot belongs. Room for it was taken beforehand.
pub fn place(votes: &mut Vec<Vote>, vote: Vote)
    requires { vec_len votes.old < vec_capacity votes.old }
    ensures { votes.new.items ≡ with_vote vote votes.old.items }
{
    let at = first_from(votes, vote.slot).unwrap_or(votes.len());
    if at < votes.len() && votes[at].slot == vote.slot {
        votes[at] = vote;
    } else {
        votes.insert(at, vote).unwrap();
    }
}
