//! What is chosen, computed from the kept votes and rounds alone.

ghost use Rattle.std.specs.Prelude.{◌≡◌, ◌<◌, IfOk, length, map};
ghost use Rattle.std.specs.List.{All};
ghost use Rattle.cx_model.specs.Chosen.{chosen_prefix};
ghost use Rattle.cx_choice.specs.Chains.{HaveVotes};
ghost use Rattle.cx_choice.specs.Prefix.{IsChosenVote, IsVoteAt, vote_value_at};
ghost use Rattle.cx_choice.specs.Sorted.{AreRounds};

use crate::chains::{VoteChains, votes_by_slot, votes_in};
use crate::of_round::OfRound;
use crate::prefix::Chosen;
use crate::rounds::rounds;
use crate::tally::chosen_among;
use cx_base::{Grid, NoMemory};
use cx_history::Kept;
use std::alloc::Global;

// The number of the record with the first vote in a slot for a value chosen there.
fn chosen_in(
    alloc: Global,
    kept: &Kept,
    rounds: &[OfRound<Grid>],
    votes: &VoteChains,
    slot: usize,
) -> Result<Option<u32>, NoMemory>
    requires rounds { AreRounds kept.now rounds.now }
    requires votes { HaveVotes votes.now kept.now 0 }
    requires slot { slot < length kept.now }
    ensures { IfOk result (λ number. IsChosenVote kept.now slot number) }
{
    let found = votes_in(alloc, kept, votes, slot)?;
    match chosen_among(alloc, rounds, slot as u64, &found.votes)? {
        Some(place) => Ok(Some(found.numbers[place])),
        None => Ok(None),
    }
}

// The numbers of the records with these votes, for slot 0, 1 and so on, up to the first slot without a chosen value.
fn chosen_votes(alloc: Global, kept: &Kept) -> Result<Vec<u32>, NoMemory>
    ensures values { IfOk result
        (λ numbers. map (vote_value_at kept.now) numbers.items ≡ chosen_prefix kept.now) }
    ensures votes { IfOk result (λ numbers. All (IsVoteAt kept.now) numbers.items) }
{
    let rounds = rounds(alloc, kept)?;
    let votes = votes_by_slot(alloc, kept)?;
    let mut numbers = Vec::new(alloc);
    for slot in 0..kept.len() {
        match chosen_in(alloc, kept, &rounds, &votes, slot)? {
            Some(number) => numbers.push(number)?,
            None => return Ok(numbers),
        }
    }
    Ok(numbers)
}

/// The values chosen in slot 0, 1 and so on, up to the first slot without one.
pub fn chosen_prefix<'a>(alloc: Global, kept: &'a Kept) -> Result<Chosen<'a>, NoMemory>
    ensures { IfOk result (λ values. values ≡ chosen_prefix kept.now) }
{
    Ok(Chosen::of_votes(kept, chosen_votes(alloc, kept)?))
}
