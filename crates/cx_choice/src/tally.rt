//! The values chosen in a slot, by the rounds and by the slot's votes.

ghost use Rattle.std.specs.Prelude.{◌≡◌, ◌||◌, ℕ, IfOk, OnOk};
ghost use Rattle.std.specs.List.{All, list_any, position};
ghost use Rattle.cx_base.specs.declared.command.Value.{Value};
ghost use Rattle.cx_choice.specs.Enough.{is_value_among, is_chosen_among, is_vote_for, is_whole_vote_in, is_whole_vote, selects};
ghost use Rattle.cx_choice.specs.OfRound.{IsByRound};
ghost use Rattle.cx_choice.specs.Sorted.{AreCast, IsCast, casts_in};

use crate::enough::is_enough;
use crate::of_round::OfRound;
use crate::rounds::by_round;
use cx_base::{Grid, NoMemory, Round, Value, same_value};
use cx_letter::{KeptRecord, Record, Written};
use std::alloc::Global;

fn is_value_among(values: &[&Value], wanted: &Value) -> bool
    ensures { result ≡ is_value_among values.now wanted.now }
{
    values.iter().any(|value| same_value(value, wanted))
}

// Puts the value of a vote after others, if it is in this slot, its round has enough votes for it, and it isn't there yet.
fn add_value<'a>(
    rounds: &[OfRound<Grid>],
    votes: &[OfRound<&KeptRecord>],
    at: u64,
    round: Round,
    slot: u64,
    value: &'a Value,
    chosen: &mut Vec<&'a Value>,
) -> Result<(), NoMemory>
    requires rounds { IsByRound rounds.now }
    requires votes { IsByRound votes.now }
    requires cast { All IsCast votes.now }
    ensures { OnOk result ((v : Value) → is_value_among chosen.new.items v
        ≡ (is_value_among chosen.old.items v
        || is_whole_vote_in rounds.now (casts_in votes.now) at v round slot value.now)) }
{
    if slot != at {
        return Ok(());
    }
    if is_value_among(chosen, value) {
        return Ok(());
    }
    if !is_enough(rounds, votes, round, at, value) {
        return Ok(());
    }
    chosen.push(value)?;
    Ok(())
}

// The same for a change, if it is a vote.
fn add_chosen<'a>(
    rounds: &[OfRound<Grid>],
    votes: &[OfRound<&KeptRecord>],
    at: u64,
    what: &'a Written,
    chosen: &mut Vec<&'a Value>,
) -> Result<(), NoMemory>
    requires rounds { IsByRound rounds.now }
    requires votes { IsByRound votes.now }
    requires cast { All IsCast votes.now }
    ensures { OnOk result ((v : Value) → is_value_among chosen.new.items v
        ≡ (is_value_among chosen.old.items v
        || is_whole_vote rounds.now (casts_in votes.now) at v what.now)) }
{
    match what {
        Written::Record {
            what: Record::Vote {
                round,
                slot,
                value,
                ..
            },
        } => add_value(rounds, votes, at, *round, *slot, value, chosen)?,
        _ => {}
    }
    Ok(())
}

// The values chosen in a slot, each once.
fn chosen_values<'a>(
    alloc: Global,
    rounds: &[OfRound<Grid>],
    by_round: &[OfRound<&KeptRecord>],
    at: u64,
    votes: &'a [KeptRecord],
) -> Result<Vec<&'a Value>, NoMemory>
    requires rounds { IsByRound rounds.now }
    requires votes { AreCast votes.now by_round.now }
    ensures { IfOk result (λ chosen. (v : Value) → is_value_among chosen.items v
        ≡ is_chosen_among rounds.now votes.now at v) }
{
    let mut chosen = Vec::new(alloc);
    for vote in votes {
        add_chosen(rounds, by_round, at, &vote.what, &mut chosen)?;
    }
    Ok(chosen)
}

// Whether this is a vote in this slot, for one of these values.
fn is_vote_for(values: &[&Value], at: u64, what: &Written) -> bool
    ensures { result ≡ is_vote_for values.now at what.now }
{
    match what {
        Written::Record {
            what: Record::Vote { slot, value, .. },
        } => *slot == at && is_value_among(values, value),
        _ => false,
    }
}

// Which of some votes is the first for one of these values.
fn first_for(values: &[&Value], at: u64, votes: &[KeptRecord]) -> Option<usize>
    ensures { result ≡ position (λ vote. is_vote_for values.now at vote.what) votes.now }
{
    votes
        .iter()
        .position(|vote| is_vote_for(values, at, &vote.what))
}

/// Which vote in a slot is the first for a value chosen there, by the rounds and the slot's votes.
pub fn chosen_among(
    alloc: Global,
    rounds: &[OfRound<Grid>],
    at: u64,
    votes: &[KeptRecord],
) -> Result<Option<usize>, NoMemory>
    requires { IsByRound rounds.now }
    ensures { IfOk result
        (λ place. place ≡ position (λ vote. selects rounds.now votes.now at vote.what) votes.now) }
{
    let by_round = by_round(alloc, votes)?;
    let chosen = chosen_values(alloc, rounds, &by_round, at, votes)?;
    Ok(first_for(&chosen, at, votes))
}
