//! The rounds that were kept, and the votes of a slot, in the order of their rounds.

ghost use Rattle.std.specs.Prelude.{◌≡◌, ◌++◌, IfOk, OnOk};
ghost use Rattle.std.specs.List.{All};
ghost use Rattle.cx_choice.specs.Sorted.{AreCast, AreRounds, IsCast, begun_by, casts_in, written_round, rounds_of};

use crate::of_round::{OfRound, sort};
use cx_base::{Grid, NoMemory, Round};
use cx_history::Kept;
use cx_letter::{KeptRecord, Record, Written};
use std::alloc::Global;

// Puts the round of a change and its grid after others, if it is a record of a round's begin.
fn add_round(rounds: &mut Vec<OfRound<Grid>>, what: &Written) -> Result<(), NoMemory>
    ensures { OnOk result (rounds.new.items ≡ rounds.old.items ++ begun_by what.now) }
{
    if let Written::Record {
        what: Record::Round { round, grid },
    } = what
    {
        rounds.push(OfRound {
            round: *round,
            item: *grid,
        })?;
    }
    Ok(())
}

// The rounds that were kept, as they came.
fn rounds_kept(alloc: Global, kept: &Kept) -> Result<Vec<OfRound<Grid>>, NoMemory>
    ensures { IfOk result (λ rounds. rounds.items ≡ rounds_of kept.now) }
{
    let mut rounds = Vec::new(alloc);
    for number in 0..kept.len() {
        add_round(&mut rounds, &kept.at(number)?.what)?;
    }
    Ok(rounds)
}

/// The rounds that were kept with their grids, in the order of the rounds.
pub fn rounds(alloc: Global, kept: &Kept) -> Result<Vec<OfRound<Grid>>, NoMemory>
    ensures { IfOk result (λ rounds. AreRounds kept.now rounds.items) }
{
    let mut rounds = rounds_kept(alloc, kept)?;
    sort(&mut rounds);
    Ok(rounds)
}

// The round of a vote; of another change none.
fn written_round(what: &Written) -> Round
    ensures { result ≡ written_round what.now }
{
    match what {
        Written::Record {
            what: Record::Vote { round, .. },
        } => *round,
        _ => Round::ZERO,
    }
}

// Each vote with its round, as they come.
fn casts<'a>(
    alloc: Global,
    votes: &'a [KeptRecord],
) -> Result<Vec<OfRound<&'a KeptRecord>>, NoMemory>
    ensures votes { IfOk result (λ casts. casts_in casts.items ≡ votes.now) }
    ensures cast { IfOk result (λ casts. All IsCast casts.items) }
{
    let mut casts = Vec::with_capacity(alloc, votes.len())?;
    for vote in votes {
        casts.push(OfRound {
            round: written_round(&vote.what),
            item: vote,
        })?;
    }
    Ok(casts)
}

/// The votes in the order of their rounds.
pub fn by_round<'a>(
    alloc: Global,
    votes: &'a [KeptRecord],
) -> Result<Vec<OfRound<&'a KeptRecord>>, NoMemory>
    ensures { IfOk result (λ casts. AreCast votes.now casts.items) }
{
    let mut casts = casts(alloc, votes)?;
    sort(&mut casts);
    Ok(casts)
}
