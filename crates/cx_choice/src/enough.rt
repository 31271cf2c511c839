//! Whether the votes of a round are enough for a value.

ghost use Rattle.std.specs.Prelude.{◌≡◌, ◌<◌, ◌&&◌};
ghost use Rattle.std.specs.List.{All, list_all, list_any};
ghost use Rattle.cx_base.specs.Lists.{below};
ghost use Rattle.cx_base.specs.Role.{role, same_role};
ghost use Rattle.cx_base.specs.declared.role.Kind.{Kind};
ghost use Rattle.cx_grid.specs.Quorum.{column_of};
ghost use Rattle.cx_model.specs.Chosen.{is_vote, has_vote, is_chosen_in};
ghost use Rattle.cx_choice.specs.Enough.{is_chosen_among, is_enough};
ghost use Rattle.cx_choice.specs.OfRound.{IsByRound};
ghost use Rattle.cx_choice.specs.Sorted.{IsCast, casts_in};

use crate::of_round::{OfRound, in_round};
use cx_base::{Grid, Kind, RoleId, Round, Value, same_value};
use cx_grid::meet;
use cx_letter::{KeptRecord, Record, Written};

fn is_vote(of: Round, at: u64, wanted: &Value, what: &Written) -> bool
    ensures { result ≡ is_vote of at wanted.now what.now }
{
    match what {
        Written::Record {
            what: Record::Vote {
                round,
                slot,
                value,
                ..
            },
        } => *round == of && *slot == at && same_value(value, wanted),
        _ => false,
    }
}

fn is_vote_of(acceptor: u16, of: Round, at: u64, wanted: &Value, kept: &KeptRecord) -> bool
    ensures { result ≡ (same_role kept.now.role (role Kind.Acceptor acceptor)
        && is_vote of at wanted.now kept.now.what) }
{
    kept.role.is(RoleId::new(Kind::Acceptor, acceptor)) && is_vote(of, at, wanted, &kept.what)
}

fn has_vote(
    votes: &[OfRound<&KeptRecord>],
    acceptor: u16,
    of: Round,
    at: u64,
    wanted: &Value,
) -> bool
    ensures { result ≡ has_vote (casts_in votes.now) acceptor of at wanted.now }
{
    for one in votes {
        if is_vote_of(acceptor, of, at, wanted, one.item) {
            return true;
        }
    }
    false
}

// Whether each member of a column voted for the value in the round.
#[tactic(auto, using(cx_grid::proofs::Crossing::numbers_more))]
fn has_column(
    votes: &[OfRound<&KeptRecord>],
    grid: &Grid,
    col: u8,
    of: Round,
    at: u64,
    wanted: &Value,
) -> bool
    requires { col < grid.now.cols }
    ensures { result ≡ list_all (λ a. has_vote (casts_in votes.now) a of at wanted.now)
        (column_of grid.now col) }
{
    for row in 0..grid.rows() {
        if !has_vote(votes, meet(grid, row, col), of, at, wanted) {
            return false;
        }
    }
    true
}

// Whether each member of some column did.
#[tactic(auto, using(cx_grid::proofs::Crossing::numbers_more))]
fn has_some_column(
    votes: &[OfRound<&KeptRecord>],
    grid: &Grid,
    of: Round,
    at: u64,
    wanted: &Value,
) -> bool
    ensures { result ≡ list_any
        (λ b. list_all (λ a. has_vote (casts_in votes.now) a of at wanted.now)
        (column_of grid.now b)) (below grid.now.cols) }
{
    for col in 0..grid.cols() {
        if has_column(votes, grid, col, of, at, wanted) {
            return true;
        }
    }
    false
}

fn is_chosen_in(
    votes: &[OfRound<&KeptRecord>],
    begun: &OfRound<Grid>,
    at: u64,
    wanted: &Value,
) -> bool
    ensures { result
        ≡ is_chosen_in (casts_in votes.now) begun.now.round begun.now.item at wanted.now }
{
    begun.item.rows() > 0 && has_some_column(votes, &begun.item, begun.round, at, wanted)
}

fn is_chosen_among(
    rounds: &[OfRound<Grid>],
    votes: &[OfRound<&KeptRecord>],
    at: u64,
    wanted: &Value,
) -> bool
    ensures { result ≡ is_chosen_among rounds.now (casts_in votes.now) at wanted.now }
{
    rounds
        .iter()
        .any(|begun| is_chosen_in(votes, begun, at, wanted))
}

/// Whether a round has enough votes for a value in a slot.
pub fn is_enough(
    rounds: &[OfRound<Grid>],
    votes: &[OfRound<&KeptRecord>],
    of: Round,
    at: u64,
    wanted: &Value,
) -> bool
    requires rounds { IsByRound rounds.now }
    requires votes { IsByRound votes.now }
    requires cast { All IsCast votes.now }
    ensures { result ≡ is_enough rounds.now (casts_in votes.now) at of wanted.now }
{
    is_chosen_among(in_round(rounds, &of), in_round(votes, &of), at, wanted)
}
