//! The entries of a matchmaker: rounds with their grids, in rising order.

ghost use Rattle.std.specs.Prelude.{◌≡◌, ◌<◌, ◌≤◌};
ghost use Rattle.cx_role.specs.Prelude.{vec_len, vec_capacity, IfOk, IsTrue, list_all, list_any, is_before, Entry};
ghost use Rattle.cx_model.specs.Matchmaker.{again_told, beside, entries_before, entries_since, greatest, has_grid, has_place, has_round, same_grid, with_own};
ghost use Rattle.cx_field.specs.Fields as field;

use cx_base::{Cluster, Few, Grid, JOINED, NoMemory, ROUNDS, Round, copy_all};
use cx_field::{Entries, Entry};
use std::alloc::Global;

pub fn has_later(entries: &[Entry], round: Round) -> bool
    ensures { result ≡ list_any (λ (e : Entry). is_before round e.round) entries.now }
{
    entries.iter().any(|entry| round.is_before(&entry.round))
}

pub fn are_before(entries: &[Entry], round: Round) -> bool
    ensures { result ≡ list_all (λ (e : Entry). is_before e.round round) entries.now }
{
    entries.iter().all(|entry| entry.round.is_before(&round))
}

pub fn has_entry(entries: &[Entry], round: Round) -> bool
    ensures { result ≡ has_round round entries.now }
{
    entries.iter().any(|entry| entry.round == round)
}

/// The round of the last entry, or none.
pub fn last_round(entries: &[Entry]) -> Round
    ensures { result ≡ greatest entries.now }
{
    entries.last().map_or(Round::ZERO, |entry| entry.round)
}

/// The entries of earlier rounds, as a datagram has them.
pub fn earlier_entries(alloc: Global, entries: &[Entry], round: Round) -> Result<Entries, NoMemory>
    requires { IsTrue (field.entries.fits entries.now) }
    ensures earlier { IfOk result (λ list. list ≡ entries_before round entries.now) }
    ensures fit { IfOk result (λ list. IsTrue (field.entries.fits list)) }
{
    let list = entries
        .iter()
        .copied()
        .filter(|entry| entry.round.is_before(&round))
        .collect::<Vec<Entry>>(alloc)?;
    Ok(Few::from_vec(list))
}

/// All entries, as a datagram has them.
pub fn all_entries(alloc: Global, entries: &[Entry]) -> Result<Entries, NoMemory>
    requires { IsTrue (field.entries.fits entries.now) }
    ensures { IfOk result (λ list. list ≡ entries.now) }
{
    Ok(Few::from_vec(copy_all(alloc, entries)?))
}

fn same_grid(one: &Grid, other: &Grid) -> bool
    ensures { result ≡ same_grid one.now other.now }
{
    one.rows() == other.rows() && one.cols() == other.cols() && one.members() == other.members()
}

fn has_grid(entries: &[Entry], grid: &Grid) -> bool
    ensures { result ≡ has_grid grid.now entries.now }
{
    entries.iter().any(|entry| same_grid(&entry.grid, grid))
}

/// Whether a round with this grid can be recorded: fewer than 16 are, or the cluster has one entry a grid, and the round can
/// take the place of one with its grid (this project's own).
pub fn has_place(cluster: &Cluster, grid: &Grid, entries: &[Entry]) -> bool
    ensures { result ≡ has_place cluster.now grid.now entries.now }
{
    entries.len() < ROUNDS
        || (cluster.one_entry_a_grid && has_grid(entries, grid) && entries.len() < JOINED)
}

/// Where 16 rounds or more are recorded, takes out those with this grid, but for the retirement watermark, whose grid knows
/// what is chosen. A round with the grid is recorded in their place.
pub fn make_room(entries: &mut Vec<Entry>, watermark: Round, grid: &Grid)
    ensures items { entries.new.items ≡ beside watermark grid.now entries.old.items }
    ensures fewer { vec_len entries.new ≤ vec_len entries.old }
    ensures room { vec_capacity entries.new ≡ vec_capacity entries.old }
{
    if entries.len() >= ROUNDS {
        entries.retain(|entry| entry.round == watermark || !same_grid(&entry.grid, grid));
    }
}

/// The entries that a repeat tells: the earlier ones, or all where the cluster has one entry a grid, for the round's own may
/// have taken the place of an earlier one (this project's own).
pub fn entries_again(
    alloc: Global,
    cluster: &Cluster,
    entries: &[Entry],
    round: Round,
) -> Result<Entries, NoMemory>
    requires { IsTrue (field.entries.fits entries.now) }
    ensures told { IfOk result (λ list. list ≡ again_told cluster.now round entries.now) }
    ensures fit { IfOk result (λ list. IsTrue (field.entries.fits list)) }
{
    if cluster.one_entry_a_grid {
        return all_entries(alloc, entries);
    }
    earlier_entries(alloc, entries, round)
}

fn keep_from(entries: &mut Vec<Entry>, round: Round)
    ensures items { entries.new.items ≡ entries_since round entries.old.items }
    ensures fewer { vec_len entries.new ≤ vec_len entries.old }
    ensures room { vec_capacity entries.new ≡ vec_capacity entries.old }
{
    entries.retain(|entry| !entry.round.is_before(&round));
}

/// Forgets the entries of earlier rounds, and puts this one before the others if its round has none. Room for it was
/// taken beforehand.
pub fn retire(entries: &mut Vec<Entry>, round: Round, grid: Grid)
    requires { vec_len entries.old < vec_capacity entries.old }
    ensures { entries.new.items ≡ with_own round grid (entries_since round entries.old.items) }
{
    keep_from(entries, round);
    if !has_entry(entries, round) {
        entries.insert(0, Entry { round, grid }).unwrap();
    }
}
