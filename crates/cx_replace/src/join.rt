//! What the matchmakers that have stopped had, joined.

ghost use Rattle.std.specs.Prelude.{◌≡◌, ◌≤◌, ◌∷◌, ◌++◌};
ghost use Rattle.cx_role.specs.Prelude.{[], not, false, length, Some, IfOk, is_before, same_round, greatest_watermark};
ghost use Rattle.std.specs.Prelude.{slice_get, vec_len};
ghost use Rattle.std.specs.List.{insert};
ghost use Rattle.std.specs.Option.{option_map_or};
ghost use Rattle.cx_role.specs.Prelude.{Entry as EntryOf};
ghost use Rattle.cx_model.specs.Matchmaker.{entries_since};
ghost use Rattle.cx_model.specs.Replacer.{answers_of, has_halted, joined_entries, latest, sorted_into, to_decide, with_entry};
ghost use Rattle.cx_replace.specs.Joining.{earlier};

use crate::rounds::{is_same, later_round};
use cx_base::{NoMemory, Round, Set};
use cx_field::Entry;
use cx_model::Halt;
use std::alloc::Global;

/// Whether a matchmaker's answer was counted.
pub fn has_halted(halts: &[Halt], matchmaker: u16) -> bool
    ensures { result ≡ has_halted matchmaker halts.now }
{
    halts
        .iter()
        .any(|halt| halt.answer.matchmaker == matchmaker)
}

/// The greatest retirement watermark of these answers and one more.
pub fn watermark(halts: &[Halt], last: &Halt) -> Round
    ensures { result ≡ greatest_watermark (answers_of (halts.now ++ last.now ∷ [])) }
{
    match halts {
        [] => later_round(last.answer.watermark, Round::ZERO),
        [halt, rest @ ..] => later_round(halt.answer.watermark, watermark(rest, last)),
    }
}

// The answer that accepted a set in the greatest ballot, of these and one more; of several the first.
fn latest<'a>(halts: &'a [Halt], last: &'a Halt) -> &'a Halt
    ensures { latest (halts.now ++ last.now ∷ []) ≡ Some result.now }
{
    match halts {
        [] => last,
        [halt, rest @ ..] => {
            let other = latest(rest, last);
            if halt.accepted.is_before(&other.accepted) {
                other
            } else {
                halt
            }
        }
    }
}

/// The set to decide, after these answers and one more: one that may have been decided already, else the ordered one.
pub fn to_decide(ordered: &Set, halts: &[Halt], last: &Halt) -> Set
    ensures { result ≡ to_decide ordered.now (halts.now ++ last.now ∷ []) }
{
    let halt = latest(halts, last);
    if Round::ZERO.is_before(&halt.accepted) {
        halt.next
    } else {
        *ordered
    }
}

// How many entries at the front are of earlier rounds.
fn place_of(entries: &[Entry], round: Round) -> usize
    ensures place { result ≡ earlier round entries.now }
    ensures inside { result ≤ length entries.now }
{
    for (place, entry) in entries.iter().enumerate() {
        if !entry.round.is_before(&round) {
            return place;
        }
    }
    entries.len()
}

fn is_at(entries: &[Entry], place: usize, round: Round) -> bool
    ensures { result ≡ option_map_or (λ (e : EntryOf). same_round round e.round)
        (slice_get entries.now place) false }
{
    match entries.get(place) {
        Some(entry) => is_same(round, entry.round),
        None => false,
    }
}

fn insert_at(list: &mut Vec<Entry>, place: usize, entry: Entry) -> Result<(), NoMemory>
    requires { place ≤ vec_len list.old }
    ensures { IfOk result (λ _. list.new.items ≡ insert list.old.items place entry) }
{
    list.reserve(1)?;
    list.insert(place, entry).unwrap();
    Ok(())
}

// Puts an entry among those of other rounds, by rising round; of one round the first stays.
#[tactic(auto, using(crate::proofs::JoinLaws::put_new, crate::proofs::JoinLaws::put_same))]
fn put(joined: &mut Vec<Entry>, entry: Entry) -> Result<(), NoMemory>
    ensures { IfOk result (λ _. joined.new.items ≡ with_entry entry joined.old.items) }
{
    let place = place_of(joined, entry.round);
    if is_at(joined, place, entry.round) {
        return Ok(());
    }
    insert_at(joined, place, entry)
}

fn is_live(entry: &Entry, watermark: Round) -> bool
    ensures { result ≡ not (is_before entry.now.round watermark) }
{
    !entry.round.is_before(&watermark)
}

// Puts the entries from the retirement watermark on.
fn put_live(joined: &mut Vec<Entry>, entries: &[Entry], watermark: Round) -> Result<(), NoMemory>
    ensures { IfOk result (λ _.
        joined.new.items ≡ sorted_into joined.old.items (entries_since watermark entries.now)) }
{
    for entry in entries {
        if is_live(entry, watermark) {
            put(joined, *entry)?;
        }
    }
    Ok(())
}

/// The entries of these answers and one more, from their greatest retirement watermark on.
#[tactic(auto, using(crate::proofs::JoinLaws::more_told))]
pub fn join(alloc: Global, halts: &[Halt], last: &Halt) -> Result<Vec<Entry>, NoMemory>
    ensures { IfOk result (λ list. list.items ≡ joined_entries (halts.now ++ last.now ∷ [])) }
{
    let watermark = watermark(halts, last);
    let mut list = Vec::new(alloc);
    for halt in halts {
        put_live(&mut list, halt.answer.entries.as_slice(), watermark)?;
    }
    put_live(&mut list, last.answer.entries.as_slice(), watermark)?;
    Ok(list)
}
