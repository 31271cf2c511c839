//! What the matchmakers reported (JSys 2021): the greatest retirement watermark, and the entries that are not retired.

ghost use Rattle.std.specs.Prelude.{◌≡◌, ◌∷◌, ◌++◌};
ghost use Rattle.cx_role.specs.Prelude.{[], not, IfOk, is_before, later_round, is_counted};
ghost use Rattle.cx_role.specs.Prelude.{greatest_watermark, live_entries};
ghost use Rattle.cx_model.specs.Matchmaker.{entries_since};

use cx_base::{NoMemory, Round};
use cx_field::Entry;
use cx_model::MatchAnswer;
use std::alloc::Global;

/// The greater of two rounds.
pub fn later_round(a: Round, b: Round) -> Round
    ensures { result ≡ later_round a b }
{
    if a.is_before(&b) { b } else { a }
}

/// Whether a matchmaker's answer is among these.
pub fn is_counted(told: &[MatchAnswer], matchmaker: u16) -> bool
    ensures { result ≡ is_counted matchmaker told.now }
{
    told.iter().any(|answer| answer.matchmaker == matchmaker)
}

// The greatest retirement watermark of these answers and one more: a matchmaker has forgotten the rounds below its own.
fn watermark(told: &[MatchAnswer], last: &MatchAnswer) -> Round
    ensures { result ≡ greatest_watermark (told.now ++ last.now ∷ []) }
{
    match told {
        [] => later_round(last.watermark, Round::ZERO),
        [answer, rest @ ..] => later_round(answer.watermark, watermark(rest, last)),
    }
}

// Whether an entry's round is not retired.
fn is_live(entry: &Entry, watermark: Round) -> bool
    ensures { result ≡ not (is_before entry.now.round watermark) }
{
    !entry.round.is_before(&watermark)
}

// The entries from the retirement watermark on, after those of a list.
fn add_live(live: &mut Vec<Entry>, entries: &[Entry], watermark: Round) -> Result<(), NoMemory>
    ensures { IfOk result
        (λ _. live.new.items ≡ live.old.items ++ entries_since watermark entries.now) }
{
    for entry in entries {
        if is_live(entry, watermark) {
            live.push(*entry)?;
        }
    }
    Ok(())
}

/// The entries of these answers and one more that are not retired. The last one is apart, since it joins the list only once
/// nothing can fail.
#[tactic(auto, using(crate::proofs::MatchLaws::more_told))]
pub fn live_entries(
    alloc: Global,
    told: &[MatchAnswer],
    last: &MatchAnswer,
) -> Result<Vec<Entry>, NoMemory>
    ensures { IfOk result (λ live. live.items ≡ live_entries (told.now ++ last.now ∷ [])) }
{
    let watermark = watermark(told, last);
    let mut live = Vec::new(alloc);
    for answer in told {
        add_live(&mut live, answer.entries.as_slice(), watermark)?;
    }
    add_live(&mut live, last.entries.as_slice(), watermark)?;
    Ok(live)
}
