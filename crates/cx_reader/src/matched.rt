//! What the matchmakers answered (JSys 2021): the greatest retirement watermark, and the grids that are not retired.

ghost use Rattle.std.specs.Prelude.{◌≡◌};
ghost use Rattle.cx_role.specs.Prelude.{true, list_any, MatchAnswer as AnswerOf, later_round, is_counted};
ghost use Rattle.cx_role.specs.Prelude.{greatest_watermark, entries_told, live_entries, is_member_of, rows_whole};
ghost use Rattle.cx_role.specs.Prelude.{Entry as EntryOf};
ghost use Rattle.cx_model.specs.Matchmaker.{entries_since};
ghost use Rattle.cx_reader.specs.Live.{is_live, some_live, some_live_with};

use cx_base::Round;
use cx_field::Entry;
use cx_grid::{Marks, is_member, row_whole};
use cx_model::MatchAnswer;

fn later_round(a: Round, b: Round) -> Round
    ensures { result ≡ later_round a b }
{
    if a.is_before(&b) { b } else { a }
}

pub fn greatest_watermark(told: &[MatchAnswer]) -> Round
    ensures { result ≡ greatest_watermark told.now }
{
    match told {
        [] => Round::ZERO,
        [answer, rest @ ..] => later_round(answer.watermark, greatest_watermark(rest)),
    }
}

pub fn is_counted(told: &[MatchAnswer], matchmaker: u16) -> bool
    ensures { result ≡ is_counted matchmaker told.now }
{
    told.iter().any(|answer| answer.matchmaker == matchmaker)
}

fn is_live(entry: &Entry, watermark: Round) -> bool
    ensures { result ≡ is_live watermark entry.now }
{
    !entry.round.is_before(&watermark)
}

fn some_live(entries: &[Entry], watermark: Round) -> bool
    ensures { result ≡ some_live watermark entries.now }
{
    entries.iter().any(|entry| is_live(entry, watermark))
}

fn some_live_told(told: &[MatchAnswer], watermark: Round) -> bool
    ensures { result ≡ list_any (λ (a : AnswerOf). some_live watermark a.entries) told.now }
{
    told.iter()
        .any(|answer| some_live(answer.entries.as_slice(), watermark))
}

/// Whether an entry that was reported is not retired.
pub fn has_live(told: &[MatchAnswer]) -> bool
    ensures { result ≡ list_any (λ (e : EntryOf). true) (live_entries told.now) }
{
    some_live_told(told, greatest_watermark(told))
}

fn some_live_with(entries: &[Entry], watermark: Round, acceptor: u16) -> bool
    ensures { result ≡ some_live_with watermark acceptor entries.now }
{
    entries.iter().any(|entry| is_live(entry, watermark) && is_member(&entry.grid, acceptor))
}

fn live_with_told(told: &[MatchAnswer], watermark: Round, acceptor: u16) -> bool
    ensures { result
        ≡ list_any (λ (a : AnswerOf). some_live_with watermark acceptor a.entries) told.now }
{
    told.iter().any(|answer| some_live_with(answer.entries.as_slice(), watermark, acceptor))
}

/// Whether an acceptor is a member of a grid that was reported and is not retired.
pub fn is_live_member(told: &[MatchAnswer], acceptor: u16) -> bool
    ensures { result ≡ is_member_of (live_entries told.now) acceptor }
{
    live_with_told(told, greatest_watermark(told), acceptor)
}

fn live_whole(entries: &[Entry], watermark: Round, marks: &Marks) -> bool
    ensures { result ≡ rows_whole (entries_since watermark entries.now) marks.now }
{
    for entry in entries {
        if is_live(entry, watermark) && !row_whole(&entry.grid, marks) {
            return false;
        }
    }
    true
}

fn live_whole_told(told: &[MatchAnswer], watermark: Round, marks: &Marks) -> bool
    ensures { result ≡ rows_whole (entries_since watermark (entries_told told.now)) marks.now }
{
    for answer in told {
        if !live_whole(answer.entries.as_slice(), watermark, marks) {
            return false;
        }
    }
    true
}

/// Whether each grid that was reported and is not retired has a row that is marked from end to end.
pub fn rows_whole(told: &[MatchAnswer], marks: &Marks) -> bool
    ensures { result ≡ rows_whole (live_entries told.now) marks.now }
{
    live_whole_told(told, greatest_watermark(told), marks)
}
