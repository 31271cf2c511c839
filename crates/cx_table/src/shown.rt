//! The lists of the table that contracts see.

ghost use Rattle.std.specs.Prelude.{◌≡◌, []};
ghost use Rattle.cx_base.specs.Noted.{with_floor, with_note, still_noted};

use cx_base::{Answered, Floor};
use cx_ring::{GhostList, GhostListOf};

struct Nothing;

impl<T> GhostListOf<(), T> for Nothing {
    ghost list_shown = { λ _. [] };
}

struct WithFloor;

impl<'a> GhostListOf<(&'a GhostList<Floor>, u16, u64), Floor> for WithFloor {
    ghost list_shown = { λ x. with_floor x.1 x.2 x.0.now.items };
}

struct WithAnswer;

impl<'a> GhostListOf<(&'a GhostList<Answered>, &'a Answered, u64), Answered> for WithAnswer {
    ghost list_shown = { λ x. still_noted x.1.now.client x.2 (with_note x.1.now x.0.now.items) };
}

struct StillNoted;

impl<'a> GhostListOf<(&'a GhostList<Answered>, u16, u64), Answered> for StillNoted {
    ghost list_shown = { λ x. still_noted x.1 x.2 x.0.now.items };
}

/// Nothing.
pub fn none<T>() -> GhostList<T>
    ensures { result.items ≡ [] }
{
    GhostList::of::<(), Nothing>(&())
}

/// The floors once a client has told one.
pub fn with_floor(floors: &GhostList<Floor>, client: u16, floor: u64) -> GhostList<Floor>
    ensures { result.items ≡ with_floor client floor floors.now.items }
{
    GhostList::of::<(&GhostList<Floor>, u16, u64), WithFloor>(&(floors, client, floor))
}

/// The answers with one more, once its client has told a floor with it.
pub fn with_answer(
    notes: &GhostList<Answered>,
    answer: &Answered,
    floor: u64,
) -> GhostList<Answered>
    ensures { result.items
        ≡ still_noted answer.now.client floor (with_note answer.now notes.now.items) }
{
    GhostList::of::<(&GhostList<Answered>, &Answered, u64), WithAnswer>(&(notes, answer, floor))
}

/// The answers that stay once a client has told a floor.
pub fn still_noted(notes: &GhostList<Answered>, client: u16, floor: u64) -> GhostList<Answered>
    ensures { result.items ≡ still_noted client floor notes.now.items }
{
    GhostList::of::<(&GhostList<Answered>, u16, u64), StillNoted>(&(notes, client, floor))
}
