//! What belongs to rounds, in the order of the rounds.

ghost use Rattle.std.specs.Prelude.{◌≡◌};
ghost use Rattle.std.specs.List.Sorted.{IsPermutation};
ghost use Rattle.cx_choice.specs.OfRound.{IsBegin, IsByRound, IsEndOfRound, of_round};

use cx_base::Round;

/// Something that belongs to a round.
#[derive(Clone, Copy)]
pub struct OfRound<T> {
    pub round: Round,
    pub item: T,
}

/// Puts them in the order of their rounds.
pub fn sort<T: Drop>(list: &mut Vec<OfRound<T>>)
    ensures same { IsPermutation list.old.items list.new.items }
    ensures sorted { IsByRound list.new.items }
{
    list.sort_unstable_by_key(|one| one.round);
}

// The place of the first one that isn't of an earlier round.
fn begin_of<T>(list: &[OfRound<T>], round: &Round) -> usize
    requires { IsByRound list.now }
    ensures { IsBegin round.now list.now result }
{
    list.partition_point(|one| one.round.is_before(round))
}

// The place of the first one that is of a later round.
fn end_of<T>(list: &[OfRound<T>], round: &Round) -> usize
    requires { IsByRound list.now }
    ensures { IsEndOfRound round.now list.now result }
{
    list.partition_point(|one| !round.is_before(&one.round))
}

/// Those of a round, among some in the order of their rounds.
pub fn in_round<'a, T>(list: &'a [OfRound<T>], round: &Round) -> &'a [OfRound<T>]
    requires { IsByRound list.now }
    ensures { result.now ≡ of_round round.now list.now }
{
    let begin = begin_of(list, round);
    let end = end_of(list, round);
    let (_, behind) = list.split_at(begin);
    let (these, _) = behind.split_at(end - begin);
    these
}
