//! A grid in two words: its sides, then its members.

ghost use Rattle.std.specs.Prelude.{◌≡◌, ◌==◌, ◌<◌, length, Some, IfSome, MatchOption};
ghost use Rattle.std.specs.List.{slice_split};
ghost use Rattle.cx_script.specs.Places.{sides_of, sides_word, ids_of, members_word};

use crate::decimal::number;
use crate::fault::LineFault;
use crate::place::index_below;
use crate::split::{first_part, parted};
use arrayvec::ArrayVec;
use cx_base::{Cluster, Grid, MEMBERS};

fn sides_of(rows: u64, cols: u64) -> Option<(u8, u8)>
    ensures { result ≡ sides_of (Some rows) (Some cols) }
{
    let most = MEMBERS as u64;
    if rows < 1 || cols < 1 || rows > most || cols > most || rows * cols > most {
        return None;
    }
    Some((rows as u8, cols as u8))
}

/// The sides of a grid that some members fill.
pub fn sides_word(word: &[u8]) -> Result<(u8, u8), LineFault>
    ensures { result ≡ sides_word word.now }
{
    let (rows, cols) = parted(word, b'x');
    match (number(rows), number(cols)) {
        (Some(rows), Some(cols)) => sides_of(rows, cols).ok_or(LineFault::Grid),
        _ => Err(LineFault::Grid),
    }
}

/// The ids that a word spells, all below a count, or None where one isn't, or there are more than a grid has members.
pub fn ids(count: u16, word: &[u8]) -> Option<ArrayVec<u16, MEMBERS>>
    ensures { MatchOption result
        (IfSome (ids_of count (slice_split (λ b. b == 44) word.now)) (λ ids. 16 < length ids))
        (λ ids. ids_of count (slice_split (λ b. b == 44) word.now) ≡ Some ids.items) }
{
    let mut ids = ArrayVec::new();
    let mut rest = Some(word);
    while let Some(parts) = rest {
        let (part, after) = first_part(parts, b',');
        ids.try_push(index_below(count, part)?).ok()?;
        rest = after;
    }
    Some(ids)
}

/// The grid of these sides, its members acceptors of the cluster.
pub fn members_word(cluster: &Cluster, rows: u8, cols: u8, word: &[u8]) -> Result<Grid, LineFault>
    ensures { result ≡ members_word cluster.now rows cols word.now }
{
    let ids = ids(cluster.acceptors, word).ok_or(LineFault::Grid)?;
    Grid::new(rows, cols, &ids).map_err(|_| LineFault::Grid)
}
