//! A set of matchmakers in a word.

ghost use Rattle.std.specs.Prelude.{◌≡◌};
ghost use Rattle.cx_script.specs.Places.{set_in, set_word};

use crate::fault::LineFault;
use crate::grid::ids;
use cx_base::{Cluster, Set};

fn set_in(cluster: &Cluster, ids: &[u16]) -> Option<Set>
    ensures { result ≡ set_in cluster.now ids.now }
{
    if ids.len() != 2 * cluster.f as usize + 1 {
        return None;
    }
    Set::from_ids(ids)
}

/// The set of these ids, 2f + 1 of the cluster's matchmakers.
pub fn set_word(cluster: &Cluster, word: &[u8]) -> Result<Set, LineFault>
    ensures { result ≡ set_word cluster.now word.now }
{
    let ids = ids(cluster.pool, word).ok_or(LineFault::Number)?;
    set_in(cluster, &ids).ok_or(LineFault::Number)
}
