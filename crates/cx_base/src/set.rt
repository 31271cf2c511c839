//! Sets of matchmakers.

ghost use Rattle.std.specs.Prelude.{◌≡◌, ◌≤◌, ◌+◌, ◌*◌, nat_lt, [], length, IsTrue};
ghost use Rattle.std.specs.List.{list_all};
ghost use Rattle.cx_base.specs.Grid.{is_in};
ghost use Rattle.cx_base.specs.Lists.{below};
ghost use Rattle.cx_base.specs.Sets.{is_above, is_rising, set_from_ids};

use crate::cluster::Cluster;
use crate::limits::SET_LENGTH;
use std::marker::Model;

/// Ids of matchmakers, strictly rising, at most seven; a set of the cluster has 2f + 1.
#[derive(Clone, Copy, Debug, PartialEq, Eq)]
pub struct Set {
    ids: [u16; SET_LENGTH],
    len: usize,
}

impl Model for Set {
    ghost use Rattle.std.specs.Prelude.{◌≡◌, ◌≤◌, ◌++◌, ◌-◌, ℕ, List, length, take, drop, replicate, IsTrue};
    ghost use Rattle.cx_base.specs.Sets.{is_rising};

    ghost Value = { List ℕ };

    ghost view = { λ s. take s.len s.ids };

    ghost invariant = { λ s. (length s.ids ≡ 7) × (drop s.len s.ids ≡ replicate (7 - s.len) 0)
        × (s.len ≤ 7) × IsTrue (is_rising (take s.len s.ids)) };

    ghost inverse = { λ v. record { ids = v ++ replicate (7 - length v) 0; len = length v } };

    ghost use Rattle.cx_base.specs.Name.{zeros_after, length_kept};
    ghost use Rattle.cx_base.specs.SetFields.{same_fields};

    ghost inverse_ok = { λ a h. same_fields a _ _ (zeros_after 7 a.len a.ids h.0 h.1 h.2)
        (length_kept 7 a.len a.ids h.0 h.2) };
}

// Whether a number is below all of these.
fn is_below(id: u16, others: &[u16]) -> bool
    ensures { result ≡ list_all (λ m. nat_lt id m) others.now }
{
    others.iter().all(|other| id < *other)
}

// Whether all of these are below a number.
fn are_below(ids: &[u16], bound: u16) -> bool
    ensures { result ≡ list_all (λ m. nat_lt m bound) ids.now }
{
    ids.iter().all(|id| *id < bound)
}

fn contains(ids: &[u16], id: u16) -> bool
    ensures { result ≡ is_in id ids.now }
{
    ids.iter().any(|other| *other == id)
}

fn is_rising(ids: &[u16]) -> bool
    ensures { result ≡ is_rising ids.now }
{
    for (place, id) in ids.iter().enumerate() {
        if !is_below(*id, &ids[place + 1..]) {
            return false;
        }
    }
    true
}

fn are_above(ids: &[u16], others: &[u16]) -> bool
    ensures { result ≡ is_above ids.now others.now }
{
    for id in ids {
        if !are_below(others, *id) {
            return false;
        }
    }
    true
}

impl Set {
    /// No matchmaker.
    pub fn empty() -> Self
        ensures { result ≡ [] }
    {
        Set {
            ids: [0; SET_LENGTH],
            len: 0,
        }
    }

    /// The set with which the cluster begins: its first 2f + 1 matchmakers.
    pub fn first(cluster: &Cluster) -> Self
        ensures { result ≡ below (2 * cluster.now.f + 1) }
    {
        match cluster.f {
            0 => Set::new(&[0]),
            1 => Set::new(&[0, 1, 2]),
            2 => Set::new(&[0, 1, 2, 3, 4]),
            _ => Set::new(&[0, 1, 2, 3, 4, 5, 6]),
        }
    }

    /// The set with these ids, or None where they are none: more than seven, or an id that isn't above the one before.
    pub fn from_ids(ids: &[u16]) -> Option<Self>
        ensures { result ≡ set_from_ids ids.now }
    {
        if ids.len() > SET_LENGTH {
            return None;
        }
        if !is_rising(ids) {
            return None;
        }
        Some(Set::new(ids))
    }

    /// The set with these ids.
    pub fn new(ids: &[u16]) -> Self
        requires room { length ids.now ≤ 7 }
        requires rising { IsTrue (is_rising ids.now) }
        ensures { result ≡ ids.now }
    {
        let mut all = [0; SET_LENGTH];
        all[..ids.len()].copy_from_slice(ids);
        Set {
            ids: all,
            len: ids.len(),
        }
    }

    /// Its ids.
    pub fn ids(&self) -> &[u16]
        ensures ids { result.now ≡ self.now }
        ensures room { length self.now ≤ 7 }
        ensures rising { IsTrue (is_rising self.now) }
    {
        &self.ids[..self.len]
    }

    /// Whether it has a matchmaker.
    pub fn contains(&self, id: u16) -> bool
        ensures { result ≡ is_in id self.now }
    {
        contains(self.ids(), id)
    }

    /// Whether all of its ids are below a number.
    pub fn is_within(&self, bound: u16) -> bool
        ensures { result ≡ list_all (λ m. nat_lt m bound) self.now }
    {
        are_below(self.ids(), bound)
    }

    /// Whether each of its ids is above each of another set's.
    pub fn is_above(&self, other: &Set) -> bool
        ensures { result ≡ is_above self.now other.now }
    {
        are_above(self.ids(), other.ids())
    }
}
